//! Writes and counts the coefficients of blocks and of macroblocks (RFC 6386, sections 13 and 19.3).

ghost use Rattle.std.specs.Prelude.{◌≡◌, ◌≤◌, ℕ, pos, List, Bool, All, length, slice_index_or, OnOk, IfOk};
ghost use Rattle.sal_macroblock.specs.Sizes.{Within};
ghost use Rattle.sal_bool.specs.Bits.{start};
ghost use Rattle.sal_bool.specs.Syntax.{read, Follows};
ghost use Rattle.sal_bool.specs.Written.{steps, written, AreFit};
ghost use Rattle.sal_tokens.specs.Coefficients.{block};
ghost use Rattle.sal_tokens.specs.Blocks.{tokens, places, macroblock};
ghost use Rattle.sal_tokens.specs.Written.{taken_all, block_pairs, block_branches, is_some_block, counted_all, macroblock_pairs, macroblock_branches, after_macroblock, AreWritable, AreSized, Leaves};

use crate::contexts::Contexts;
use crate::counts::Counts;
use crate::places::places;
use crate::sink::Sink;
use crate::walk::walk_block;
use sal_base::Memory;
use sal_bool::Encoder;
use sal_macroblock::{Block, Coefficients};
use sal_probs::Probs;

/// Writes a block of a kind in a context, as `read_block` reads it, and tells whether its first token isn't the end of the block.
/// Luma after Y2 has no first coefficient. It is read back with any bits before it and after it, and reading stands then where
/// writing stood.
pub fn write_block(
    encoder: &mut Encoder,
    probs: &Probs,
    kind: u8,
    context: u8,
    coefficients: &Block,
) -> Result<bool, Memory>
    requires kind { kind ≤ 3 }
    requires context { context ≤ 2 }
    requires small { All (Within 2114) coefficients.now.0 }
    requires first { kind ≡ 0 → slice_index_or coefficients.now.0 0 (pos 0) ≡ pos 0 }
    ensures pairs { OnOk result (encoder.new ≡ steps encoder.old (block_pairs probs.now.coefficients kind context coefficients.now.0)) }
    ensures starts { IfOk result (λ b. b ≡ is_some_block kind coefficients.now.0) }
    ensures few { OnOk result (length (block_pairs probs.now.coefficients kind context coefficients.now.0) ≤ 544) }
    ensures follows { OnOk result (Follows (block probs.now.coefficients kind context) (block_pairs probs.now.coefficients kind context coefficients.now.0) (coefficients.now.0, is_some_block kind coefficients.now.0)) }
    ensures read_back { OnOk result ((before more : List (ℕ × Bool)) → AreFit before → AreFit more → encoder.old ≡ steps start before → read (written (steps encoder.new more)) encoder.old (block probs.now.coefficients kind context) ≡ ((coefficients.now.0, is_some_block kind coefficients.now.0), encoder.new)) }
{
    let starts = walk_block(encoder, probs, kind, context, coefficients)?;
    Ok(starts)
}

/// Counts the bits that `write_block` puts at coefficient probabilities, and tells what it tells.
pub fn count_block(counts: &mut Counts, kind: u8, context: u8, coefficients: &Block) -> bool
    requires kind { kind ≤ 3 }
    requires context { context ≤ 2 }
    requires small { All (Within 2114) coefficients.now.0 }
    ensures counts { counts.new.pairs ≡ counted_all counts.old.pairs (block_branches kind context coefficients.now.0) }
    ensures starts { result ≡ is_some_block kind coefficients.now.0 }
{
    match walk_block(counts, &(), kind, context, coefficients) {
        Ok(starts) => starts,
        Err(never) => match never {},
    }
}

// The bits of the blocks of a macroblock that isn't skipped, and whether some block's first token isn't the end.
fn walk_macroblock<S: Sink>(
    sink: &mut S,
    table: &S::Table,
    has_y2: bool,
    above: &mut Contexts,
    left: &mut Contexts,
    coefficients: &Coefficients,
) -> Result<bool, S::Refusal>
    ensures bits { OnOk result (sink.new ≡ taken_all (S.after table.now) sink.old (macroblock_branches has_y2 above.old.0 left.old.0 coefficients.now)) }
    ensures after { IfOk result (λ b. Leaves (after_macroblock has_y2 above.old.0 left.old.0 coefficients.now) b above.new.0 left.new.0) }
    ensures sized { OnOk result (AreSized coefficients.now (places has_y2)) }
{
    let mut has_coefficients = false;
    for place in places(has_y2) {
        let context = above.bit(place.above) + left.bit(place.left);
        let block = coefficients.block(place.index as usize);
        let starts = walk_block(sink, table, place.kind, context, block)?;
        above.set(place.above, starts);
        left.set(place.left, starts);
        has_coefficients |= starts;
    }
    Ok(has_coefficients)
}

/// Writes the coefficients of a macroblock that isn't skipped, as `read_macroblock` reads them, and tells whether some block's first
/// token isn't the end. The contexts above and left are those of the neighbours before, and its own afterwards. It is read
/// back with any bits before it and after it, and reading stands then where writing stood.
pub fn write_macroblock(
    encoder: &mut Encoder,
    probs: &Probs,
    has_y2: bool,
    above: &mut Contexts,
    left: &mut Contexts,
    coefficients: &Coefficients,
) -> Result<bool, Memory>
    requires { AreWritable has_y2 coefficients.now }
    ensures pairs { OnOk result (encoder.new ≡ steps encoder.old (macroblock_pairs probs.now.coefficients has_y2 above.old.0 left.old.0 coefficients.now)) }
    ensures after { IfOk result (λ b. after_macroblock has_y2 above.old.0 left.old.0 coefficients.now ≡ tokens coefficients.now b above.new.0 left.new.0) }
    ensures few { OnOk result (length (macroblock_pairs probs.now.coefficients has_y2 above.old.0 left.old.0 coefficients.now) ≤ 13600) }
    ensures follows { OnOk result (Follows (macroblock probs.now.coefficients has_y2 above.old.0 left.old.0) (macroblock_pairs probs.now.coefficients has_y2 above.old.0 left.old.0 coefficients.now) (after_macroblock has_y2 above.old.0 left.old.0 coefficients.now)) }
    ensures read_back { IfOk result (λ b. (before more : List (ℕ × Bool)) → AreFit before → AreFit more → encoder.old ≡ steps start before → read (written (steps encoder.new more)) encoder.old (macroblock probs.now.coefficients has_y2 above.old.0 left.old.0) ≡ (tokens coefficients.now b above.new.0 left.new.0, encoder.new)) }
{
    let has_coefficients = walk_macroblock(encoder, probs, has_y2, above, left, coefficients)?;
    Ok(has_coefficients)
}

/// Counts the bits that `write_macroblock` puts at coefficient probabilities, tells what it tells, and leaves the same contexts.
pub fn count_macroblock(
    counts: &mut Counts,
    has_y2: bool,
    above: &mut Contexts,
    left: &mut Contexts,
    coefficients: &Coefficients,
) -> bool
    ensures counts { counts.new.pairs ≡ counted_all counts.old.pairs (macroblock_branches has_y2 above.old.0 left.old.0 coefficients.now) }
    ensures after { Leaves (after_macroblock has_y2 above.old.0 left.old.0 coefficients.now) result above.new.0 left.new.0 }
{
    match walk_macroblock(counts, &(), has_y2, above, left, coefficients) {
        Ok(has_coefficients) => has_coefficients,
        Err(never) => match never {},
    }
}
