//! Reads the coefficients of a block (RFC 6386, sections 13 and 19.3).

ghost use Rattle.std.specs.Prelude.{◌≡◌, ◌<◌, ◌≤◌, ◌≤ℤ◌, ◌==◌, pos, neg_ℤ, ℕ, List, All, not, false, length};
ghost use Rattle.sal_bool.specs.Bits.{Interval};
ghost use Rattle.sal_bool.specs.Reading.{StandsFor};
ghost use Rattle.sal_bool.specs.Syntax.{run, read, flag, signed, when};
ghost use Rattle.sal_macroblock.specs.Sizes.{Within};
ghost use Rattle.sal_tokens.specs.Coefficients.{token_row, token_size, block, first_position, start_of};

use sal_bool::Decoder;
use sal_macroblock::Block;
use sal_probs::Probs;
use sal_tables::{bands, category_bases, category_bits, token_tree};

/// The coefficients of a block of a kind in a context, and whether its first token isn't the end of the block.
///
/// Kinds are 0 luma after Y2, 1 Y2, 2 chroma, 3 luma with its first coefficient; the context is how many of the blocks above and left
/// have a first token other than the end (13.3). Past the end of the bytes there are zeros, so that no bits are missing.
pub fn read_block(decoder: &mut Decoder<'_>, probs: &Probs, kind: u8, context: u8) -> (Block, bool)
    requires kind { kind ≤ 3 }
    requires context { context ≤ 2 }
    ensures reads { run (block probs.now.coefficients kind context) decoder.old ≡ ((result.0.0, result.1), decoder.new) }
    ensures exact { (bytes : List ℕ) (i : Interval) → StandsFor bytes i decoder.old → ((result.0.0, result.1) ≡ (read bytes i (block probs.now.coefficients kind context)).0) × StandsFor bytes (read bytes i (block probs.now.coefficients kind context)).1 decoder.new }
    ensures small { All (Within 2114) result.0.0 }
{
    let first = first_position(kind as usize);
    let probabilities = probs.coefficients();
    let mut coefficients = [0i32; 16];
    let mut context = context as usize;
    let mut after_zero = false;
    'coefficients: for position in first..16usize {
        let row = token_row(probabilities, kind as usize, position, context);
        let start = start_of(after_zero);
        let token = decoder.tree_from(token_tree(), row, start);
        if token == 0 {
            return (Block(coefficients), first < position);
        }
        let size = read_size(decoder, token);
        let negative = read_sign(decoder, size);
        coefficients[position] = signed(size, negative);
        context = size.min(2) as usize;
        after_zero = size == 0;
    }
    (Block(coefficients), true)
}

// The eleven probabilities of a token.
#[tactic(auto, using(sal_tables::proofs::Ranges::at_most), unfolding(crate::specs::Coefficients::token_row))]
fn token_row(probabilities: &[u8], kind: usize, position: usize, context: usize) -> &[u8]
    requires long { length probabilities.now ≡ 1056 }
    requires kind { kind ≤ 3 }
    requires position { position < 16 }
    requires context { context ≤ 2 }
    ensures row { result.now ≡ token_row probabilities.now kind position context }
    ensures long { length result.now ≡ 11 }
{
    let band = bands()[position] as usize;
    let at = ((kind * 8 + band) * 3 + context) * 11;
    &probabilities[at..at + 11]
}

// The size that a token other than the end stands for, with its extra bits.
fn read_size(decoder: &mut Decoder<'_>, token: u8) -> u32
    requires { (1 ≤ token) × (token < 12) }
    ensures reads { run (token_size token) decoder.old ≡ (result, decoder.new) }
    ensures small { result ≤ 2114 }
{
    if token < 6 {
        return token as u32 - 1;
    }
    let category = token as usize - 6;
    let extra = decoder.number(category_bits(category));
    category_bases()[category] as u32 + extra
}

// A coefficient other than 0 has a sign.
fn read_sign(decoder: &mut Decoder<'_>, size: u32) -> bool
    ensures reads { run (when (not (size == 0)) flag false) decoder.old ≡ (result, decoder.new) }
{
    if size == 0 { false } else { decoder.bit(128) }
}

fn signed(size: u32, negative: bool) -> i32
    requires { size ≤ 2114 }
    ensures value { result ≡ signed size negative }
    ensures small { Within 2114 result }
{
    if negative {
        -(size as i32)
    } else {
        size as i32
    }
}

fn start_of(after_zero: bool) -> usize
    ensures { result ≡ start_of after_zero }
{
    if after_zero { 2 } else { 0 }
}

pub(crate) fn first_position(kind: usize) -> usize
    ensures { result ≡ first_position kind }
{
    if kind == 0 { 1 } else { 0 }
}
