//! Reads the coefficients of all blocks of a macroblock (RFC 6386, sections 13 and 19.3).

ghost use Rattle.std.specs.Prelude.{◌≡◌, ℕ, List, false};
ghost use Rattle.sal_macroblock.specs.Blocks.{no_coefficients};
ghost use Rattle.sal_bool.specs.Bits.{Interval};
ghost use Rattle.sal_bool.specs.Reading.{StandsFor};
ghost use Rattle.sal_bool.specs.Syntax.{run, read};
ghost use Rattle.sal_tokens.specs.Blocks.{Tokens, tokens, macroblock, cleared};

use crate::contexts::Contexts;
use crate::places::places;
use crate::read::read_block;
use sal_bool::Decoder;
use sal_macroblock::Coefficients;
use sal_probs::Probs;

/// Reads the coefficients of a macroblock that isn't skipped, and tells whether some block's first token isn't the end.
///
/// The contexts above and left are those of the neighbours before, and its own afterwards. Blocks that it doesn't have are
/// without coefficients. Past the end of the bytes there are zeros, so that no bits are missing.
pub fn read_macroblock(
    decoder: &mut Decoder<'_>,
    probs: &Probs,
    has_y2: bool,
    above: &mut Contexts,
    left: &mut Contexts,
    coefficients: &mut Coefficients,
) -> bool
    ensures reads { run (macroblock probs.now.coefficients has_y2 above.old.0 left.old.0) decoder.old ≡ (tokens coefficients.new result above.new.0 left.new.0, decoder.new) }
    ensures exact { (bytes : List ℕ) (i : Interval) → StandsFor bytes i decoder.old → (tokens coefficients.new result above.new.0 left.new.0 ≡ (read bytes i (macroblock probs.now.coefficients has_y2 above.old.0 left.old.0)).0) × StandsFor bytes (read bytes i (macroblock probs.now.coefficients has_y2 above.old.0 left.old.0)).1 decoder.new }
    ensures none { result ≡ false → coefficients.new ≡ no_coefficients }
{
    coefficients.clear();
    let mut has_coefficients = false;
    for place in places(has_y2) {
        let context = above.bit(place.above) + left.bit(place.left);
        let (block, starts) = read_block(decoder, probs, place.kind, context);
        coefficients.put(place.index as usize, block);
        above.set(place.above, starts);
        left.set(place.left, starts);
        has_coefficients |= starts;
    }
    has_coefficients
}

/// What a skipped macroblock leaves of the contexts: all are cleared, those of Y2 only where it has Y2.
pub fn skip_macroblock(has_y2: bool, above: &mut Contexts, left: &mut Contexts)
    ensures above { above.new.0 ≡ cleared has_y2 above.old.0 }
    ensures left { left.new.0 ≡ cleared has_y2 left.old.0 }
{
    above.clear(has_y2);
    left.clear(has_y2);
}
