//! The coefficients of a macroblock (RFC 6386, sections 13 and 19.3).

ghost use Rattle.std.specs.Prelude.{◌≡◌, ℕ, List, false};
ghost use Rattle.sal_bool.specs.Bits.{Interval};
ghost use Rattle.sal_bool.specs.Reading.{StandsFor};
ghost use Rattle.sal_macroblock.specs.Blocks.{no_coefficients};
ghost use Rattle.sal_tokens.specs.Blocks.{tokens};
ghost use Rattle.sal_decode.specs.TokenPartitions.{tokens_in};

use sal_bool::Decoder;
use sal_macroblock::{Coefficients, MbMode};
use sal_probs::Probs;
use sal_tokens::{Contexts, read_macroblock, skip_macroblock};

/// The coefficients of a macroblock, and whether some block's first token isn't the end; a skipped one has none.
pub(crate) fn read_coefficients(
    decoder: &mut Decoder<'_>,
    probs: &Probs,
    mode: &MbMode,
    above: &mut Contexts,
    left: &mut Contexts,
    coefficients: &mut Coefficients,
) -> bool
    ensures exact { (bytes : List ℕ) (i : Interval) → StandsFor bytes i decoder.old → (tokens coefficients.new result above.new.0 left.new.0 ≡ (tokens_in bytes i probs.now.coefficients mode.now above.old.0 left.old.0).0) × StandsFor bytes (tokens_in bytes i probs.now.coefficients mode.now above.old.0 left.old.0).1 decoder.new }
    ensures none { result ≡ false → coefficients.new ≡ no_coefficients }
{
    if mode.skip {
        skip_macroblock(mode.has_y2(), above, left);
        coefficients.clear();
        return false;
    }
    read_macroblock(decoder, probs, mode.has_y2(), above, left, coefficients)
}
