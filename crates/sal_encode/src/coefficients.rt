//! The coefficients of a macroblock, written (RFC 6386, sections 13 and 19.3).

ghost use Rattle.std.specs.Prelude.{◌≡◌, true, OnOk, IfOk};
ghost use Rattle.sal_bool.specs.Written.{steps};
ghost use Rattle.sal_macroblock.specs.Macroblocks.{has_y2};
ghost use Rattle.sal_macroblock.specs.Blocks.{no_coefficients};
ghost use Rattle.sal_tokens.specs.Blocks.{tokens};
ghost use Rattle.sal_tokens.specs.Written.{pairs_of, AreWritable};
ghost use Rattle.sal_encode.specs.FrameBytes.{mb_branches, mb_tokens};

use sal_base::Memory;
use sal_bool::Encoder;
use sal_macroblock::{Coefficients, MbMode};
use sal_probs::Probs;
use sal_tokens::{Contexts, skip_macroblock, write_macroblock};

/// Writes the coefficients of a macroblock, of which a skipped one has none, and tells whether some block's first token isn't
/// the end.
pub(crate) fn write_coefficients(
    encoder: &mut Encoder,
    probs: &Probs,
    mode: &MbMode,
    above: &mut Contexts,
    left: &mut Contexts,
    coefficients: &Coefficients,
) -> Result<bool, Memory>
    requires writable { AreWritable (has_y2 mode.now.y) coefficients.now }
    requires skipped { mode.now.skip ≡ true → coefficients.now ≡ no_coefficients }
    ensures pairs { OnOk result (encoder.new ≡ steps encoder.old (pairs_of probs.now.coefficients (mb_branches mode.now coefficients.now above.old.0 left.old.0))) }
    ensures after { IfOk result (λ b. mb_tokens mode.now coefficients.now above.old.0 left.old.0 ≡ tokens coefficients.now b above.new.0 left.new.0) }
{
    if mode.skip {
        skip_macroblock(mode.has_y2(), above, left);
        return Ok(false);
    }
    write_macroblock(encoder, probs, mode.has_y2(), above, left, coefficients)
}
