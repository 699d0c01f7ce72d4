//! The token partition, written macroblock by macroblock (RFC 6386, sections 9.5 and 13).

ghost use Rattle.std.specs.Prelude.{◌≡◌, ◌<◌, ◌+◌, ◌%◌, ℕ, List, [], ◌∷◌, true, IfOk, OnOk, length, replicate, if◌then◌else◌, ◌==◌};
ghost use Rattle.sal_bool.specs.Bits.{start};
ghost use Rattle.sal_bool.specs.Written.{steps, written};
ghost use Rattle.sal_tokens.specs.Blocks.{no_contexts};
ghost use Rattle.sal_tokens.specs.Written.{pairs_of};
ghost use Rattle.sal_frame.specs.Records.{Macroblock, macroblock};
ghost use Rattle.sal_encode.specs.FrameBytes.{tokens_branches};
ghost use Rattle.sal_encode.specs.Plans.{planned, AreLevels};
ghost use Rattle.sal_encode.specs.Standing.{with_tokens};

use crate::coefficients::write_coefficients;
use sal_base::{Bytes, Memory};
use sal_bool::Encoder;
use sal_macroblock::{Coefficients, MbMode};
use sal_probs::Probs;
use sal_tokens::Contexts;
use std::alloc::Global;

/// An encoder of the token partition, and what the macroblocks so far leave for those below and to the right of them.
#[derive(Drop)]
pub(crate) struct Tokens {
    encoder: Encoder,
    above: Vec<Contexts>,
    left: Contexts,
}

// What stands left of a column: nothing of the picture where it is the first.
fn left_of(column: usize, left: Contexts) -> Contexts
    ensures { result.0 ≡ (if column == 0 then no_contexts else left.0) }
{
    if column == 0 { Contexts::none() } else { left }
}

impl Tokens {
    /// Before the first macroblock of a picture of so many columns.
    pub(crate) fn begin(alloc: Global, columns: usize) -> Result<Tokens, Memory>
        ensures columns { IfOk result (λ t. length t.above.items ≡ columns) }
        ensures all { IfOk result (λ t. (probabilities : List ℕ) (bs : List Macroblock) → with_tokens probabilities columns 0 t.encoder t.above.items t.left bs ≡ steps start (pairs_of probabilities (tokens_branches columns 0 (replicate columns no_contexts) no_contexts bs))) }
    {
        let above = vec![in alloc; Contexts::none(); columns]?;
        Ok(Tokens {
            encoder: Encoder::new(alloc),
            above,
            left: Contexts::none(),
        })
    }

    /// Writes the coefficients of the macroblock at a column, and tells whether some block's first token isn't the end.
    pub(crate) fn write(
        &mut self,
        probs: &Probs,
        mode: &MbMode,
        coefficients: &Coefficients,
        column: usize,
    ) -> Result<bool, Memory>
        requires column { column < length self.old.above.items }
        requires levels { AreLevels mode.now coefficients.now }
        ensures planned { IfOk result (λ b. macroblock mode.now coefficients.now b ≡ planned mode.now coefficients.now) }
        ensures columns { OnOk result (length self.new.above.items ≡ length self.old.above.items) }
        ensures more { OnOk result ((columns k : ℕ) (bs : List Macroblock) → k % columns ≡ column → with_tokens probs.now.coefficients columns (k + 1) self.new.encoder self.new.above.items self.new.left bs ≡ with_tokens probs.now.coefficients columns k self.old.encoder self.old.above.items self.old.left (planned mode.now coefficients.now ∷ bs)) }
    {
        self.left = left_of(column, self.left);
        write_coefficients(
            &mut self.encoder,
            probs,
            mode,
            &mut self.above[column],
            &mut self.left,
            coefficients,
        )
    }

    /// The bytes of the partition, where no macroblock is left.
    pub(crate) fn finish(self) -> Result<Bytes, Memory>
        ensures { IfOk result (λ b. (probabilities : List ℕ) (columns k : ℕ) → b ≡ written (with_tokens probabilities columns k self.encoder self.above.items self.left [])) }
    {
        self.encoder.finish()
    }
}
