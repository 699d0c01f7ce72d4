//! The token partitions, each read from where its last row ended (RFC 6386, sections 9.5 and 13).

ghost use Rattle.std.specs.Prelude.{◌≡◌, ◌<◌, ◌≤◌, ◌/◌, ◌%◌, ℕ, List, IfOk, false, length, take, if◌then◌else◌, ◌==◌};
ghost use Rattle.sal_header.specs.Tags.{AreInside};
ghost use Rattle.sal_macroblock.specs.Blocks.{no_coefficients};
ghost use Rattle.sal_tokens.specs.Blocks.{no_contexts};
ghost use Rattle.sal_decode.specs.TokenPartitions.{Progress, begun, tokens_of};
ghost use Rattle.sal_decode.specs.Standing.{AreOpened, Holds, HasRead};

use crate::coefficients::read_coefficients;
use sal_base::Memory;
use sal_bool::Decoder;
use sal_header::Parts;
use sal_macroblock::{Coefficients, MbMode};
use sal_probs::Probs;
use sal_tokens::Contexts;
use std::alloc::Global;

/// Decoders of the token partitions, and what the macroblocks so far leave for those below and to the right of them.
#[derive(Drop)]
pub(crate) struct Tokens<'a> {
    decoders: Vec<Decoder<'a>>,
    above: Vec<Contexts>,
    left: Contexts,
}

// Decoders at the first bits of the partitions.
fn open<'a>(alloc: Global, bytes: &'a [u8], parts: &Parts) -> Result<Vec<Decoder<'a>>, Memory>
    requires count { parts.now.count ≤ 8 }
    requires inside { AreInside (length bytes.now) parts.now.at parts.now.count }
    ensures opened { IfOk result (λ ds. AreOpened bytes.now (take parts.now.count parts.now.at) ds.items) }
    ensures count { IfOk result (λ ds. length ds.items ≡ parts.now.count) }
{
    let mut decoders = Vec::new(alloc);
    decoders.reserve(parts.count as usize)?;
    for k in 0..parts.count as usize {
        let (place, size) = parts.at[k];
        decoders.push(Decoder::new(&bytes[place..place + size]))?;
    }
    Ok(decoders)
}

// What stands left of a column: nothing of the picture where it is the first.
fn left_of(column: usize, left: Contexts) -> Contexts
    ensures { result.0 ≡ (if column == 0 then no_contexts else left.0) }
{
    if column == 0 { Contexts::none() } else { left }
}

impl<'a> Tokens<'a> {
    /// Before the first macroblock of a picture of so many columns.
    pub(crate) fn begin(
        alloc: Global,
        bytes: &'a [u8],
        parts: &Parts,
        columns: usize,
    ) -> Result<Tokens<'a>, Memory>
        requires count { parts.now.count ≤ 8 }
        requires inside { AreInside (length bytes.now) parts.now.at parts.now.count }
        ensures count { IfOk result (λ t. length t.decoders.items ≡ parts.now.count) }
        ensures holds { IfOk result (λ t. Holds bytes.now (take parts.now.count parts.now.at) columns (begun (length (take parts.now.count parts.now.at)) columns) t.decoders.items t.above.items t.left) }
    {
        let decoders = open(alloc, bytes, parts)?;
        let above = vec![in alloc; Contexts::none(); columns]?;
        Ok(Tokens {
            decoders,
            above,
            left: Contexts::none(),
        })
    }

    /// The coefficients of the macroblock at a column and row, and whether some block's first token isn't the end.
    pub(crate) fn read(
        &mut self,
        probs: &Probs,
        mode: &MbMode,
        coefficients: &mut Coefficients,
        column: usize,
        row: usize,
    ) -> bool
        requires some { 1 ≤ length self.old.decoders.items }
        requires column { column < length self.old.above.items }
        ensures reads { (bytes : List ℕ) (parts : List (ℕ × ℕ)) (columns k : ℕ) (r : Progress) → k % columns ≡ column → k / columns ≡ row → Holds bytes parts columns r self.old.decoders.items self.old.above.items self.old.left → HasRead bytes parts columns k r (tokens_of bytes parts probs.now.coefficients columns k mode.now r) coefficients.new result self.new.decoders.items self.new.above.items self.new.left }
        ensures none { result ≡ false → coefficients.new ≡ no_coefficients }
    {
        self.left = left_of(column, self.left);
        let part = row % self.decoders.as_slice().len();
        read_coefficients(
            &mut self.decoders[part],
            probs,
            mode,
            &mut self.above[column],
            &mut self.left,
            coefficients,
        )
    }
}
