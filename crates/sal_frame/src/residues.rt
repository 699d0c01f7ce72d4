//! Predictions with the residues of their macroblock (RFC 6386, section 14.5).

ghost use Rattle.std.specs.Prelude.{◌≡◌, ◌≤◌, ℕ, false};
ghost use Rattle.sal_base.specs.Samples.{IsBlockOf};
ghost use Rattle.sal_frame.specs.Built.{added};
ghost use Rattle.sal_frame.specs.Residues.{luma_residues, chroma_residues, residue_at};

use crate::adding::{add_chroma, add_luma};
use crate::macroblock::Macroblock;
use crate::square::are_bytes;
use sal_transform::{Factors, chroma_residues, luma_residues};

/// Adds the residues of a macroblock to the prediction of its luma samples. Without coefficients there is nothing to add.
pub(crate) fn finish_luma(samples: &mut [u8; 256], block: &Macroblock<'_>, factors: &Factors)
    ensures { (f : ℕ → ℕ → ℕ) → IsBlockOf 16 256 samples.old f → samples.new ≡ added 16 256 f (residue_at 4 (luma_residues factors.now block.now)) }
{
    if !block.has_coefficients {
        are_bytes(samples);
        return;
    }
    add_luma(
        samples,
        &luma_residues(block.mode.has_y2(), block.coefficients, factors),
    );
}

/// The same in a chroma plane, whose blocks are those from the first on.
pub(crate) fn finish_chroma(
    samples: &mut [u8; 64],
    block: &Macroblock<'_>,
    first: usize,
    factors: &Factors,
)
    requires first { first ≤ 20 }
    ensures { (f : ℕ → ℕ → ℕ) → IsBlockOf 8 64 samples.old f → samples.new ≡ added 8 64 f (residue_at 2 (chroma_residues factors.now block.now first)) }
{
    if !block.has_coefficients {
        are_bytes(samples);
        return;
    }
    add_chroma(
        samples,
        &chroma_residues(block.coefficients, first, factors),
    );
}
