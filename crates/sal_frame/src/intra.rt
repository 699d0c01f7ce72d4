//! Intra macroblocks: predicted from the samples around them, with their residues added (RFC 6386, sections 12 and 14.5).

ghost use Rattle.std.specs.Prelude.{◌≡◌, ◌≤◌, ◌⊎◌, false, IsTrue};
ghost use Rattle.sal_macroblock.specs.Macroblocks.{is_b};
ghost use Rattle.sal_base.specs.Kinds.{is_whole};
ghost use Rattle.sal_intra.specs.Intra.{whole_sample, luma_edge};
ghost use Rattle.sal_frame.specs.Built.{added};
ghost use Rattle.sal_frame.specs.Intra.{intra_luma, intra_chroma};
ghost use Rattle.sal_frame.specs.Residues.{luma_residues, residue_at};

use crate::macroblock::Macroblock;
use crate::residues::{finish_chroma, finish_luma};
use crate::subs::subs_built;
use sal_base::YMode;
use sal_intra::{ChromaEdge, LumaEdge, predict_chroma, predict_luma};
use sal_transform::Factors;

// The luma samples of a macroblock that one mode predicts as a whole.
fn whole_luma(edge: &LumaEdge, block: &Macroblock<'_>, factors: &Factors) -> [u8; 256]
    requires whole { IsTrue (is_whole block.now.mode.y) }
    ensures { result ≡ added 16 256 (whole_sample block.now.mode.y (luma_edge edge.now)) (residue_at 4 (luma_residues factors.now block.now)) }
{
    let mut samples = predict_luma(block.mode.y, edge);
    finish_luma(&mut samples, block, factors);
    samples
}

/// The luma samples of an intra macroblock.
pub(crate) fn intra_luma(edge: &LumaEdge, block: &Macroblock<'_>, factors: &Factors) -> [u8; 256]
    requires mode { IsTrue (is_b block.now.mode.y) ⊎ IsTrue (is_whole block.now.mode.y) }
    ensures { result ≡ intra_luma factors.now block.now edge.now }
{
    match block.mode.y {
        YMode::B => subs_built(edge, block, factors),
        _ => whole_luma(edge, block, factors),
    }
}

/// The samples of an intra macroblock in a chroma plane, whose blocks are those from the first on.
pub(crate) fn intra_chroma(
    edge: &ChromaEdge,
    block: &Macroblock<'_>,
    first: usize,
    factors: &Factors,
) -> [u8; 64]
    requires mode { IsTrue (is_whole block.now.mode.chroma) }
    requires first { first ≤ 20 }
    ensures { result ≡ intra_chroma factors.now block.now first edge.now }
{
    let mut samples = predict_chroma(block.mode.chroma, edge);
    finish_chroma(&mut samples, block, first, factors);
    samples
}
