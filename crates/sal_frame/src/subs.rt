//! Macroblocks in mode B: sixteen subblocks, each predicted from those before it (RFC 6386, section 12.3).

ghost use Rattle.std.specs.Prelude.{◌≡◌, ◌<◌, ◌≤◌, ◌+◌, ◌*◌, ◌/◌, ◌%◌, [], ◌∷◌};
ghost use Rattle.sal_intra.specs.Edges.{sub_edge_of};
ghost use Rattle.sal_intra.specs.Sub.{sub_sample};
ghost use Rattle.sal_frame.specs.Built.{added, subs_built};
ghost use Rattle.sal_frame.specs.Residues.{luma_residues, residue_at};

use crate::adding::add_sub;
use crate::macroblock::Macroblock;
use crate::square::put_rows;
use sal_base::SubMode;
use sal_intra::{LumaEdge, predict_sub, sub_edge};
use sal_macroblock::MbMode;
use sal_transform::{Factors, luma_residues};

// The samples of subblock n.
fn sub_samples(
    edge: &LumaEdge,
    built: &[u8; 256],
    mode: SubMode,
    residue: &[i32; 16],
    n: usize,
) -> [u8; 16]
    requires { n < 16 }
    ensures { result ≡ added 4 16 (sub_sample mode (sub_edge_of edge.now built.now (4 * (n % 4)) (4 * (n / 4)))) (residue_at 1 (residue.now ∷ [])) }
{
    let around = sub_edge(edge, built, 4 * (n % 4), 4 * (n / 4));
    let mut samples = predict_sub(mode, &around);
    add_sub(&mut samples, residue);
    samples
}

// The luma samples of a macroblock in mode B, by its modes and residues.
fn subs_from(edge: &LumaEdge, mode: &MbMode, residues: &[[i32; 16]; 16]) -> [u8; 256]
    ensures { result ≡ subs_built edge.now mode.now residues.now 16 }
{
    let mut samples = [0; 256];
    for n in 0..16usize {
        let sub = sub_samples(edge, &samples, mode.sub[n], &residues[n], n);
        put_rows(&mut samples, 16, 4 * (n % 4), 4 * (n / 4), 4, &sub);
    }
    samples
}

/// The luma samples of a macroblock in mode B.
pub(crate) fn subs_built(edge: &LumaEdge, block: &Macroblock<'_>, factors: &Factors) -> [u8; 256]
    ensures { result ≡ subs_built edge.now block.now.mode (luma_residues factors.now block.now) 16 }
{
    let residues = luma_residues(block.mode.has_y2(), block.coefficients, factors);
    subs_from(edge, block.mode, &residues)
}
