//! The modes of an intra macroblock.

ghost use Rattle.std.specs.Prelude.{◌≡◌, All, IfSome, is_some};
ghost use Rattle.sal_macroblock.specs.Sizes.{Within};
ghost use Rattle.sal_macroblock.specs.Macroblocks.{implied, outside, is_b};
ghost use Rattle.sal_search.specs.Costs.{candidate};
ghost use Rattle.sal_search.specs.Subblocks.{subblocks};
ghost use Rattle.sal_search.specs.Search.{whole, in_parts, plain_factors, best_intra_of};

use crate::source::{Found, MbSource};
use crate::subblocks::{Subblocks, subblocks_below};
use crate::whole::best_whole;
use sal_base::{SubMode, YMode};
use sal_intra::LumaEdge;
use sal_macroblock::MbMode;
use sal_transform::Factors;

// The subblock mode that a macroblock counts as.
fn implied(mode: YMode) -> SubMode
    ensures { result ≡ implied mode }
{
    match mode {
        YMode::V => SubMode::BVE,
        YMode::H => SubMode::BHE,
        YMode::TM => SubMode::BTM,
        _ => SubMode::BDC,
    }
}

// A macroblock in a mode that takes it as a whole.
#[tactic(auto, unfolding(sal_macroblock::specs::Macroblocks::outside))]
fn whole(mode: YMode) -> MbMode
    ensures { result ≡ whole mode }
{
    MbMode {
        y: mode,
        sub: [implied(mode); 16],
        ..MbMode::outside()
    }
}

// A macroblock in mode B.
fn in_parts(subblocks: &Subblocks) -> MbMode
    ensures { result ≡ in_parts subblocks.now }
{
    MbMode {
        y: YMode::B,
        sub: subblocks.modes,
        ..MbMode::outside()
    }
}

/// The modes of an intra macroblock, and in mode B its subblocks.
#[derive(Clone, Copy, Debug, PartialEq, Eq)]
pub struct IntraChoice {
    pub found: Found,
    pub subblocks: Option<Subblocks>,
}

/// The first of least cost of a key frame's candidates, at a quantiser's index q: DC, V, H and TM cost the sum of their luma differences; B
/// costs that of its subblocks, 64 and `4 * q`. The subblocks come with it where it is B. A candidate is given up as soon as it can't be
/// the first of least cost.
pub fn choose_intra(source: &MbSource, edge: &LumaEdge, q: u8) -> IntraChoice
    ensures found { candidate result.found.mode result.found.cost ≡ best_intra_of source.now edge.now q }
    ensures subblocks { IfSome result.subblocks (λ s. s ≡ subblocks source.now.y edge.now (plain_factors q) 16) }
    ensures few { IfSome result.subblocks (λ s. All (λ zs. All (Within 2047) zs) s.coefficients) }
    ensures told { is_some result.subblocks ≡ is_b result.found.mode.y }
{
    let best = best_whole(source, edge);
    let extra = 64 + 4 * u32::from(q);
    let factors = Factors::new(q, 0, 0, 0, 0, 0);
    let limit = best.cost.saturating_sub(extra);
    match subblocks_below(&source.y, edge, &factors, limit) {
        Some(subblocks) => {
            let mode = in_parts(&subblocks);
            let cost = subblocks.cost + extra;
            IntraChoice {
                found: Found { mode, cost },
                subblocks: Some(subblocks),
            }
        }
        None => {
            let mode = whole(best.mode);
            let cost = best.cost;
            IntraChoice {
                found: Found { mode, cost },
                subblocks: None,
            }
        }
    }
}

/// The modes of a key frame's macroblock alone, as `choose_intra` chooses them. Its segment is 0, it isn't skipped, and its chroma mode is
/// DC: these are the encoder's to set.
pub fn best_intra(source: &MbSource, edge: &LumaEdge, q: u8) -> Found
    ensures { candidate result.mode result.cost ≡ best_intra_of source.now edge.now q }
{
    choose_intra(source, edge, q).found
}
