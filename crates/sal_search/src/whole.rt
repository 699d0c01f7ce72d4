//! The modes that take a block as a whole.

ghost use Rattle.std.specs.Prelude.{◌≡◌, ◌≤◌, IsTrue};
ghost use Rattle.sal_base.specs.Kinds.{is_whole};
ghost use Rattle.sal_search.specs.Costs.{candidate, better};
ghost use Rattle.sal_search.specs.Search.{whole_candidate, best_whole, chroma_candidate, best_chroma_of};

use crate::sad::{sad_64, sad_256, sad_below};
use crate::source::MbSource;
use sal_base::YMode;
use sal_intra::{ChromaEdge, LumaEdge, predict_chroma, predict_luma};

/// A mode and its sum of differences.
#[derive(Clone, Copy)]
pub(crate) struct WholeMode {
    pub(crate) mode: YMode,
    pub(crate) cost: u32,
}

// The best luma mode so far, or another one where it costs less.
fn better(best: WholeMode, mode: YMode, source: &MbSource, edge: &LumaEdge) -> WholeMode
    requires best { IsTrue (is_whole best.mode) }
    requires whole { IsTrue (is_whole mode) }
    requires small { best.cost ≤ 65280 }
    ensures candidate { candidate result.mode result.cost ≡ better (candidate best.mode best.cost) (whole_candidate source.now edge.now mode) }
    ensures whole { IsTrue (is_whole result.mode) }
    ensures small { result.cost ≤ 65280 }
{
    match sad_below(&source.y, &predict_luma(mode, edge), best.cost) {
        Some(cost) => WholeMode { mode, cost },
        None => best,
    }
}

/// The first luma mode of least cost.
pub(crate) fn best_whole(source: &MbSource, edge: &LumaEdge) -> WholeMode
    ensures candidate { candidate result.mode result.cost ≡ best_whole source.now edge.now }
    ensures whole { IsTrue (is_whole result.mode) }
    ensures small { result.cost ≤ 65280 }
{
    let cost = sad_256(&source.y, &predict_luma(YMode::DC, edge));
    let mode = YMode::DC;
    let best = better(WholeMode { mode, cost }, YMode::V, source, edge);
    let best = better(best, YMode::H, source, edge);
    better(best, YMode::TM, source, edge)
}

// A chroma mode with the differences of both planes.
fn chroma(mode: YMode, source: &MbSource, u: &ChromaEdge, v: &ChromaEdge) -> WholeMode
    requires whole { IsTrue (is_whole mode) }
    ensures candidate { candidate result.mode result.cost ≡ chroma_candidate source.now u.now v.now mode }
{
    let of_u = sad_64(&source.u, &predict_chroma(mode, u));
    let of_v = sad_64(&source.v, &predict_chroma(mode, v));
    WholeMode {
        mode,
        cost: of_u + of_v,
    }
}

// The first of two that costs less.
fn lesser(best: WholeMode, other: WholeMode) -> WholeMode
    ensures { candidate result.mode result.cost ≡ better (candidate best.mode best.cost) (candidate other.mode other.cost) }
{
    if other.cost < best.cost { other } else { best }
}

/// The chroma mode of a macroblock: the first of DC, V, H and TM of the least sum of differences over both planes.
pub fn best_chroma(source: &MbSource, u: &ChromaEdge, v: &ChromaEdge) -> YMode
    ensures { result ≡ (best_chroma_of source.now u.now v.now).choice }
{
    let best = chroma(YMode::DC, source, u, v);
    let best = lesser(best, chroma(YMode::V, source, u, v));
    let best = lesser(best, chroma(YMode::H, source, u, v));
    lesser(best, chroma(YMode::TM, source, u, v)).mode
}
