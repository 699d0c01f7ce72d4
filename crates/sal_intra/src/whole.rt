//! Whole blocks: DC, V, H and TM (RFC 6386, sections 12.2 and 12.3).

ghost use Rattle.std.specs.Prelude.{◌≡◌, ◌+◌, ◌*◌, ◌≤◌, IsTrue, length, sum, take, slice_index};
ghost use Rattle.sal_base.specs.Samples.{IsBlockOf};
ghost use Rattle.sal_base.specs.Kinds.{is_whole};
ghost use Rattle.sal_intra.specs.Intra.{true_motion, average, edge_average, by_mode, dc_of, whole_sample, luma_edge, chroma_edge};

use crate::edge::{ChromaEdge, LumaEdge};
use sal_base::YMode;

/// The sum of a row or column of at most sixteen samples.
pub(crate) fn total(samples: &[u8]) -> u32
    requires { length samples.now ≤ 16 }
    ensures value { result ≡ sum samples.now }
    ensures small { result ≤ 255 * length samples.now }
{
    let mut total: u32 = 0;
    for sample in samples {
        total += *sample as u32;
    }
    total
}

// An average of samples, rounded half up.
fn average(total: u32, count: u32) -> u8
    requires few { (1 ≤ count) × (count ≤ 32) }
    requires total { total ≤ 255 * count }
    ensures { result ≡ average total count }
{
    ((total + count / 2) / count) as u8
}

// The average of the edges in the picture, of squares of 16.
fn luma_average(edge: &LumaEdge) -> u8
    ensures { result ≡ dc_of (luma_edge edge.now) }
{
    match (edge.has_above, edge.has_left) {
        (true, true) => average(total(&edge.above[..16]) + total(&edge.left), 32),
        (true, false) => average(total(&edge.above[..16]), 16),
        (false, true) => average(total(&edge.left), 16),
        (false, false) => 128,
    }
}

// The average of the edges in the picture, of squares of 8.
fn chroma_average(edge: &ChromaEdge) -> u8
    ensures { result ≡ dc_of (chroma_edge edge.now) }
{
    match (edge.has_above, edge.has_left) {
        (true, true) => average(total(&edge.above) + total(&edge.left), 16),
        (true, false) => average(total(&edge.above), 8),
        (false, true) => average(total(&edge.left), 8),
        (false, false) => 128,
    }
}

/// `left + above - corner`, cut off at 0 and at 255.
pub(crate) fn true_motion(left: u8, above: u8, corner: u8) -> u8
    ensures { result ≡ true_motion left above corner }
{
    (left as u16 + above as u16)
        .saturating_sub(corner as u16)
        .min(255) as u8
}

// A sample by its mode.
fn by_mode(mode: YMode, dc: u8, above: u8, left: u8, corner: u8) -> u8
    ensures { result ≡ by_mode mode dc above left corner }
{
    match mode {
        YMode::V => above,
        YMode::H => left,
        YMode::TM => true_motion(left, above, corner),
        _ => dc,
    }
}

// A square of 16 by its mode.
fn square(mode: YMode, dc: u8, above: &[u8], left: &[u8; 16], corner: u8) -> [u8; 256]
    requires above { length above.now ≡ 16 }
    ensures { IsBlockOf 16 256 result (λ row column. by_mode mode dc (slice_index above.now column) (slice_index left.now row) corner) }
{
    let mut out = [0u8; 256];
    for (k, sample) in out.iter_mut().enumerate() {
        *sample = by_mode(mode, dc, above[k % 16], left[k / 16], corner);
    }
    out
}

/// The luma samples of a macroblock, row by row, by one of the first four modes.
pub fn predict_luma(mode: YMode, edge: &LumaEdge) -> [u8; 256]
    requires whole { IsTrue (is_whole mode) }
    ensures { IsBlockOf 16 256 result (whole_sample mode (luma_edge edge.now)) }
{
    let dc = luma_average(edge);
    square(mode, dc, &edge.above[..16], &edge.left, edge.corner)
}

/// The samples of a macroblock in a chroma plane, row by row, by one of the first four modes.
pub fn predict_chroma(mode: YMode, edge: &ChromaEdge) -> [u8; 64]
    requires whole { IsTrue (is_whole mode) }
    ensures { IsBlockOf 8 64 result (whole_sample mode (chroma_edge edge.now)) }
{
    let dc = chroma_average(edge);
    let mut out = [0u8; 64];
    for (k, sample) in out.iter_mut().enumerate() {
        *sample = by_mode(mode, dc, edge.above[k % 8], edge.left[k / 8], edge.corner);
    }
    out
}
