//! The segments of macroblocks (RFC 6386, sections 9.3 and 10).

ghost use Rattle.std.specs.Prelude.{◌≡◌, ◌<◌, ◌≤◌, ℕ, All, slice_index};
ghost use Rattle.sal_base.specs.Samples.{listed};
ghost use Rattle.sal_transform.specs.Factors.{Factors as FactorsData};
ghost use Rattle.sal_macroblock.specs.Macroblocks.{HasFittingModes};
ghost use Rattle.sal_decode.specs.FirstPartition.{segment_of};

use sal_header::Header;
use sal_macroblock::MbMode;
use sal_transform::Factors;

/// Macroblock k in its segment: the one that it names where the frame updates the map, else the one that the map has.
pub(crate) fn in_segment(header: &Header, map: &[u8], k: usize, mode: &MbMode) -> MbMode
    requires map { All (λ segment. segment < 4) map.now }
    requires fitting { HasFittingModes mode.now }
    ensures value { result ≡ record mode.now { segment = segment_of header.now map.now k mode.now } }
    ensures fitting { HasFittingModes result }
{
    MbMode {
        segment: segment_of(header, map, k, mode),
        ..*mode
    }
}

fn segment_of(header: &Header, map: &[u8], k: usize, mode: &MbMode) -> u8
    requires map { All (λ segment. segment < 4) map.now }
    requires named { mode.now.segment ≤ 3 }
    ensures value { result ≡ segment_of header.now map.now k mode.now }
    ensures small { result ≤ 3 }
{
    if header.update_map {
        return mode.segment;
    }
    if header.segmentation && !header.key {
        return kept_segment(map, k);
    }
    0
}

// What the map has at a place, 0 past its end.
fn kept_segment(map: &[u8], k: usize) -> u8
    requires { All (λ segment. segment < 4) map.now }
    ensures value { result ≡ slice_index map.now k }
    ensures small { result ≤ 3 }
{
    if k < map.len() { map[k] } else { 0 }
}

/// The factors of a segment, out of those of all four.
pub(crate) fn factors_in(factors: &[Factors; 4], segment: u8) -> &Factors
    requires { segment < 4 }
    ensures { (f : ℕ → FactorsData) → factors.now ≡ listed 4 f → result.now ≡ f segment }
{
    &factors[segment as usize]
}
