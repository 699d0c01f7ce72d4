//! The range of an interval.
ghost use Rattle.std.specs.Prelude.{◌*◌, ◌^◌, ◌<◌, ◌≤◌};

/// How often a range has to be doubled to be at least 128.
#[inline]
pub(crate) fn missing_doublings(range: u32) -> u32
    requires positive { 0 < range }
    requires high { range ≤ 255 }
    ensures few { result ≤ 7 }
    ensures full { 128 ≤ range * 2 ^ result }
    ensures small { range * 2 ^ result < 256 }
{
    (range as u8).leading_zeros()
}
