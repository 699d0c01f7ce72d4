//! Taps of the interpolation filters (RFC 6386, section 18.3).

ghost use Rattle.std.specs.Prelude.{◌≡◌};
ghost use Rattle.sal_tables.specs.Tables.{six_taps_of};

#[rattlefmt::skip]
static SIX_TAPS: [[i16; 6]; 8] = [
    [0, 0, 128, 0, 0, 0],
    [0, -6, 123, 12, -1, 0],
    [2, -11, 108, 36, -8, 1],
    [0, -9, 93, 50, -6, 0],
    [3, -16, 77, 77, -16, 3],
    [0, -6, 50, 93, -9, 0],
    [1, -8, 36, 108, -11, 2],
    [0, -1, 12, 123, -6, 0],
];

/// The six taps of each filter, by eighths of a sample, over the samples from -2 to 3.
#[tactic(auto, unfolding(crate::specs::Tables::six_taps_of))]
pub fn six_taps() -> &'static [[i16; 6]; 8]
    ensures digits { result.now ≡ six_taps_of }
{
    &SIX_TAPS
}
