//! The taps of a filter (RFC 6386, section 18.3).

ghost use Rattle.std.specs.Prelude.{◌+◌, ◌≤◌};

/// The sizes of a filter's six taps: the second and the fifth are taken away, the others added. Their sums keep what is
/// weighed below 2^16, so that the inner loops run on 16 bits.
#[derive(Clone, Copy)]
pub(crate) struct Taps {
    pub first: u16,
    pub second: u16,
    pub third: u16,
    pub fourth: u16,
    pub fifth: u16,
    pub sixth: u16,
    ghost added: { first + third + fourth + sixth ≤ 160 },
    ghost taken: { second + fifth ≤ 32 },
}
