//! The budget of a choice.

ghost use Rattle.std.specs.Prelude.{◌≡◌, ◌≤◌};
ghost use Rattle.sal_budget.specs.Budget.{budget_of};

/// What was sent and heard, in datagrams, and when, in microseconds. Both moments are 0 before there is any.
#[derive(Clone, Copy, Debug, PartialEq, Eq)]
pub struct Flight {
    /// The greatest serial sent.
    pub sent: u32,
    /// The greatest serial that was heard of, at most `sent`.
    pub heard: u32,
    /// When the last datagram was sent.
    pub sent_at: u64,
    /// When `heard` rose last.
    pub heard_at: u64,
}

/// The datagrams that may be on their way at once, at most.
pub const MAX_IN_FLIGHT: u32 = 4096;

/// How long the datagrams on their way may take to arrive, in microseconds: 100 milliseconds.
pub const QUEUE: u32 = 100_000;

/// After so long without a send or a new acknowledgement no datagram counts as being on its way, in microseconds: half a
/// second.
pub const SILENCE: u64 = 500_000;

/// How many datagrams may be sent at this moment, at most 4,096: the congestion window, which is what arrives in 100
/// milliseconds at the average gap of the receiver (in microseconds) but never under `least` datagrams, less those on
/// their way. The moment is in microseconds.
pub fn budget(average: u32, least: u32, flight: &Flight, moment: u64) -> u32
    requires { flight.now.heard ≤ flight.now.sent }
    ensures { result ≡ budget_of average least flight.now moment }
{
    let window = least.max(QUEUE / average.max(1)).min(MAX_IN_FLIGHT);
    let quiet = moment.saturating_sub(flight.sent_at.max(flight.heard_at));
    let in_flight = if quiet >= SILENCE {
        0
    } else {
        flight.sent - flight.heard
    };
    window.saturating_sub(in_flight)
}
