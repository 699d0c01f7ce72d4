//! The moving average of the gaps between arrivals.

ghost use Rattle.std.specs.Prelude.{◌≡◌, ◌<◌, ◌↔◌, IsTrue};
ghost use Rattle.sal_budget.specs.Gap.{no_arrival, arrived};

/// What a receiver keeps of the arrivals so far.
#[derive(Clone, Copy, Debug, PartialEq, Eq)]
pub struct Gap {
    /// The moving average of the gaps, in microseconds, at most 10,000,000.
    pub average: u32,
    /// The moment of the last arrival that counted, in microseconds.
    pub last: Option<u64>,
    /// The greatest serial that came, 0 before any.
    pub greatest: u32,
}

/// The average before there are two arrivals, in microseconds: 10 milliseconds.
pub const FIRST_AVERAGE: u32 = 10_000;

/// The greatest average, in microseconds: ten seconds.
pub const MAX_AVERAGE: u64 = 10_000_000;

/// The parts that make an average: one is the newest gap, the others the average before.
pub const AVERAGE_PARTS: u64 = 8;

impl Gap {
    /// Before any arrival.
    pub fn start() -> Gap
        ensures { result ≡ no_arrival }
    {
        Gap {
            average: FIRST_AVERAGE,
            last: None,
            greatest: 0,
        }
    }

    /// Takes an arrival of a datagram that was sent after a pause of so many microseconds. It counts, and `true` is the
    /// answer, exactly where its serial is above all before; else nothing changes.
    pub fn arrive(&mut self, moment: u64, serial: u32, pause: u32) -> bool
        ensures counts { IsTrue result ↔ (self.old.greatest < serial) }
        ensures after { self.new ≡ arrived (record { moment = moment; serial = serial; pause = pause }) self.old }
    {
        if serial <= self.greatest {
            return false;
        }
        if let Some(last) = self.last {
            let since = moment.saturating_sub(last).saturating_sub(pause as u64);
            let sum = since.saturating_add((AVERAGE_PARTS - 1) * self.average as u64);
            self.average = (sum / AVERAGE_PARTS).min(MAX_AVERAGE) as u32;
        }
        self.last = Some(moment);
        self.greatest = serial;
        true
    }
}
