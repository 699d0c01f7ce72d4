//! What the sender keeps of the acknowledgements.

ghost use Rattle.std.specs.Prelude.{◌≡◌, ◌≤◌, [], ◌∷◌, Ok, max};
ghost use Rattle.sal_wire.specs.declared.datagram.Ack.{Ack};
ghost use Rattle.sal_wire.specs.Message.{AckMessage};
ghost use Rattle.sal_budget.specs.Budget.{budget_of, least_window};
ghost use Rattle.sal_sender.specs.declared.answers.HeardAck.TheVariants.{Heard};
ghost use Rattle.sal_sender.specs.Past.{Past, Hear, choices, sent, sent_at_of};
ghost use Rattle.sal_sender.specs.Acks.{average, flight};
ghost use Rattle.sal_sender.specs.AckState.{IsAckState, with_ack};

use sal_budget::{Flight, budget};

/// The greatest serial heard with its gap and its moment, and the sender's moment.
#[derive(Clone, Copy, Debug)]
pub struct AckState {
    /// The greatest serial heard, 0 before any.
    pub heard: u32,
    /// The average gap between arrivals that came with it, in microseconds; 10,000 before any.
    pub average: u32,
    /// The sender's moment when it was heard, in microseconds; 0 before any.
    pub heard_at: u64,
    /// The greatest moment of a call that wasn't refused, in microseconds.
    pub moment: u64,
}

impl AckState {
    /// What is kept before any call.
    pub(crate) fn new() -> AckState
        ensures { IsAckState result [] }
    {
        AckState {
            heard: 0,
            average: 10_000,
            heard_at: 0,
            moment: 0,
        }
    }

    /// Passes to a moment, in microseconds, where that is a later one.
    pub(crate) fn pass(&mut self, moment: u64)
        ensures { self.new ≡ record self.old { moment = max self.old.moment moment } }
    {
        self.moment = self.moment.max(moment);
    }

    /// Takes an acknowledgement that is answered Heard: its serial, its gap and its moment.
    pub(crate) fn take(&mut self, serial: u32, gap: u32, moment: u64)
        ensures { self.new ≡ with_ack serial gap moment self.old }
    {
        self.moment = self.moment.max(moment);
        if self.heard < serial {
            self.heard = serial;
            self.average = gap;
            self.heard_at = self.moment;
        }
    }

    /// How many datagrams may be sent at this moment.
    pub(crate) fn may_send(&self, least: u32, sent: u32, sent_at: u64, moment: u64) -> u32
        requires { self.now.heard ≤ sent }
        ensures value { result ≡ budget_of self.now.average least (record { sent = sent; heard = self.now.heard; sent_at = sent_at; heard_at = self.now.heard_at }) moment }
        ensures past { (past : Past) → IsAckState self.now past → sent ≡ Rattle.sal_sender.specs.Past.sent past → sent_at ≡ sent_at_of (choices past) → result ≡ budget_of (average past) least (flight past) moment }
    {
        let flight = Flight {
            sent,
            heard: self.heard,
            sent_at,
            heard_at: self.heard_at,
        };
        budget(self.average, least, &flight, moment)
    }
}

/// The least window for pictures of this size, in datagrams: 16, and one for each 16 macroblocks.
pub(crate) fn least(width: u16, height: u16) -> u32
    ensures { result ≡ least_window width height }
{
    let columns = (u32::from(width) + 15) / 16;
    let rows = (u32::from(height) + 15) / 16;
    16 + columns * rows / 16
}
