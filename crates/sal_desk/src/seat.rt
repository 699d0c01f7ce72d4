//! Seats at a desk.

ghost use Rattle.std.specs.Prelude.{◌≡◌};
ghost use Rattle.sal_desk.specs.Desk.{state_of, IsResting};

use crate::machine::Machine;
use crate::rule::Place;
use std::marker::Model;

/// The right to call a desk's machine, which is made with a desk or split off another seat. It has no bytes, and goes to the
/// thread that calls.
///
/// Contracts see its desk, its own part, those of the seats that were joined into it, and the history as far as it has
/// seen it.
pub struct Seat<M: Machine> {
    pub(crate) place: Place<M, M::Entry>,
}

impl<M: Machine> Model for Seat<M> {
    ghost use Rattle.sal_desk.specs.Seats.{SeatState};
    ghost use Rattle.sal_desk.specs.Desk.{state_of, IsResting};

    ghost Value = { SeatState M M.Entry };

    ghost view = { λ s. state_of s.place };

    ghost invariant = { λ s. IsResting s.place.me };
}

impl<M: Machine> Seat<M> {
    pub(crate) fn into_place(self) -> Place<M, M::Entry>
        ensures place { state_of result ≡ self }
        ensures rests { IsResting result.me }
    {
        let Self { place } = self;
        place
    }
}

impl<M: Machine> Drop for Seat<M> {
    fn drop(self) {
        let Self { place } = self;
        drop(place);
    }
}
