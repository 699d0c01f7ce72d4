//! The desk.

ghost use Rattle.std.specs.Prelude.{◌≡◌, [], IfOk};
ghost use Rattle.sal_desk.specs.Histories.{entries};
ghost use Rattle.sal_desk.specs.Seats.{first_seat, after_split, split_off, IsSeatOf, AllBack, team};
ghost use Rattle.sal_desk.specs.Calls.{Acted, Joined, Closed};

use crate::board::Board;
use crate::history::History;
use crate::machine::Machine;
use crate::seat::Seat;
use crate::view::Kept;
use std::alloc::{AllocError, Global};
use std::marker::Model;
use std::sync::Wait;

/// One machine that many threads call, each from a seat of its own. Their calls are made one after another, and stand in one
/// legal history.
///
/// It serves the first 2^63 calls; a later one waits for ever. Contracts see which desk it is, and the machine as the desk
/// was made over it.
pub struct Desk<M: Machine> {
    board: Board<M>,
}

impl<M: Machine> Model for Desk<M> {
    ghost use Rattle.sal_desk.specs.Seats.{DeskKey, desk_key};

    ghost Value = { DeskKey M };

    ghost view = { λ d. desk_key d.board.table.shared.table_id d.board.table.shared.key.value };
}

impl<M: Machine + Drop> Desk<M> {
    /// A desk over a machine that stands for no entries, with its first seat. Where memory is wanting the machine is dropped.
    pub fn new(alloc: Global, machine: M) -> Result<(Desk<M>, Seat<M>), AllocError>
        requires { M.stands machine machine [] }
        ensures { IfOk result (λ made. (made.0.start ≡ machine) × (made.1 ≡ first_seat made.0)) }
    {
        let (board, place) = Board::new(alloc, machine)?;
        Ok((Desk { board }, Seat { place }))
    }
}

impl<M: Machine> Desk<M> {
    /// One call of the machine, once its turn has come: what it answers, and its place in the history, counted from 0.
    ///
    /// Where there is no memory for the call's entry the machine isn't called: the reply is `void()`, and a Void stands at
    /// the place.
    pub fn act<R: Wait>(&self, rt: &R, seat: &mut Seat<M>, call: M::Call) -> (M::Reply, u64)
        requires own { IsSeatOf self.now seat.old }
        requires may { M.may self.now.start (entries seat.old.seen) call }
        ensures own { IsSeatOf self.now seat.new }
        ensures acted { Acted M.answers M.follows M.voided self.now.start seat.old call result.0 result.1 seat.new }
    {
        self.board.act(rt, &mut seat.place, call)
    }

    /// A seat with a new name, which has seen as much and made no call.
    pub fn split(&self, seat: &mut Seat<M>) -> Seat<M>
        requires own { IsSeatOf self.now seat.old }
        ensures split { seat.new ≡ after_split seat.old }
        ensures split_off { result ≡ split_off seat.old }
    {
        let place = self.board.split(&mut seat.place);
        Seat { place }
    }

    /// Joins another seat into this one.
    pub fn join(&self, seat: &mut Seat<M>, other: Seat<M>)
        requires own { IsSeatOf self.now seat.old }
        requires other_own { IsSeatOf self.now other }
        ensures own { IsSeatOf self.now seat.new }
        ensures joined { Joined seat.old other seat.new }
    {
        self.board.join(&mut seat.place, other.into_place());
    }

    /// Ends the desk, once every seat that was split off was joined into this one, by itself or through others: the machine,
    /// and the history for which it stands.
    pub fn close(self, seat: Seat<M>) -> (M, History<M>)
        requires own { IsSeatOf self seat }
        requires back { AllBack (team seat) }
        ensures { Closed M.stands M.follows self.start seat result.0 result.1 }
    {
        let Desk { board } = self;
        let Kept { machine, history } = board.close(seat.into_place());
        (machine, History { log: history })
    }
}
