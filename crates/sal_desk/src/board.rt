//! The table of a desk, and what is done at a place of it.

ghost use Rattle.std.specs.Prelude.{◌≡◌, ◌<◌, ◌^◌, ◌++◌, ◌∷◌, [], ℕ, Option, Some, None, MatchBool, IfOk};
ghost use Rattle.sal_desk.specs.Stored.{items_of};
ghost use Rattle.sal_desk.specs.Histories.{unnamed, entries, listed};
ghost use Rattle.sal_desk.specs.Seats.{desk_key, first_seat, after_split, split_off, IsSeatOf, AllBack, team};
ghost use Rattle.sal_desk.specs.Desk.{staged, after_turn, state_of, IsResting, HasTurn, HasTaken};
ghost use Rattle.sal_desk.specs.Calls.{Acted, Joined, Closed};
ghost use Rattle.sal_desk.specs.declared.view.Stage.TheVariants.{Idle, Waiting, Working};

use crate::history::Log;
use crate::machine::Machine;
use crate::play::play;
use crate::rule::{Compare, Draw, Finish, Look, Merge, Part, Place, Turns};
use crate::view::{Kept, View};
use atomic_table::Table;
use std::alloc::{AllocError, Global};
use std::snapshot::Snapshot;
use std::sync::Wait;
use std::thread;

/// The table of a desk: two words, and the slot with the machine and its history.
pub(crate) struct Board<M: Machine> {
    table: Table<Option<Kept<M, M::Entry>>, View<M, M::Entry>, Snapshot<M>, Turns<M>, Global>,
    ghost shape: { (table.shared.table_id.words ≡ 2) × (table.shared.table_id.slots ≡ 1) },
}

impl<M: Machine + Drop> Board<M> {
    /// A table over a machine, with its first place.
    pub(crate) fn new(
        alloc: Global,
        machine: M,
    ) -> Result<(Board<M>, Place<M, M::Entry>), AllocError>
        requires { M.stands machine machine [] }
        ensures { IfOk result (λ made. (made.0.table.shared.key.value ≡ machine) × (state_of made.1 ≡ first_seat (desk_key made.0.table.shared.table_id machine)) × IsResting made.1.me) }
    {
        let start = Snapshot::of(&machine);
        let mut slots = Vec::new(alloc);
        slots.reserve(1)?;
        slots.push_reserved(Some(Kept {
            machine,
            history: Log::new(alloc),
        }));
        match Table::new(alloc, &[0, 0], slots, &start) {
            Ok((table, place)) => Ok((Board { table }, place)),
            Err(_) => Err(AllocError),
        }
    }
}

impl<M: Machine> Board<M> {
    /// Draws this ticket, if no other seat has.
    fn draw(&self, place: &mut Place<M, M::Entry>, ticket: u64) -> bool
        requires own { place.old.table_id ≡ self.now.table.shared.table_id }
        requires idle { (place.old.me.0.stage ≡ Idle) × (place.old.me.1 ≡ []) × ((start : M) × (place.old.me.0.start ≡ Some start)) }
        requires below { ticket < 2 ^ 63 }
        ensures own { place.new.table_id ≡ place.old.table_id }
        ensures drawn { MatchBool result (place.new.me ≡ (staged (Waiting ticket) place.old.me.0, [])) (place.new.me ≡ place.old.me) }
    {
        self.table
            .shared
            .compare_exchange::<Draw<M>>(place, 0, ticket, ticket + 1)
            == ticket
    }

    /// Whether the turn of this ticket has come. Then the seat has the slot.
    fn look(&self, place: &mut Place<M, M::Entry>, ticket: u64) -> bool
        requires own { IsSeatOf (desk_key self.now.table.shared.table_id self.now.table.shared.key.value) (state_of place.old) }
        requires waiting { (place.old.me.0.stage ≡ Waiting ticket) × (place.old.me.1 ≡ []) }
        ensures own { place.new.table_id ≡ place.old.table_id }
        ensures looked { MatchBool result (HasTurn M.stands M.follows self.now.table.shared.key.value ticket place.old.me.0 place.new.me) (place.new.me ≡ place.old.me) }
    {
        self.table.shared.load::<Look<M>>(place, 1) == ticket
    }

    /// Puts the machine back with one item more, and ends the turn.
    fn finish(&self, place: &mut Place<M, M::Entry>, kept: Kept<M, M::Entry>)
        requires own { IsSeatOf (desk_key self.now.table.shared.table_id self.now.table.shared.key.value) (state_of place.old) }
        requires working { (t : ℕ) × (place.old.me.0.stage ≡ Working t) }
        requires slot { place.old.me.1 ≡ (0, None) ∷ [] }
        requires longer { (made : Option M.Entry) × ((items_of kept.history ≡ unnamed place.old.me.0.seen ++ made ∷ []) × ((e : M.Entry) → made ≡ Some e → M.follows self.now.table.shared.key.value (entries place.old.me.0.seen) e) × M.stands self.now.table.shared.key.value kept.machine (entries place.old.me.0.seen ++ listed made)) }
        ensures own { place.new.table_id ≡ place.old.table_id }
        ensures after { (made : Option M.Entry) → items_of kept.history ≡ unnamed place.old.me.0.seen ++ made ∷ [] → place.new.me ≡ (after_turn made place.old.me.0, []) }
    {
        let before = self.table.shared.exchange(place, 0, Some(kept));
        let None = before else { unreachable!() };
        self.table.shared.fetch_add::<Finish<M>>(place, 1, 1);
    }

    /// Draws a ticket.
    fn queue<R: Wait>(&self, rt: &R, place: &mut Place<M, M::Entry>) -> u64
        requires own { IsSeatOf (desk_key self.now.table.shared.table_id self.now.table.shared.key.value) (state_of place.old) }
        requires idle { (place.old.me.0.stage ≡ Idle) × (place.old.me.1 ≡ []) }
        ensures own { place.new.table_id ≡ place.old.table_id }
        ensures waits { place.new.me ≡ (staged (Waiting result) place.old.me.0, []) }
    {
        'draw: for _ in rt.forever() {
            let ticket = self.table.shared.peek(0);
            if ticket < 1 << 63 && self.draw(place, ticket) {
                return ticket;
            }
            thread::yield_now();
        }
        unreachable!()
    }

    /// Waits for the seat's turn, and says its ticket.
    fn enter<R: Wait>(&self, rt: &R, place: &mut Place<M, M::Entry>) -> u64
        requires own { IsSeatOf (desk_key self.now.table.shared.table_id self.now.table.shared.key.value) (state_of place.old) }
        requires idle { (place.old.me.0.stage ≡ Idle) × (place.old.me.1 ≡ []) }
        ensures own { place.new.table_id ≡ place.old.table_id }
        ensures turn { HasTurn M.stands M.follows self.now.table.shared.key.value result place.old.me.0 place.new.me }
    {
        let ticket = self.queue(rt, place);
        'look: for _ in rt.forever() {
            if self.look(place, ticket) {
                return ticket;
            }
            thread::yield_now();
        }
        unreachable!()
    }

    /// Waits for the seat's turn, and takes what lies in the slot; the ticket is the place of the call in the history.
    fn take<R: Wait>(&self, rt: &R, place: &mut Place<M, M::Entry>) -> (u64, Kept<M, M::Entry>)
        requires own { IsSeatOf (desk_key self.now.table.shared.table_id self.now.table.shared.key.value) (state_of place.old) }
        requires idle { (place.old.me.0.stage ≡ Idle) × (place.old.me.1 ≡ []) }
        ensures own { place.new.table_id ≡ place.old.table_id }
        ensures taken { HasTaken M.stands M.follows self.now.table.shared.key.value result.0 result.1 place.old.me.0 place.new.me }
    {
        let ticket = self.enter(rt, place);
        let before = self.table.shared.exchange(place, 0, None);
        let Some(kept) = before else { unreachable!() };
        (ticket, kept)
    }

    /// One call of the machine, once its turn has come: the reply, and its place in the history.
    pub(crate) fn act<R: Wait>(
        &self,
        rt: &R,
        place: &mut Place<M, M::Entry>,
        call: M::Call,
    ) -> (M::Reply, u64)
        requires own { IsSeatOf (desk_key self.now.table.shared.table_id self.now.table.shared.key.value) (state_of place.old) }
        requires rests { IsResting place.old.me }
        requires may { M.may self.now.table.shared.key.value (entries place.old.me.0.seen) call }
        ensures own { IsSeatOf (desk_key self.now.table.shared.table_id self.now.table.shared.key.value) (state_of place.new) }
        ensures rests { IsResting place.new.me }
        ensures acted { Acted M.answers M.follows M.voided self.now.table.shared.key.value (state_of place.old) call result.0 result.1 (state_of place.new) }
    {
        let (ticket, kept) = self.take(rt, place);
        let (reply, kept) = play(kept, call);
        self.finish(place, kept);
        (reply, ticket)
    }

    /// A new place, which has seen as much.
    pub(crate) fn split(&self, place: &mut Place<M, M::Entry>) -> Place<M, M::Entry>
        requires own { IsSeatOf (desk_key self.now.table.shared.table_id self.now.table.shared.key.value) (state_of place.old) }
        requires rests { IsResting place.old.me }
        ensures split { state_of place.new ≡ after_split (state_of place.old) }
        ensures split_off { state_of result ≡ split_off (state_of place.old) }
        ensures rests { IsResting place.new.me }
        ensures split_off_rests { IsResting result.me }
    {
        self.table.shared.split_seat::<Part>(place)
    }

    /// Joins another place into this one.
    pub(crate) fn join(&self, place: &mut Place<M, M::Entry>, other: Place<M, M::Entry>)
        requires own { IsSeatOf (desk_key self.now.table.shared.table_id self.now.table.shared.key.value) (state_of place.old) }
        requires rests { IsResting place.old.me }
        requires other_own { IsSeatOf (desk_key self.now.table.shared.table_id self.now.table.shared.key.value) (state_of other) }
        requires other_rests { IsResting other.me }
        ensures own { IsSeatOf (desk_key self.now.table.shared.table_id self.now.table.shared.key.value) (state_of place.new) }
        ensures rests { IsResting place.new.me }
        ensures joined { Joined (state_of place.old) (state_of other) (state_of place.new) }
    {
        self.table.shared.join_seat::<Merge>(place, other);
        self.table.shared.load::<Compare<M>>(place, 0);
    }

    /// Ends the table, once every place came back, and gives what lay in the slot.
    pub(crate) fn close(self, place: Place<M, M::Entry>) -> Kept<M, M::Entry>
        requires own { IsSeatOf (desk_key self.table.shared.table_id self.table.shared.key.value) (state_of place) }
        requires rests { IsResting place.me }
        requires back { AllBack (team (state_of place)) }
        ensures { Closed M.stands M.follows self.table.shared.key.value (state_of place) result.machine (items_of result.history) }
    {
        let Board { table } = self;
        let mut closed = table.close_with(place);
        let slot = closed.take(0);
        closed.free();
        let Some(kept) = slot else { unreachable!() };
        kept
    }
}
