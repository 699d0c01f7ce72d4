//! The receiver.

ghost use Rattle.std.specs.Prelude.{◌≡◌, ◌≤◌, ◌∷◌, [], List, Ok, None, IfOk, IfSome, OnOk, OnErr};
ghost use Rattle.std.specs.Option.{option_map};
ghost use Rattle.std.specs.Arc.{arc_value};
ghost use Rattle.sal_wire.specs.Fields.{FragmentFields, fields_of};
ghost use Rattle.sal_wire.specs.Parsing.{parsed};
ghost use Rattle.sal_wire.specs.Layout.{IsFragment};
ghost use Rattle.sal_wire.specs.Message.{FragmentMessage, ByeMessage};
ghost use Rattle.sal_reasm.specs.Stands.{SlotsStand};
ghost use Rattle.sal_reasm.specs.Offer.{clash_with_taken};
ghost use Rattle.sal_receiver.specs.Past.{ReceiverCall, Deliver, TakeReady, Decoding as Decodes, shown};
ghost use Rattle.sal_receiver.specs.Answers.{refusal, ack_saying};
ghost use Rattle.sal_receiver.specs.Promises.{ReceiverAnswered, ReceiverAnswers, IsLeftAlone, ShowsAbove};
ghost use Rattle.sal_receiver.specs.Handed.{IsHandedOut, IsReadyFrame, number_of};
ghost use Rattle.sal_receiver.specs.Machine.{ReceiverState, ReceiverStands, IsEntered};
ghost use Rattle.sal_receiver.specs.Judged.{IsNew, after_hold, after_keep, judged, after_judge};
ghost use Rattle.sal_receiver.specs.Pending.{without, restaged, wanting};

use crate::answers::{Delivered, Done, Misfit, Refuse};
use crate::decoding::{DecodeOutcome, Decoding, Ready, ready_of};
use crate::entering::{add, share_of};
use crate::pending_frame::{PendingFrame, Stage};
use crate::pending_frames::{feed, is_out, keep_from, remove, restage, take_first};
use crate::session_state::SessionState;
use crate::shares::Shares;
use sal_base::{Memory, Name, Picture};
use sal_chain::Store;
use sal_codec::{Codec, name_of};
use sal_reasm::Slots;
use sal_wire::{Ack, Bye, Datagram, Fragment, read};
use std::alloc::Global;
use std::marker::Model;
use std::sync::Arc;

/// What a receiver of one session keeps: what is complete, what is held, and what was shown.
#[derive(Drop)]
pub struct Receiver<C: Codec> {
    known: SessionState,
    // The fragments at or above the floor.
    slots: Slots,
    // The floor, which the slots and the store have too.
    floor: u32,
    // The states held besides the initial one.
    store: Store<C>,
    initial: Arc<C::State>,
    // The complete frames whose numbers aren't decided, in rising order.
    frames: Vec<PendingFrame<Arc<C::State>>>,
    // The greatest frame number shown, 0 before any.
    last: u32,
}

impl<C: Codec> Model for Receiver<C> {
    ghost use Rattle.std.specs.Prelude.{◌≡◌, map};
    ghost use Rattle.std.specs.Arc.{arc_value};
    ghost use Rattle.sal_receiver.specs.Pending.{frame_unshared};
    ghost use Rattle.sal_receiver.specs.Machine.{ReceiverState};

    ghost Value = { ReceiverState C.State };

    ghost view = { λ r. record { known = r.known; slots = r.slots; store = r.store; frames = map frame_unshared r.frames.items; last = r.last } };

    ghost invariant = { λ r. (arc_value r.initial ≡ C.coding.initial) × (r.floor ≡ r.store.floor) };
}

impl<C: Codec> Receiver<C> {
    /// A receiver before any datagram, given the codec's initial state.
    pub fn new(alloc: Global, initial: Arc<C::State>) -> Result<Receiver<C>, Memory>
        requires { arc_value initial ≡ C.coding.initial }
        ensures { IfOk result (λ r. ReceiverStands C.coding r []) }
    {
        Ok(Receiver {
            known: SessionState::start(),
            slots: Slots::new(alloc)?,
            floor: 1,
            store: Store::new(alloc)?,
            initial,
            frames: Vec::new(alloc),
            last: 0,
        })
    }

    /// Takes the bytes of a datagram that came at this moment, in microseconds.
    ///
    /// A fault, an acknowledgement, another session, size or rate, and a fragment that differs from what was taken are
    /// refused, in this order; then memory is taken. What is refused, and want of memory, leave everything as it was.
    pub fn deliver(&mut self, alloc: Global, bytes: &[u8], moment: u64) -> Delivered
        ensures answered { ReceiverAnswered C.coding (ReceiverStands C.coding) self.old self.new (Deliver (parsed bytes.now) moment result) }
        ensures alone { IsLeftAlone result → self.new ≡ self.old }
    {
        match read(bytes) {
            Err(fault) => Delivered::Refused(Refuse::Wire(fault)),
            Ok(Datagram::Ack(_)) => Delivered::Refused(Refuse::Kind),
            Ok(Datagram::Bye(bye)) => self.end(bye, moment),
            Ok(Datagram::Fragment(fragment)) => self.part(alloc, &fragment, moment),
        }
    }

    // Takes the end of a session.
    fn end(&mut self, bye: Bye, moment: u64) -> Delivered
        ensures answered { ReceiverAnswered C.coding (ReceiverStands C.coding) self.old self.new (Deliver (Ok (ByeMessage bye.session bye.last)) moment result) }
        ensures alone { IsLeftAlone result → self.new ≡ self.old }
    {
        if let Some(cause) = self.known.session_cause(bye.session) {
            return Delivered::Refused(cause);
        }
        self.known.end(bye.session, moment);
        Delivered::Ended(bye.last)
    }

    // The first cause for which a fragment is left alone.
    fn cause(&self, fragment: &Fragment) -> Option<Refuse>
        requires { IsFragment (fields_of fragment.now) }
        ensures { (taken : List FragmentFields) → SlotsStand self.now.slots taken → result ≡ refusal self.now.known.session self.now.known.head taken (fields_of fragment.now) }
    {
        let other = self.known.cause(fragment);
        if other.is_some() {
            return other;
        }
        match self.slots.clash(fragment) {
            Some((field, kept, new)) => Some(Refuse::Clash(field, kept, new)),
            None => None,
        }
    }

    // Takes a fragment, unless there is a cause to leave it alone.
    fn part(&mut self, alloc: Global, fragment: &Fragment, moment: u64) -> Delivered
        requires { IsFragment (fields_of fragment.now) }
        ensures answered { ReceiverAnswered C.coding (ReceiverStands C.coding) self.old self.new (Deliver (Ok (FragmentMessage (fields_of fragment.now))) moment result) }
        ensures alone { IsLeftAlone result → self.new ≡ self.old }
    {
        if let Some(cause) = self.cause(fragment) {
            return Delivered::Refused(cause);
        }
        match self.enter(alloc, fragment, moment) {
            Ok(()) => Delivered::Taken(self.ack(fragment.session)),
            Err(_) => Delivered::Memory,
        }
    }

    // Takes a fragment that there is no cause to leave alone. All memory is taken before anything changes.
    fn enter(&mut self, alloc: Global, fragment: &Fragment, moment: u64) -> Result<(), Memory>
        requires { IsFragment (fields_of fragment.now) }
        ensures kept { OnErr result (self.new ≡ self.old) }
        ensures entered { (taken : List FragmentFields) → SlotsStand self.old.slots taken → clash_with_taken taken (fields_of fragment.now) ≡ None → OnOk result (IsEntered C.coding.initial self.old self.new (fields_of fragment.now) moment taken) }
    {
        let floor = self.floor.max(fragment.floor);
        let source = share_of(&self.store, &self.initial, floor, fragment.source)?;
        self.frames.reserve(1)?;
        let offered = self.slots.offer(alloc, fragment)?;
        self.known.arrive(fragment, moment);
        self.floor = floor;
        self.store.raise_floor(fragment.floor);
        keep_from(&mut self.frames, floor);
        add(&mut self.frames, offered, fragment, source);
        Ok(())
    }

    // The acknowledgement as things stand.
    fn ack(&self, session: u32) -> Ack
        ensures { result ≡ ack_saying session self.now.known.gap self.now.store.kept }
    {
        Ack {
            session,
            serial: self.known.gap.greatest,
            gap: self.known.gap.average,
            held: self.store.held(),
        }
    }

    /// Hands out the ready frame of the least number; it takes no memory.
    pub fn take_ready(&mut self) -> Option<Ready<C>>
        ensures answered { ReceiverAnswered C.coding (ReceiverStands C.coding) self.old self.new (TakeReady (option_map number_of result)) }
        ensures alone { result ≡ None → self.new ≡ self.old }
        ensures frame { (past : List (ReceiverCall C.State)) → ReceiverStands C.coding self.old past → IfSome result (IsReadyFrame C.coding past) }
    {
        ready_of(take_first(&mut self.frames))
    }

    /// Takes a decoding of a frame that was handed out; it takes no memory. What is promised of the answer is promised
    /// where the decoding is of what this receiver handed out, or its number isn't out. Of any decoding, a number that is
    /// shown is above all that were shown before.
    ///
    /// The answer is the first of these that holds: the number isn't out; there was no memory, and the frame is ready again; a
    /// fault or another size; another name than the fragments said; a number at least as great was shown; the picture is
    /// shown. The last two keep the state, where its number isn't below the floor.
    pub fn decoded(&mut self, decoding: Decoding<C>) -> Done
        requires stands { (past : List (ReceiverCall C.State)) × ReceiverStands C.coding self.old past }
        ensures answered { (past : List (ReceiverCall C.State)) → ReceiverStands C.coding self.old past → IsHandedOut C.coding past decoding.handed → ReceiverAnswers C.coding (Decodes decoding.handed.number decoding.outcome result) past × ReceiverStands C.coding self.new (Decodes decoding.handed.number decoding.outcome result ∷ past) }
        ensures alone { result ≡ Done.Stranger → self.new ≡ self.old }
        ensures rises { (past : List (ReceiverCall C.State)) → ReceiverStands C.coding self.old past → ShowsAbove (shown past) result }
    {
        let (ready, outcome) = decoding.into_parts();
        let number = ready.number();
        if !is_out(self.frames.as_slice(), number) {
            return Done::Stranger;
        }
        match outcome {
            DecodeOutcome::NoMemory => self.give_back(ready),
            DecodeOutcome::Fault(fault) => self.decide(number, Misfit::Fault(fault)),
            DecodeOutcome::Frame(shares, digest, picture) => self.judge(
                number,
                ready.target(),
                name_of(&digest),
                shares,
                picture,
            ),
        }
    }

    // Makes a frame ready again.
    fn give_back(&mut self, ready: Ready<C>) -> Done
        ensures answer { result ≡ Done.Returned ready.number }
        ensures kept { self.new ≡ record self.old { frames = restaged ready.number (Stage.Ready ready.source ready.bytes) self.old.frames } }
    {
        let task = ready.into_task();
        restage(
            &mut self.frames,
            task.number,
            Stage::Ready(task.source, task.bytes),
        );
        Done::Returned(task.number)
    }

    // Decides a number that can't be shown.
    fn decide(&mut self, number: u32, why: Misfit) -> Done
        ensures answer { result ≡ Done.Unfit number why }
        ensures kept { self.new ≡ record self.old { frames = without number self.old.frames } }
    {
        remove(&mut self.frames, number);
        Done::Unfit(number, why)
    }

    // Holds a state, from which the whole frames of that source are ready, and decides its number.
    fn hold(&mut self, number: u32, name: Name, shares: Shares<C::State>)
        requires floor { self.old.store.floor ≤ number }
        requires fresh { IsNew self.old number }
        requires enough { wanting name.0 self.old.frames ≤ shares.others }
        ensures { self.new ≡ after_hold number name shares.state self.old }
    {
        let state = feed(&mut self.frames, &name, shares);
        self.store.add(number, name, state);
        remove(&mut self.frames, number);
    }

    // Holds a state, where its number isn't below the floor, and decides the number.
    fn keep(&mut self, number: u32, name: Name, shares: Shares<C::State>)
        requires fresh { self.old.store.floor ≤ number → IsNew self.old number }
        requires enough { self.old.store.floor ≤ number → wanting name.0 self.old.frames ≤ shares.others }
        ensures { self.new ≡ after_keep number name shares.state self.old }
    {
        if number < self.floor {
            remove(&mut self.frames, number);
            return;
        }
        self.hold(number, name, shares);
    }

    // Judges a decoded frame.
    fn judge(
        &mut self,
        number: u32,
        target: Name,
        name: Name,
        shares: Shares<C::State>,
        picture: Picture,
    ) -> Done
        requires fresh { self.old.store.floor ≤ number → IsNew self.old number }
        requires enough { self.old.store.floor ≤ number → wanting name.0 self.old.frames ≤ shares.others }
        ensures answer { result ≡ judged number target name picture self.old }
        ensures kept { self.new ≡ after_judge number name shares.state result self.old }
    {
        if !self.known.has_size(&picture) {
            let why = Misfit::Size(picture.width, picture.height);
            return self.decide(number, why);
        }
        if name != target {
            remove(&mut self.frames, number);
            return Done::Misnamed(target, name);
        }
        self.keep(number, name, shares);
        if number <= self.last {
            return Done::Older(number, self.last);
        }
        self.last = number;
        Done::Show(number, picture)
    }
}
