//! Both ends in one world.

ghost use Rattle.std.specs.Prelude.{◌≡◌, ◌≢◌, ◌+◌, ◌<◌, ◌≤◌, ◌^◌, [], ◌∷◌, ◌++◌, true, false, max, is_some, List, length, Ok, None, IfOk, vec_len, vec_capacity};
ghost use Rattle.std.specs.Arc.{arc_value};
ghost use Rattle.std.specs.Option.{option_copied, option_map};
ghost use Rattle.sal_codec.specs.Coding.{HasSides};
ghost use Rattle.sal_y4m.specs.Head.{IsHead};
ghost use Rattle.sal_sender.specs.OneThread.{Session};
ghost use Rattle.sal_sender.specs.Choosing.{first_in};
ghost use Rattle.sal_sender.specs.Answers.{starts, next_answer, report_answer, waiting_jobs};
ghost use Rattle.sal_sender.specs.declared.choice.Choice.{Choice as ChoiceData};
ghost use Rattle.sal_world.specs.World.{WorldPast, WorldEvent, at_number, sent, after};
ghost use Rattle.sal_world.specs.Promises.{NamesDifferIn, Promises};
ghost use Rattle.sal_world.specs.Invariant.{Invariant};
ghost use Rattle.sal_world.specs.HandedOut.{next_job, next_frame};
ghost use Rattle.sal_world.specs.Answers.{event_of, is_refused, is_choice_refused, is_delivery_refused, is_ack_refused, did_decode, choose_answer, delivery_answer, hear_answer, done_answer, takes_memory, IsHonest, IsHonestDelivery, IsHonestHearing, IsHonestDone};
ghost use Rattle.sal_world.specs.Stands.{IsWorld, Stands, WasHandedOut, WasReady, May, Stepped, Happened, HappenedUnless, HappenedIn, HappenedInUnless, IsSameButJobsOut};

use crate::event::{Answer, ChooseAnswer, Event, Unsent, of_choose, of_deliver, of_hear, of_next};
use crate::laws::keeps_every_promise;
use sal_base::{Bytes, Memory, Picture};
use sal_codec::{Codec, keeps_the_law};
use sal_receiver::{Decoding, Delivered, Done, Ready, Receiver};
use sal_sender::{Burst, Chosen, HeardAck, Job, JobRole, Next, Report, Reported, Sender};
use sal_wire::AckRoom;
use sal_y4m::Head;
use std::alloc::Global;
use std::marker::Model;
use std::sync::Arc;

/// A sender and a receiver of one session, and all that went from one to the other.
#[derive(Drop)]
pub struct World<C: Codec> {
    alloc: Global,
    sender: Sender<C>,
    receiver: Receiver<C>,
    // All datagrams, the oldest first.
    sent: Vec<Bytes>,
    // All acknowledgements, the oldest first.
    acks: Vec<Bytes>,
    moment: u64,
}

impl<C: Codec> Model for World<C> {
    ghost use Rattle.sal_world.specs.WorldParts.{WorldParts};

    ghost Value = { WorldParts C.State };

    ghost view = { λ w. record { sender = w.sender; receiver = w.receiver; sent = w.sent.items; acks = w.acks.items; moment = w.moment } };
}

// The number of a world's session.
const SESSION: u32 = 1;

// The most datagrams of a choice.
const MOST_DATAGRAMS: usize = 4096;

// What has this number in a list whose first has the number 1.
fn at_number(items: &[Bytes], which: u64) -> Option<&Bytes>
    ensures { option_copied result ≡ at_number items.now which }
{
    let at = which.checked_sub(1)?;
    items.get(at as usize)
}

// Moves datagrams to the end of a list that has room for them.
fn move_to(sent: &mut Vec<Bytes>, burst: Burst)
    requires { vec_len sent.old + length burst ≤ vec_capacity sent.old }
    ensures { sent.new.items ≡ sent.old.items ++ burst }
{
    let mut datagrams = burst.into_vec();
    sent.append(&mut datagrams).unwrap();
}

// Adds an acknowledgement, for which there is room.
fn keep(acks: &mut Vec<Bytes>, text: Bytes)
    requires { vec_len acks.old < vec_capacity acks.old }
    ensures { acks.new.items ≡ acks.old.items ++ text ∷ [] }
{
    acks.push(text).unwrap();
}

/// Does nothing: its clauses say that the numbers of a rate are those of their type.
pub fn rate_fits(head: Head)
    ensures pictures { head.rate.0 < 2 ^ 32 }
    ensures seconds { head.rate.1 < 2 ^ 32 }
{
    let (_pictures, _seconds) = head.rate;
}

impl<C: Codec> World<C> {
    /// A world in which nothing happened yet. Its session has the number 1.
    pub fn new(alloc: Global, codec: C, head: Head) -> Result<World<C>, Memory>
        requires { IsHead head }
        ensures { IfOk result (λ w. Stands C.coding (record { number = 1; head = head }) w []) }
    {
        let initial = Arc::new(alloc, codec.initial(alloc)?)?;
        rate_fits(head);
        Ok(World {
            alloc,
            sender: Sender::new(alloc, codec, SESSION, head)?,
            receiver: Receiver::new(alloc, initial)?,
            sent: Vec::new(alloc),
            acks: Vec::new(alloc),
            moment: 0,
        })
    }

    /// All datagrams that were sent, the oldest first.
    pub fn sent(&self) -> &[Bytes]
        ensures { result.now ≡ self.now.sent }
    {
        self.sent.as_slice()
    }

    /// How many datagrams were sent.
    pub fn datagrams(&self) -> u32
        ensures { (session : Session) (events : List WorldEvent) → Stands C.coding session self.now events → result ≡ length (sent (after C.coding session events)) }
    {
        self.sender.datagrams()
    }

    /// The role of the job that `Take` hands out next, if one waits.
    pub fn next_role(&self) -> Option<JobRole>
        ensures { (session : Session) (events : List WorldEvent) → Stands C.coding session self.now events → result ≡ option_map (λ job. job.role) (first_in (waiting_jobs (after C.coding session events).sender)) }
    {
        self.sender.next_role()
    }

    /// How many acknowledgements there are.
    pub fn acks(&self) -> u64
        ensures { result ≡ length self.now.acks }
    {
        self.acks.len() as u64
    }

    /// The moment, in microseconds: the greatest that was given.
    pub fn moment(&self) -> u64
        ensures { result ≡ self.now.moment }
    {
        self.moment
    }

    /// Starts a picture of the session's size, whose jobs then wait to be handed out.
    ///
    /// NotChosen where a picture is open, Full where the session has no number for one more; Memory only where neither holds.
    pub fn next_picture(&mut self, picture: Arc<Picture>) -> Next
        requires size { HasSides self.old.sender.session.head.width self.old.sender.session.head.height (arc_value picture) }
        ensures answered { (session : Session) (events : List WorldEvent) → Stands C.coding session self.old events → HappenedUnless C.coding session Next.Memory self.new events (WorldEvent.Starts (arc_value picture)) result (next_answer (after C.coding session events).sender) }
        ensures refused { starts result ≡ false → self.new ≡ self.old }
        ensures memory { (session : Session) (events : List WorldEvent) → Stands C.coding session self.old events → result ≡ Next.Memory → starts (next_answer (after C.coding session events).sender) ≡ true }
        ensures promises { (session : Session) (events : List WorldEvent) → Stands C.coding session self.new events → Promises C.coding session (after C.coding session events) }
    {
        keeps_every_promise::<C>();
        self.sender.next_picture(picture, self.moment)
    }

    /// Hands out the job of the least id that waits, if one does.
    pub fn take_job(&mut self) -> Option<Job<C>>
        ensures answered { (session : Session) (events : List WorldEvent) → Stands C.coding session self.old events → Happened C.coding session self.new events WorldEvent.TakesJob result (next_job C.coding (after C.coding session events).sender) }
        ensures refused { result ≡ None → self.new ≡ self.old }
        ensures promises { (session : Session) (events : List WorldEvent) → Stands C.coding session self.new events → Promises C.coding session (after C.coding session events) }
    {
        keeps_every_promise::<C>();
        self.sender.take_job()
    }

    /// Takes the report of a job that this world handed out.
    ///
    /// Stranger where the job was reported before. After Late, which comes where the job's picture is closed, all is as it was,
    /// but that the job is out no more.
    pub fn report(&mut self, report: Report<C>) -> Reported
        requires may { (session : Session) × ((events : List WorldEvent) × (Stands C.coding session self.old events × WasHandedOut C.coding session events report.work)) }
        ensures answered { (session : Session) (events : List WorldEvent) → Stands C.coding session self.old events → WasHandedOut C.coding session events report.work → Happened C.coding session self.new events (WorldEvent.Reports report.work.id report.gave) result (report_answer (after C.coding session events).sender report.work.id) }
        ensures refused { result ≡ Reported.Stranger → self.new ≡ self.old }
        ensures late { result ≡ Reported.Late → IsSameButJobsOut self.old self.new }
        ensures promises { (session : Session) (events : List WorldEvent) → Stands C.coding session self.new events → Promises C.coding session (after C.coding session events) }
    {
        keeps_every_promise::<C>();
        self.sender.report(report)
    }

    // Chooses; room for the datagrams is made first, and they are moved to the list.
    fn send(&mut self) -> ChooseAnswer
        requires world { (session : Session) × ((w : WorldPast C.State) × IsWorld C.coding session self.old w) }
        ensures answered { (session : Session) (w : WorldPast C.State) → IsWorld C.coding session self.old w → HappenedInUnless C.coding session ChooseAnswer.Memory self.new w WorldEvent.Chooses result (choose_answer C.coding session w) }
        ensures refused { is_choice_refused result ≡ true → self.new ≡ self.old }
    {
        if self.sent.reserve(MOST_DATAGRAMS).is_err() {
            return ChooseAnswer::Memory;
        }
        match self.sender.choose(self.moment) {
            Chosen::Sent(choice, burst) => {
                move_to(&mut self.sent, burst);
                ChooseAnswer::Sent(choice)
            }
            Chosen::NoPicture => ChooseAnswer::NoPicture,
            Chosen::Waiting(id) => ChooseAnswer::Waiting(id),
            Chosen::Nothing(budget, sizes) => ChooseAnswer::Nothing(budget, sizes),
            Chosen::Memory => ChooseAnswer::Memory,
        }
    }

    /// Chooses one of the reports of the open picture, and sends its datagrams.
    ///
    /// Sent and Nothing close the picture. After Sent there are as many datagrams more as the choice counts.
    pub fn choose(&mut self) -> ChooseAnswer
        requires stands { (session : Session) × ((events : List WorldEvent) × Stands C.coding session self.old events) }
        ensures answered { (session : Session) (events : List WorldEvent) → Stands C.coding session self.old events → HappenedUnless C.coding session ChooseAnswer.Memory self.new events WorldEvent.Chooses result (choose_answer C.coding session (after C.coding session events)) }
        ensures counted { (choice : ChoiceData) → result ≡ ChooseAnswer.Sent choice → length self.new.sent ≡ length self.old.sent + choice.count }
        ensures refused { is_choice_refused result ≡ true → self.new ≡ self.old }
        ensures promises { (session : Session) (events : List WorldEvent) → Stands C.coding session self.new events → Promises C.coding session (after C.coding session events) }
    {
        keeps_every_promise::<C>();
        self.send()
    }

    // Brings a datagram to the receiver; room for the acknowledgement is made first.
    fn receive(&mut self, which: u32) -> Result<Delivered, Unsent>
        ensures answered { (session : Session) (w : WorldPast C.State) → IsWorld C.coding session self.old w → HappenedInUnless C.coding session (Ok Delivered.Memory) self.new w (WorldEvent.Delivers which) result (delivery_answer C.coding session w which) }
        ensures refused { is_delivery_refused result ≡ true → self.new ≡ self.old }
        ensures memory { (session : Session) (w : WorldPast C.State) → IsWorld C.coding session self.old w → result ≡ Ok Delivered.Memory → is_some (at_number (sent w) which) ≡ true }
    {
        let Some(datagram) = at_number(self.sent.as_slice(), u64::from(which)) else {
            return Err(Unsent {
                number: u64::from(which),
                last: self.sent.as_slice().len() as u64,
            });
        };
        let Ok(room) = AckRoom::new(self.alloc) else {
            return Ok(Delivered::Memory);
        };
        if self.acks.reserve(1).is_err() {
            return Ok(Delivered::Memory);
        }
        match self
            .receiver
            .deliver(self.alloc, datagram.as_slice(), self.moment)
        {
            Delivered::Taken(ack) => {
                keep(&mut self.acks, room.write(&ack));
                Ok(Delivered::Taken(ack))
            }
            Delivered::Ended(last) => Ok(Delivered::Ended(last)),
            Delivered::Refused(cause) => Ok(Delivered::Refused(cause)),
            Delivered::Memory => Ok(Delivered::Memory),
        }
    }

    /// Brings the datagram of this number, counted from 1, to the receiver, and keeps its acknowledgement.
    ///
    /// # Errors
    ///
    /// Unsent exactly where no datagram has this number; Memory comes only where one has. Where states that differ have names
    /// that differ, a datagram is Taken, but for want of memory.
    pub fn deliver(&mut self, which: u32) -> Result<Delivered, Unsent>
        ensures answered { (session : Session) (events : List WorldEvent) → Stands C.coding session self.old events → HappenedUnless C.coding session (Ok Delivered.Memory) self.new events (WorldEvent.Delivers which) result (delivery_answer C.coding session (after C.coding session events) which) }
        ensures refused { is_delivery_refused result ≡ true → self.new ≡ self.old }
        ensures memory { (session : Session) (events : List WorldEvent) → Stands C.coding session self.old events → result ≡ Ok Delivered.Memory → is_some (at_number (sent (after C.coding session events)) which) ≡ true }
        ensures honest { (session : Session) (events : List WorldEvent) → Stands C.coding session self.old events → NamesDifferIn C.coding (after C.coding session (WorldEvent.Delivers which ∷ events)) → IsHonestDelivery result }
        ensures promises { (session : Session) (events : List WorldEvent) → Stands C.coding session self.new events → Promises C.coding session (after C.coding session events) }
    {
        keeps_every_promise::<C>();
        self.receive(which)
    }

    // Brings an acknowledgement back to the sender.
    fn take_ack(&mut self, which: u64) -> Result<HeardAck, Unsent>
        ensures answered { (session : Session) (w : WorldPast C.State) → IsWorld C.coding session self.old w → HappenedIn C.coding session self.new w (WorldEvent.Hears which) result (hear_answer C.coding session w which) }
        ensures refused { is_ack_refused result ≡ true → self.new ≡ self.old }
    {
        match at_number(self.acks.as_slice(), which) {
            Some(ack) => Ok(self.sender.heard(ack.as_slice(), self.moment)),
            None => Err(Unsent {
                number: which,
                last: self.acks.as_slice().len() as u64,
            }),
        }
    }

    /// Brings the acknowledgement of this number, counted from 1, back to the sender.
    ///
    /// # Errors
    ///
    /// Unsent exactly where no acknowledgement has this number. Where states that differ have names that differ, one is Heard, or
    /// is Old.
    pub fn hear(&mut self, which: u64) -> Result<HeardAck, Unsent>
        ensures answered { (session : Session) (events : List WorldEvent) → Stands C.coding session self.old events → Happened C.coding session self.new events (WorldEvent.Hears which) result (hear_answer C.coding session (after C.coding session events) which) }
        ensures refused { is_ack_refused result ≡ true → self.new ≡ self.old }
        ensures honest { (session : Session) (events : List WorldEvent) → Stands C.coding session self.old events → NamesDifferIn C.coding (after C.coding session (WorldEvent.Hears which ∷ events)) → IsHonestHearing result }
        ensures promises { (session : Session) (events : List WorldEvent) → Stands C.coding session self.new events → Promises C.coding session (after C.coding session events) }
    {
        keeps_every_promise::<C>();
        self.take_ack(which)
    }

    /// Hands out the ready frame of the least number, if one waits.
    pub fn take_ready(&mut self) -> Option<Ready<C>>
        ensures answered { (session : Session) (events : List WorldEvent) → Stands C.coding session self.old events → Happened C.coding session self.new events WorldEvent.TakesReady result (next_frame C.coding (after C.coding session events).receiver) }
        ensures refused { result ≡ None → self.new ≡ self.old }
        ensures promises { (session : Session) (events : List WorldEvent) → Stands C.coding session self.new events → Promises C.coding session (after C.coding session events) }
    {
        keeps_every_promise::<C>();
        self.receiver.take_ready()
    }

    /// Takes the decoding of a frame that this world handed out.
    ///
    /// Stranger where the frame was decoded before. Where states that differ have names that differ, it is neither Unfit nor
    /// Misnamed.
    pub fn decoded(&mut self, decoding: Decoding<C>) -> Done
        requires may { (session : Session) × ((events : List WorldEvent) × (Stands C.coding session self.old events × WasReady C.coding session events decoding.handed)) }
        ensures answered { (session : Session) (events : List WorldEvent) → Stands C.coding session self.old events → WasReady C.coding session events decoding.handed → Happened C.coding session self.new events (WorldEvent.Decodes decoding.handed.number (did_decode decoding.outcome)) result (done_answer C.coding session (after C.coding session events) decoding.handed.number (did_decode decoding.outcome)) }
        ensures refused { result ≡ Done.Stranger → self.new ≡ self.old }
        ensures honest { (session : Session) (events : List WorldEvent) → Stands C.coding session self.old events → WasReady C.coding session events decoding.handed → NamesDifferIn C.coding (after C.coding session (WorldEvent.Decodes decoding.handed.number (did_decode decoding.outcome) ∷ events)) → IsHonestDone result }
        ensures promises { (session : Session) (events : List WorldEvent) → Stands C.coding session self.new events → Promises C.coding session (after C.coding session events) }
    {
        keeps_every_promise::<C>();
        self.receiver.decoded(decoding)
    }

    /// Passes to this moment, in microseconds, or stays at a greater one; the moment after it.
    pub fn pass(&mut self, moment: u64) -> u64
        ensures answered { (session : Session) (events : List WorldEvent) → Stands C.coding session self.old events → Happened C.coding session self.new events (WorldEvent.Passes moment) result (max moment (after C.coding session events).moment) }
        ensures promises { (session : Session) (events : List WorldEvent) → Stands C.coding session self.new events → Promises C.coding session (after C.coding session events) }
    {
        keeps_every_promise::<C>();
        self.moment = moment.max(self.moment);
        self.moment
    }

    // What an event is answered: the answer of its call.
    fn happen(&mut self, event: Event<C>) -> Answer<C>
        requires may { (session : Session) × ((events : List WorldEvent) × (Stands C.coding session self.old events × May C.coding session events event)) }
        ensures answered { (session : Session) (events : List WorldEvent) → Stands C.coding session self.old events → May C.coding session events event → Stepped C.coding session self.new events event result }
        ensures refused { is_refused result ≡ true → self.new ≡ self.old }
        ensures memory { (session : Session) (events : List WorldEvent) → Stands C.coding session self.old events → result ≡ Answer.Memory → takes_memory (after C.coding session events) (event_of event) ≡ true }
    {
        match event {
            Event::Next(picture) => of_next(self.next_picture(picture)),
            Event::Take => Answer::Take(self.take_job()),
            Event::Report(report) => Answer::Report(self.report(report)),
            Event::Choose => of_choose(self.choose()),
            Event::Down(which) => of_deliver(self.deliver(which)),
            Event::Up(which) => of_hear(self.hear(which)),
            Event::Ready => Answer::Ready(self.take_ready()),
            Event::Decoded(decoding) => Answer::Decoded(self.decoded(decoding)),
            Event::Moment(moment) => Answer::Moment(self.pass(moment)),
        }
    }

    /// What happens next, and what it is answered: the call that the event names.
    ///
    /// Pictures have the session's size, and a report or a decoding is of what this world handed out. The answer is that
    /// of the end that is called, but that the datagrams of a choice go to the list of those sent. `Unsent` has the number
    /// that was named and the last one there is. A refusal changes nothing, nor does a question that finds no job or no frame,
    /// nor want of memory, which comes only where a picture is started, at a choice, and at a datagram that there is.
    pub fn step(&mut self, event: Event<C>) -> Answer<C>
        requires may { (session : Session) × ((events : List WorldEvent) × (Stands C.coding session self.old events × May C.coding session events event)) }
        ensures answered { (session : Session) (events : List WorldEvent) → Stands C.coding session self.old events → May C.coding session events event → Stepped C.coding session self.new events event result }
        ensures refused { is_refused result ≡ true → self.new ≡ self.old }
        ensures memory { (session : Session) (events : List WorldEvent) → Stands C.coding session self.old events → result ≡ Answer.Memory → takes_memory (after C.coding session events) (event_of event) ≡ true }
        ensures honest { (session : Session) (events : List WorldEvent) → Stands C.coding session self.old events → May C.coding session events event → NamesDifferIn C.coding (after C.coding session (event_of event ∷ events)) → IsHonest result }
        ensures kept { (session : Session) (events : List WorldEvent) → Stands C.coding session self.new events → NamesDifferIn C.coding (after C.coding session events) → Invariant C.coding session (after C.coding session events) }
        ensures promises { (session : Session) (events : List WorldEvent) → Stands C.coding session self.new events → Promises C.coding session (after C.coding session events) }
    {
        keeps_the_law::<C>();
        self.happen(event)
    }
}
