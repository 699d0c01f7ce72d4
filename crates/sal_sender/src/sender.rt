//! The sender of a session: pictures, jobs, reports, choices and acknowledgements.

ghost use Rattle.std.specs.Prelude.{◌≡◌, ◌≤◌, ◌<◌, ◌+◌, ◌^◌, [], ◌∷◌, ◌++◌, true, false, IfOk, OnOk, OnErr, IfSome, None, Some, if◌then◌else◌};
ghost use Rattle.std.specs.Option.{option_map};
ghost use Rattle.sal_base.specs.declared.limits.TheConstants.{MAX_FRAMES};
ghost use Rattle.sal_codec.specs.Coding.{HasSides};
ghost use Rattle.sal_wire.specs.declared.layout.TheConstants.{MAX_FRAGMENTS};
ghost use Rattle.sal_sender.specs.Past.{Past, NextPicture, TakeJob, Report as ReportCall, Choose, Hear};
ghost use Rattle.sal_sender.specs.OneThread.{Session};
ghost use Rattle.sal_sender.specs.Promises.{SenderAnswers, SenderAnswered, SenderPromises};
ghost use Rattle.sal_sender.specs.Answers.{report_answer};
ghost use Rattle.sal_sender.specs.declared.choice.JobRole.TheVariants.{Spare};
ghost use Rattle.sal_sender.specs.declared.answers.Reported.TheVariants.{Stranger, Late};
ghost use Rattle.sal_sender.specs.declared.answers.Ignore.{Ignore as IgnoreData};
ghost use Rattle.sal_sender.specs.declared.answers.HeardAck.TheVariants.{Ignored};
ghost use Rattle.sal_sender.specs.Answers.{starts, sends, next_answer, waiting_jobs, IsLeastWaiting};
ghost use Rattle.sal_sender.specs.Choosing.{chosen, first_in};
ghost use Rattle.sal_sender.specs.Candidates.{queued};
ghost use Rattle.sal_wire.specs.Parsing.{parsed};
ghost use Rattle.sal_sender.specs.Hearing.{ack_answer_in, after_ack};
ghost use Rattle.std.specs.Arc.{arc_value};
ghost use Rattle.sal_sender.specs.Planned.{plan_of, job_count, coarse_q, work_from, queue_of, after_start};
ghost use Rattle.sal_sender.specs.Machine.{Machine, KeepsAllButOutstanding, IsOwnState, IsCandidate, IsSized};
ghost use Rattle.sal_y4m.specs.Head.{IsHead};
ghost use Rattle.sal_sender.specs.Stands.{SenderStands, work_of, work_at, IsWorkOfItsJob};
ghost use Rattle.sal_sender.specs.Sending.{lost_of, budget_in, floor_in, choice_from, with_choice, IsNext, IsPrepared, after_report, after_choice, after_nothing};
ghost use Rattle.sal_sender.specs.Selecting.{has_fit, size_in};
ghost use Rattle.sal_sender.specs.Answers.{closes};
ghost use Rattle.sal_sender.specs.declared.answers.Chosen.TheVariants.{Sent};

use crate::ack_state::{AckState, least};
use crate::answers::{Chosen, HeardAck, Ignore, Next, Reported, kept_or_late};
use crate::choice::{Choice, JobRole};
use crate::job::Job;
use crate::job_plan::{JobPlan, base_of, kind_of};
use crate::named_states::{first_wrong, newly_named};
use crate::open_picture::{Candidate, JobQueue, OpenPicture, keep};
use crate::outcome::Outcome;
use crate::outgoing_frame::{OutgoingFrame, has_sixteen_bytes, packetize};
use crate::outstanding::{grow, is_outstanding, mark};
use crate::prepared_frame::{PreparedFrame, with_choice};
use crate::report::Report;
use crate::selection::{found, sizes};
use crate::sent_frame::{SentFrame, hear, lost_in, pause, safe_in, sent_at};
use sal_base::{Kind, MAX_FRAMES, Memory, Name, Picture, WINDOW};
use sal_chain::Store;
use sal_codec::{Codec, keeps_the_law};
use sal_wire::{Ack, Datagram, read};
use sal_y4m::Head;
use std::alloc::Global;
use std::marker::Model;
use std::sync::Arc;

/// A sender of one session: the frames that it sent, which of their states are known to be held, and the open picture.
#[derive(Drop)]
pub struct Sender<C: Codec> {
    alloc: Global,
    session: u32,
    head: Head,
    initial: Arc<C::State>,
    store: Store<C>,
    sent_frames: Vec<SentFrame>,
    acks: AckState,
    open: Option<OpenPicture<Report<C>>>,
    waiting: JobQueue<Job<C>>,
    outstanding: Vec<bool>,
    tip: u32,
    floor: u32,
    sent: u32,
    pictures: u32,
    last_job: u32,
    q: u8,
}

impl<C: Codec> Model for Sender<C> {
    ghost use Rattle.std.specs.Prelude.{◌≡◌};
    ghost use Rattle.std.specs.Arc.{arc_value};
    ghost use Rattle.sal_wire.specs.Parsing.{parsed};
    ghost use Rattle.sal_sender.specs.Hearing.{ack_answer_in, after_ack};
    ghost use Rattle.sal_sender.specs.Machine.{Machine, IsWell};

    ghost Value = { Machine C.State };

    ghost view = { λ s. record { session = record { number = s.session; head = s.head }; store = s.store; sent_frames = s.sent_frames.items; acks = s.acks; open_picture = s.open; waiting = s.waiting; outstanding = s.outstanding.items; tip = s.tip; floor = s.floor; sent = s.sent; pictures = s.pictures; last_job = s.last_job; q = s.q } };

    ghost invariant = { λ s. IsWell C.coding (record { session = record { number = s.session; head = s.head }; store = s.store; sent_frames = s.sent_frames.items; acks = s.acks; open_picture = s.open; waiting = s.waiting; outstanding = s.outstanding.items; tip = s.tip; floor = s.floor; sent = s.sent; pictures = s.pictures; last_job = s.last_job; q = s.q }) × (arc_value s.initial ≡ C.coding.initial) };
}

impl<C: Codec> Sender<C> {
    /// A sender that was given no call yet.
    pub fn new(alloc: Global, codec: C, session: u32, head: Head) -> Result<Sender<C>, Memory>
        requires { IsHead head }
        ensures session { IfOk result (λ s. s.session ≡ record { number = session; head = head }) }
        ensures stands { IfOk result (λ s. SenderStands C.coding s []) }
    {
        let initial = Arc::new(alloc, codec.initial(alloc)?)?;
        let store = Store::new(alloc)?;
        let outstanding = vec![in alloc; false; 1]?;
        Ok(Sender {
            alloc,
            session,
            head,
            initial,
            store,
            sent_frames: Vec::new(alloc),
            acks: AckState::new(),
            open: None,
            waiting: JobQueue::new(),
            outstanding,
            tip: 0,
            floor: 1,
            sent: 0,
            pictures: 0,
            last_job: 0,
            q: 40,
        })
    }

    /// How many datagrams were sent, which is the last serial.
    pub fn datagrams(&self) -> u32
        ensures { result ≡ self.now.sent }
    {
        self.sent
    }

    /// The role of the job that is handed out next, if one waits.
    pub fn next_role(&self) -> Option<JobRole>
        ensures { result ≡ option_map (λ w. w.role) (first_in (queued self.now.waiting)) }
    {
        let job = self.waiting.first()?;
        Some(job.role())
    }

    /// Hands out the job of the least id that isn't handed out yet; None exactly where there is none.
    #[tactic(auto, using(crate::proofs::Sized::rest_sized, crate::proofs::Sized::first_sized))]
    pub fn take_job(&mut self) -> Option<Job<C>>
        ensures first { result ≡ first_in (queued self.old.waiting) }
        ensures answered { SenderAnswered C.coding self.old.session (SenderStands C.coding) self.old self.new (TakeJob (option_map (λ w. w.id) result)) }
        ensures waiting { (past : Past) → SenderStands C.coding self.old past → result ≡ option_map (work_of C.coding past) (first_in (waiting_jobs past)) }
        ensures known { (past : Past) → SenderStands C.coding self.old past → IfSome result (λ w. work_at C.coding past w.id ≡ Some w) }
        ensures least { (past : Past) → SenderStands C.coding self.old past → IfSome result (λ w. IsLeastWaiting past w.id) }
        ensures promises { (past : Past) → SenderStands C.coding self.old past → SenderPromises C.coding self.old.session (TakeJob (option_map (λ w. w.id) result) ∷ past) }
        ensures sized { IfSome result (IsSized self.old.session.head) }
        ensures refused { result ≡ None → self.new ≡ self.old }
        ensures session { self.new.session ≡ self.old.session }
    {
        let job = self.waiting.take()?;
        mark(&mut self.outstanding, job.id(), true);
        Some(job)
    }

    /// Takes the report of a job that this sender handed out. It is kept where the job's picture is open. A late one changes
    /// nothing of what was chosen: its job is outstanding no more, and that is all.
    #[tactic(auto, using(crate::proofs::Near::seats_reported))]
    pub fn report(&mut self, report: Report<C>) -> Reported
        requires size { HasSides self.old.session.head.width self.old.session.head.height report.work.samples }
        ensures answer { (past : Past) → SenderStands C.coding self.old past → result ≡ report_answer past report.work.id }
        ensures answered { (past : Past) → SenderStands C.coding self.old past → IsWorkOfItsJob C.coding past report.work → SenderAnswers C.coding self.old.session (ReportCall report.work.id report.gave result) past × SenderStands C.coding self.new (ReportCall report.work.id report.gave result ∷ past) }
        ensures late { result ≡ Late → KeepsAllButOutstanding self.old self.new }
        ensures promises { (past : Past) → SenderStands C.coding self.old past → SenderPromises C.coding self.old.session (ReportCall report.work.id report.gave result ∷ past) }
        ensures refused { result ≡ Stranger → self.new ≡ self.old }
        ensures after { self.new ≡ after_report self.old report result }
        ensures session { self.new.session ≡ self.old.session }
    {
        let id = report.id();
        if !is_outstanding(self.outstanding.as_slice(), id) {
            return Reported::Stranger;
        }
        mark(&mut self.outstanding, id, false);
        let is_open = keep(&mut self.open, id, report);
        kept_or_late(is_open)
    }

    // What an acknowledgement is to be answered.
    fn judge(&self, ack: &Ack) -> HeardAck
        ensures { result ≡ ack_answer_in self.now ack.now }
    {
        if ack.session != self.session {
            return HeardAck::Ignored(Ignore::Session);
        }
        if self.sent < ack.serial {
            return HeardAck::Ignored(Ignore::Serial(self.sent, ack.serial));
        }
        let held = ack.held.as_slice();
        if let Some(why) = first_wrong(&self.store, self.floor, self.tip, held) {
            return HeardAck::Ignored(why);
        }
        let numbers = newly_named(self.sent_frames.as_slice(), self.floor, held);
        if numbers.as_slice().is_empty() && ack.serial <= self.acks.heard {
            return HeardAck::Ignored(Ignore::Old);
        }
        HeardAck::Heard(numbers)
    }

    // Takes an acknowledgement, unless there is a cause against it.
    #[tactic(auto, using(crate::proofs::Near::linked_held))]
    fn take_ack(&mut self, ack: &Ack, moment: u64) -> HeardAck
        ensures answer { result ≡ ack_answer_in self.old ack.now }
        ensures after { self.new ≡ after_ack self.old ack.now moment result }
    {
        match self.judge(ack) {
            HeardAck::Heard(numbers) => {
                hear(&mut self.sent_frames, ack.held.as_slice());
                self.acks.take(ack.serial, ack.gap, moment);
                HeardAck::Heard(numbers)
            }
            ignored => ignored,
        }
    }

    /// Takes bytes that came, which may be an acknowledgement of this session.
    pub fn heard(&mut self, bytes: &[u8], moment: u64) -> HeardAck
        ensures answered { SenderAnswered C.coding self.old.session (SenderStands C.coding) self.old self.new (Hear (parsed bytes.now) moment result) }
        ensures promises { (past : Past) → SenderStands C.coding self.old past → SenderPromises C.coding self.old.session (Hear (parsed bytes.now) moment result ∷ past) }
        ensures refused { (why : IgnoreData) → result ≡ Ignored why → self.new ≡ self.old }
        ensures session { self.new.session ≡ self.old.session }
    {
        match read(bytes) {
            Ok(Datagram::Ack(ack)) => self.take_ack(&ack, moment),
            Ok(_) => HeardAck::Ignored(Ignore::Kind),
            Err(fault) => HeardAck::Ignored(Ignore::Wire(fault)),
        }
    }

    // What decides the jobs of the next picture.
    #[tactic(auto, using(crate::proofs::Starting::first_fits))]
    fn plan(&self) -> JobPlan
        ensures plan { result ≡ plan_of self.now }
        ensures first { result.first + 2 < 2 ^ 32 }
        ensures q { result.q ≤ 127 }
    {
        let sent_frames = self.sent_frames.as_slice();
        let safe = safe_in(sent_frames, self.tip);
        let is_full = self.tip != 0 && self.tip.saturating_sub(self.floor) + 1 == WINDOW;
        let base = base_of(
            is_full,
            lost_in(sent_frames, safe, self.acks.heard, self.tip),
            safe,
            self.tip,
        );
        JobPlan {
            first: self.last_job + 1,
            base,
            safe,
            has_spare: base == self.tip && base != safe,
            from_tip: base == self.tip,
            q: self.q,
        }
    }

    // A job of the next picture, from the state of a frame number, or from the initial one where that isn't kept.
    fn job(
        &self,
        id: u32,
        role: JobRole,
        source: u32,
        q: u8,
        picture: &Arc<Picture>,
    ) -> Result<Job<C>, Memory>
        requires size { HasSides self.now.session.head.width self.now.session.head.height (arc_value picture.now) }
        requires q { q ≤ 127 }
        ensures { IfOk result (λ j. j ≡ work_from C.coding self.now (arc_value picture.now) id role source q) }
    {
        let samples = Arc::try_clone(picture)?;
        let number = self.pictures + 1;
        keeps_the_law::<C>();
        match self.store.get(source) {
            Some((name, state)) => Ok(Job::new(
                id,
                number,
                role,
                q,
                Kind::Inter,
                Arc::try_clone(state)?,
                name,
                samples,
            )),
            None => Ok(Job::new(
                id,
                number,
                role,
                q,
                Kind::Key,
                Arc::try_clone(&self.initial)?,
                Name::ZERO,
                samples,
            )),
        }
    }

    // The spare job of the next picture, where there is one.
    fn spare_job(&self, plan: &JobPlan, picture: &Arc<Picture>) -> Result<Option<Job<C>>, Memory>
        requires size { HasSides self.now.session.head.width self.now.session.head.height (arc_value picture.now) }
        requires first { plan.now.first + 2 < 2 ^ 32 }
        requires q { plan.now.q ≤ 127 }
        ensures { IfOk result (λ o. o ≡ (if plan.now.has_spare then Some (work_from C.coding self.now (arc_value picture.now) (plan.now.first + 1) Spare plan.now.safe (coarse_q plan.now)) else None)) }
    {
        if !plan.has_spare {
            return Ok(None);
        }
        let job = self.job(
            plan.first + 1,
            JobRole::Spare,
            plan.safe,
            plan.coarse_q(),
            picture,
        )?;
        Ok(Some(job))
    }

    // The jobs of the next picture, none of them handed out.
    fn queue(&self, plan: &JobPlan, picture: &Arc<Picture>) -> Result<JobQueue<Job<C>>, Memory>
        requires size { HasSides self.now.session.head.width self.now.session.head.height (arc_value picture.now) }
        requires first { plan.now.first + 2 < 2 ^ 32 }
        requires q { plan.now.q ≤ 127 }
        ensures { IfOk result (λ w. w ≡ queue_of C.coding self.now (arc_value picture.now) plan.now) }
    {
        let coarse = self.job(
            plan.first,
            JobRole::Coarse,
            plan.base,
            plan.coarse_q(),
            picture,
        )?;
        let spare = self.spare_job(plan, picture)?;
        let fine = self.job(
            plan.fine_id(),
            JobRole::Fine,
            plan.base,
            plan.q.saturating_sub(4),
            picture,
        )?;
        Ok(JobQueue {
            coarse: Some(coarse),
            spare,
            fine: Some(fine),
        })
    }

    // Starts a picture, where none is open; all memory is taken first, and want of it changes nothing.
    fn begin(&mut self, picture: &Arc<Picture>, moment: u64) -> Result<u32, Memory>
        requires size { HasSides self.old.session.head.width self.old.session.head.height (arc_value picture.now) }
        requires few { self.old.pictures < MAX_FRAMES }
        ensures count { IfOk result (λ n. n ≡ job_count (plan_of self.old)) }
        ensures started { OnOk result (self.new ≡ after_start C.coding self.old (arc_value picture.now) moment) }
        ensures refused { OnErr result (self.new ≡ self.old) }
    {
        let plan = self.plan();
        let queue = self.queue(&plan, picture)?;
        let count = plan.count();
        grow(&mut self.outstanding, count)?;
        self.open = Some(plan.open_picture());
        self.waiting = queue;
        self.pictures += 1;
        self.last_job += count;
        self.acks.pass(moment);
        Ok(count)
    }

    /// Starts a picture of the session's size, whose jobs then wait to be handed out; all memory is taken here, after all tests.
    pub fn next_picture(&mut self, picture: Arc<Picture>, moment: u64) -> Next
        requires size { HasSides self.old.session.head.width self.old.session.head.height (arc_value picture) }
        ensures answered { SenderAnswered C.coding self.old.session (SenderStands C.coding) self.old self.new (NextPicture (arc_value picture) moment result) }
        ensures promises { (past : Past) → SenderStands C.coding self.old past → SenderPromises C.coding self.old.session (NextPicture (arc_value picture) moment result ∷ past) }
        ensures refused { starts result ≡ false → self.new ≡ self.old }
        ensures memory { (past : Past) → SenderStands C.coding self.old past → result ≡ Next.Memory → starts (next_answer past) ≡ true }
        ensures session { self.new.session ≡ self.old.session }
    {
        if self.open.is_some() {
            return Next::NotChosen(self.pictures);
        }
        if self.pictures >= MAX_FRAMES {
            return Next::Full;
        }
        match self.begin(&picture, moment) {
            Ok(count) => Next::Started(count),
            Err(_) => Next::Memory,
        }
    }

    // Whether a frame above the safe one on the tip's chain is taken for lost.
    fn is_lost(&self) -> bool
        ensures { result ≡ lost_of self.now }
    {
        let sent_frames = self.sent_frames.as_slice();
        lost_in(
            sent_frames,
            safe_in(sent_frames, self.tip),
            self.acks.heard,
            self.tip,
        )
    }

    // How many datagrams may be sent at this moment.
    fn budget(&self, at: u64) -> u32
        ensures { result ≡ budget_in self.now at }
    {
        let sent_at = sent_at(self.sent_frames.as_slice());
        self.acks.may_send(
            least(self.head.width, self.head.height),
            self.sent,
            sent_at,
            at,
        )
    }

    // The floor that a frame with this source sets.
    fn floor_after(&self, source: u32) -> u32
        ensures { result ≡ floor_in self.now source }
    {
        if source == 0 {
            return self.tip + 1;
        }
        let safe = safe_in(self.sent_frames.as_slice(), self.tip);
        self.floor.max(safe.min(source))
    }

    // The choice of this candidate, whose frame has so many datagrams.
    fn choice(&self, candidate: &Candidate<Report<C>>, count: u32, at: u64) -> Choice
        ensures { result ≡ choice_from self.now candidate.now count at }
    {
        Choice {
            number: self.tip + 1,
            picture: self.pictures,
            source: candidate.source,
            job: candidate.id,
            q: candidate.q,
            kind: kind_of(candidate.source),
            floor: self.floor_after(candidate.source),
            count,
            first_serial: self.sent + 1,
            moment: at,
        }
    }

    // Prepares the frame of a candidate that fits; all memory is taken here.
    fn prepare(
        &self,
        candidate: &Candidate<Report<C>>,
        at: u64,
    ) -> Result<PreparedFrame<Arc<C::State>>, Memory>
        requires started { self.now.tip < self.now.pictures }
        requires candidate { IsCandidate self.now.floor self.now.tip self.now.session.head candidate.now }
        requires fits { has_fit MAX_FRAGMENTS (size_in C.coding candidate.now) ≡ true }
        ensures { IfOk result (λ t. IsPrepared C.coding self.now candidate.now at t) }
    {
        let Some(report) = &candidate.report else {
            unreachable!()
        };
        let (target, outcome) = report.named_outcome();
        let Outcome::Frame(bytes, state, _) = outcome else {
            unreachable!()
        };
        keeps_the_law::<C>();
        let source = report.source_name();
        has_sixteen_bytes(source);
        has_sixteen_bytes(target);
        let choice = self.choice(candidate, report.count(), at);
        let outgoing = OutgoingFrame {
            session: self.session,
            head: self.head,
            choice,
            source,
            target,
            pause: pause(self.sent_frames.as_slice(), at),
            bytes: bytes.as_slice(),
        };
        Ok(PreparedFrame {
            choice,
            name: target,
            state: Arc::try_clone(state)?,
            sent_frames: with_choice(self.alloc, self.sent_frames.as_slice(), choice)?,
            burst: packetize(self.alloc, &outgoing)?,
        })
    }

    // Sends a prepared frame: keeps what belongs to it, and closes the picture.
    fn send(&mut self, prepared: PreparedFrame<Arc<C::State>>) -> Chosen
        requires next { IsNext self.old prepared.choice }
        requires own { IsOwnState C.coding self.old.session.head (record { number = prepared.choice.number; name = prepared.name; state = arc_value prepared.state }) }
        requires sent_frames { prepared.sent_frames.items ≡ with_choice self.old.sent_frames prepared.choice }
        ensures sent { result ≡ Sent prepared.choice prepared.burst }
        ensures after { self.new ≡ after_choice self.old prepared.choice prepared.name (arc_value prepared.state) }
    {
        let choice = prepared.choice;
        self.store.raise_floor(choice.floor);
        self.store.add(choice.number, prepared.name, prepared.state);
        self.sent_frames = prepared.sent_frames;
        self.acks.pass(choice.moment);
        self.open = None;
        self.tip = choice.number;
        self.floor = choice.floor;
        self.sent += choice.count;
        self.q = choice.q;
        Chosen::Sent(choice, prepared.burst)
    }

    // Closes a picture for which nothing fits.
    fn close(&mut self, moment: u64)
        ensures { self.new ≡ after_nothing self.old moment }
    {
        self.acks.pass(moment);
        self.open = None;
        self.q = (self.q + 8).min(127);
    }

    /// Chooses among the reports of the open picture, at a moment in microseconds: sends the first eligible frame that fits what may
    /// be sent now, or closes the picture where none fits. It waits for the report that is needed. Memory is taken only for a frame
    /// that is sent, and want of it changes nothing.
    pub fn choose(&mut self, moment: u64) -> Chosen
        ensures answered { SenderAnswered C.coding self.old.session (SenderStands C.coding) self.old self.new (Choose moment result) }
        ensures promises { (past : Past) → SenderStands C.coding self.old past → SenderPromises C.coding self.old.session (Choose moment result ∷ past) }
        ensures refused { closes result ≡ false → self.new ≡ self.old }
        ensures memory { (past : Past) → SenderStands C.coding self.old past → result ≡ Chosen.Memory → sends (chosen C.coding self.old.session past moment) ≡ true }
        ensures session { self.new.session ≡ self.old.session }
    {
        let Some(picture) = &self.open else {
            return Chosen::NoPicture;
        };
        let is_lost = picture.is_lost(self.is_lost());
        if let Some(id) = picture.missing(is_lost) {
            return Chosen::Waiting(id);
        }
        let at = self.acks.moment.max(moment);
        let budget = self.budget(at);
        let Some(candidate) = found(picture, is_lost, budget) else {
            let sizes = sizes(picture, is_lost);
            self.close(moment);
            return Chosen::Nothing(budget, sizes);
        };
        match self.prepare(candidate, at) {
            Ok(prepared) => self.send(prepared),
            Err(_) => Chosen::Memory,
        }
    }
}
