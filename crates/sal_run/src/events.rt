//! The events of a run, each with its line in the journal.

ghost use Rattle.std.specs.Prelude.{◌≡◌, ◌≢◌, is_some, true, false, not, ℕ, List, Option, IsSome, IfOk, OnOk, Some, Ok, Err};
ghost use Rattle.std.specs.Arc.{arc_value};
ghost use Rattle.sal_io.specs.Calls.{HasCause};
ghost use Rattle.sal_y4m.specs.declared.head.Head.{Head as HeadData};
ghost use Rattle.sal_sender.specs.JobWork.{encoded, given};
ghost use Rattle.sal_world.specs.World.{WorldEvent};
ghost use Rattle.sal_world.specs.Promises.{HasSize};
ghost use Rattle.sal_world.specs.Answers.{did_decode};
ghost use Rattle.sal_world.specs.HandedOut.{next_job, next_frame};
ghost use Rattle.sal_world.specs.Stands.{WasHandedOut, WasReady};
ghost use Rattle.sal_world.specs.Script.{Run, with_event};
ghost use Rattle.sal_run.specs.Loop.{session_of};
ghost use Rattle.sal_run.specs.Running.{IsNoted, IsRunning, Goes, Shows, text_of};

use crate::counted::Counted;
use crate::stop::RunStop;
use sal_base::Picture;
use sal_codec::Codec;
use sal_io::Sink;
use sal_receiver::{DecodeOutcome, Decoding, Delivered, Done, Ready};
use sal_sender::{Job, Next, Report, Reported};
use sal_world::{
    ChooseAnswer, Diary, DiaryFault, Line, Unsent, choice_line, decoded_line, down_line,
    ready_line, size_of_report, start_line, up_line,
};
use sal_y4m::Writer;
use std::sync::Arc;

// Gives a line to the journal, where there is one.
pub(crate) fn note<J: Diary>(journal: &mut J, line: Option<Line>) -> Result<(), RunStop>
    ensures gives { IsNoted J.gives result }
    ensures cause { HasCause (Err (RunStop.Diary DiaryFault.Failed)) (J.faults journal.old) (J.faults journal.new) result }
    ensures never { result ≢ Err RunStop.Out }
{
    let Some(line) = line else {
        return Ok(());
    };
    match journal.line(&line) {
        Ok(()) => Ok(()),
        Err(fault) => Err(RunStop::Diary(fault)),
    }
}

// The picture of a number is started.
pub(crate) fn start<C: Codec, J: Diary>(
    world: &mut Counted<C>,
    number: u32,
    picture: Arc<Picture>,
    journal: &mut J,
) -> Result<(), RunStop>
    requires runs { (head : HeadData) × ((r : Run C.State) × ((held : Option (List ℕ)) × (IsRunning C.coding head world.old held r × HasSize (session_of head) (arc_value picture)))) }
    ensures goes { (head : HeadData) (r : Run C.State) (held : Option (List ℕ)) → IsRunning C.coding head world.old held r → HasSize (session_of head) (arc_value picture) → Goes C.coding head J.gives world.new held (with_event C.coding (session_of head) (WorldEvent.Starts (arc_value picture)) r) result }
    ensures journal_cause { HasCause (Err (RunStop.Diary DiaryFault.Failed)) (J.faults journal.old) (J.faults journal.new) result }
    ensures never { result ≢ Err RunStop.Out }
{
    match world.world.next_picture(picture) {
        Next::Memory => Err(RunStop::Memory),
        answer => {
            world.counts.start(answer);
            note(journal, start_line(number, answer))
        }
    }
}

// The next job is handed out, which waits.
pub(crate) fn take<C: Codec, J: Diary>(
    world: &mut Counted<C>,
    journal: &mut J,
) -> Result<Job<C>, RunStop>
    requires runs { (head : HeadData) × ((r : Run C.State) × ((held : Option (List ℕ)) × (IsRunning C.coding head world.old held r × IsSome (next_job C.coding r.world.sender)))) }
    ensures goes { (head : HeadData) (r : Run C.State) (held : Option (List ℕ)) → IsRunning C.coding head world.old held r → Goes C.coding head J.gives world.new held (with_event C.coding (session_of head) WorldEvent.TakesJob r) result }
    ensures job { (head : HeadData) (r : Run C.State) (held : Option (List ℕ)) → IsRunning C.coding head world.old held r → IfOk result (λ job. next_job C.coding r.world.sender ≡ Some job) }
    ensures journal_cause { HasCause (Err (RunStop.Diary DiaryFault.Failed)) (J.faults journal.old) (J.faults journal.new) result }
    ensures never { result ≢ Err RunStop.Out }
{
    let job = world.world.take_job().unwrap();
    note(journal, Some(Line::Take(job.id(), job.role())))?;
    Ok(job)
}

// Whether a report came after the choice.
fn is_late(answer: Reported) -> bool {
    matches!(answer, Reported::Late)
}

// A job that was handed out is reported.
pub(crate) fn report<C: Codec, J: Diary>(
    world: &mut Counted<C>,
    report: Report<C>,
    journal: &mut J,
) -> Result<(), RunStop>
    requires runs { (head : HeadData) × ((r : Run C.State) × ((held : Option (List ℕ)) × (IsRunning C.coding head world.old held r × WasHandedOut C.coding (session_of head) r.events report.work))) }
    ensures goes { (head : HeadData) (r : Run C.State) (held : Option (List ℕ)) → IsRunning C.coding head world.old held r → WasHandedOut C.coding (session_of head) r.events report.work → Goes C.coding head J.gives world.new held (with_event C.coding (session_of head) (WorldEvent.Reports report.work.id (given (encoded C.coding report.work))) r) result }
    ensures journal_cause { HasCause (Err (RunStop.Diary DiaryFault.Failed)) (J.faults journal.old) (J.faults journal.new) result }
    ensures never { result ≢ Err RunStop.Out }
{
    let id = report.id();
    let Some(size) = size_of_report(&report) else {
        return Err(RunStop::Memory);
    };
    let answer = world.world.report(report);
    note(journal, Some(Line::Report(id, size, is_late(answer))))
}

// One of the reports is chosen.
pub(crate) fn choose<C: Codec, J: Diary>(
    world: &mut Counted<C>,
    journal: &mut J,
) -> Result<(), RunStop>
    requires runs { (head : HeadData) × ((r : Run C.State) × ((held : Option (List ℕ)) × IsRunning C.coding head world.old held r)) }
    ensures goes { (head : HeadData) (r : Run C.State) (held : Option (List ℕ)) → IsRunning C.coding head world.old held r → Goes C.coding head J.gives world.new held (with_event C.coding (session_of head) WorldEvent.Chooses r) result }
    ensures journal_cause { HasCause (Err (RunStop.Diary DiaryFault.Failed)) (J.faults journal.old) (J.faults journal.new) result }
    ensures never { result ≢ Err RunStop.Out }
{
    match world.world.choose() {
        ChooseAnswer::Memory => Err(RunStop::Memory),
        answer => {
            world.counts.choose(&answer);
            note(journal, choice_line(answer))
        }
    }
}

// Whether there was no memory for a datagram.
fn is_memory(answer: &Result<Delivered, Unsent>) -> bool
    ensures { result ≡ false → answer.now ≢ Ok Delivered.Memory }
{
    matches!(answer, Ok(Delivered::Memory))
}

// The datagram of a number comes to the receiver.
pub(crate) fn deliver<C: Codec, J: Diary>(
    world: &mut Counted<C>,
    which: u32,
    journal: &mut J,
) -> Result<(), RunStop>
    requires runs { (head : HeadData) × ((r : Run C.State) × ((held : Option (List ℕ)) × IsRunning C.coding head world.old held r)) }
    ensures goes { (head : HeadData) (r : Run C.State) (held : Option (List ℕ)) → IsRunning C.coding head world.old held r → Goes C.coding head J.gives world.new held (with_event C.coding (session_of head) (WorldEvent.Delivers which) r) result }
    ensures journal_cause { HasCause (Err (RunStop.Diary DiaryFault.Failed)) (J.faults journal.old) (J.faults journal.new) result }
    ensures never { result ≢ Err RunStop.Out }
{
    let answer = world.world.deliver(which);
    if is_memory(&answer) {
        return Err(RunStop::Memory);
    }
    note(journal, down_line(which, &answer))
}

// The acknowledgement of a number comes back to the sender.
pub(crate) fn hear<C: Codec, J: Diary>(
    world: &mut Counted<C>,
    which: u64,
    journal: &mut J,
) -> Result<(), RunStop>
    requires runs { (head : HeadData) × ((r : Run C.State) × ((held : Option (List ℕ)) × IsRunning C.coding head world.old held r)) }
    ensures goes { (head : HeadData) (r : Run C.State) (held : Option (List ℕ)) → IsRunning C.coding head world.old held r → Goes C.coding head J.gives world.new held (with_event C.coding (session_of head) (WorldEvent.Hears which) r) result }
    ensures journal_cause { HasCause (Err (RunStop.Diary DiaryFault.Failed)) (J.faults journal.old) (J.faults journal.new) result }
    ensures never { result ≢ Err RunStop.Out }
{
    let line = up_line(which, &world.world.hear(which));
    note(journal, line)
}

// A moment comes.
pub(crate) fn pass<C: Codec, J: Diary>(
    world: &mut Counted<C>,
    moment: u64,
    journal: &mut J,
) -> Result<(), RunStop>
    requires runs { (head : HeadData) × ((r : Run C.State) × ((held : Option (List ℕ)) × IsRunning C.coding head world.old held r)) }
    ensures goes { (head : HeadData) (r : Run C.State) (held : Option (List ℕ)) → IsRunning C.coding head world.old held r → Goes C.coding head J.gives world.new held (with_event C.coding (session_of head) (WorldEvent.Passes moment) r) result }
    ensures journal_cause { HasCause (Err (RunStop.Diary DiaryFault.Failed)) (J.faults journal.old) (J.faults journal.new) result }
    ensures never { result ≢ Err RunStop.Out }
{
    let now = world.world.pass(moment);
    note(journal, Some(Line::Moment(now)))
}

// The next ready frame is handed out, if there is one.
pub(crate) fn ready<C: Codec, J: Diary>(
    world: &mut Counted<C>,
    journal: &mut J,
) -> Result<Option<Ready<C>>, RunStop>
    requires runs { (head : HeadData) × ((r : Run C.State) × ((held : Option (List ℕ)) × IsRunning C.coding head world.old held r)) }
    ensures goes { (head : HeadData) (r : Run C.State) (held : Option (List ℕ)) → IsRunning C.coding head world.old held r → Goes C.coding head J.gives world.new held (with_event C.coding (session_of head) WorldEvent.TakesReady r) result }
    ensures frame { (head : HeadData) (r : Run C.State) (held : Option (List ℕ)) → IsRunning C.coding head world.old held r → IfOk result (λ frame. next_frame C.coding r.world.receiver ≡ frame) }
    ensures journal_cause { HasCause (Err (RunStop.Diary DiaryFault.Failed)) (J.faults journal.old) (J.faults journal.new) result }
    ensures never { result ≢ Err RunStop.Out }
{
    let frame = world.world.take_ready();
    note(journal, ready_line(&frame))?;
    Ok(frame)
}

// Whether there was no memory for a decoding.
fn lacked_memory<C: Codec>(decoding: &Decoding<C>) -> bool
    ensures { did_decode decoding.now.outcome ≡ not result }
{
    matches!(decoding.outcome(), DecodeOutcome::NoMemory)
}

// Writes the picture that is shown, if one is, after its line.
fn show<K: Sink, J: Diary>(done: &Done, out: &mut Writer<K>, journal: &mut J) -> Result<(), RunStop>
    requires open { out.old.failed ≡ false }
    ensures shows { Shows J.gives (K.held out.old.sink) (K.held out.new.sink) (text_of done.now) result }
    ensures open { OnOk result (out.new.failed ≡ false) }
    ensures out_cause { HasCause (Err RunStop.Out) (K.faults out.old.sink) (K.faults out.new.sink) result }
    ensures journal_cause { HasCause (Err (RunStop.Diary DiaryFault.Failed)) (J.faults journal.old) (J.faults journal.new) result }
    ensures out_name { K.name out.new.sink ≡ K.name out.old.sink }
    ensures out_tells { is_some (K.held out.new.sink) ≡ is_some (K.held out.old.sink) }
{
    note(journal, decoded_line(done))?;
    let Done::Show(_, picture) = done else {
        return Ok(());
    };
    match out.put(picture) {
        Ok(()) => Ok(()),
        Err(_) => Err(RunStop::Out),
    }
}

// A frame that was handed out was decoded, and is shown unless a number at least as great was.
pub(crate) fn decoded<C: Codec, K: Sink, J: Diary>(
    world: &mut Counted<C>,
    decoding: Decoding<C>,
    out: &mut Writer<K>,
    journal: &mut J,
) -> Result<(), RunStop>
    requires open { out.old.failed ≡ false }
    requires runs { (head : HeadData) × ((r : Run C.State) × (IsRunning C.coding head world.old (K.held out.old.sink) r × WasReady C.coding (session_of head) r.events decoding.handed)) }
    ensures goes { (head : HeadData) (r : Run C.State) → IsRunning C.coding head world.old (K.held out.old.sink) r → WasReady C.coding (session_of head) r.events decoding.handed → Goes C.coding head J.gives world.new (K.held out.new.sink) (with_event C.coding (session_of head) (WorldEvent.Decodes decoding.handed.number true) r) result }
    ensures open { OnOk result (out.new.failed ≡ false) }
    ensures out_cause { HasCause (Err RunStop.Out) (K.faults out.old.sink) (K.faults out.new.sink) result }
    ensures journal_cause { HasCause (Err (RunStop.Diary DiaryFault.Failed)) (J.faults journal.old) (J.faults journal.new) result }
    ensures out_name { K.name out.new.sink ≡ K.name out.old.sink }
    ensures out_tells { is_some (K.held out.new.sink) ≡ is_some (K.held out.old.sink) }
{
    if lacked_memory(&decoding) {
        return Err(RunStop::Memory);
    }
    let done = world.world.decoded(decoding);
    world.counts.show(&done);
    show(&done, out, journal)
}
