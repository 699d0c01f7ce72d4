//! The lines of a script over a clip.

ghost use Rattle.std.specs.Prelude.{is_some, ◌≡◌, ◌≢◌, ◌≤◌, length, [], ℕ, List, Option, false, None, Ok, Err, IfSome, IfOk, IfErr, OnOk};
ghost use Rattle.sal_io.specs.Calls.{HasCause};
ghost use Rattle.sal_y4m.specs.declared.head.Head.{Head as HeadData};
ghost use Rattle.sal_y4m.specs.Grammar.{head_text};
ghost use Rattle.sal_script.specs.Numbered.{Numbered};
ghost use Rattle.sal_y4m.specs.Head.{IsHead};
ghost use Rattle.sal_world.specs.Script.{begun};
ghost use Rattle.sal_run.specs.Ends.{RunGives, KeepsPromises, LeavesNothing, AtEnd};
ghost use Rattle.sal_run.specs.Stops.{end_of, run_end};
ghost use Rattle.sal_run.specs.Running.{IsAt, Opened};

use crate::end::{RunEnd, Summary, Which};
use crate::events::note;
use crate::input::{Feed, finish, most};
use crate::laws::every_run_keeps_its_promises;
use crate::play::Play;
use crate::script::lines;
use crate::stop::{RunStop, end_of};
use sal_codec::Codec;
use sal_io::{Sink, Source};
use sal_script::Script;
use sal_world::{Diary, DiaryFault, Line, rate_fits};
use sal_y4m::{Head, Reader, Writer};
use std::alloc::Global;

/// Writes the header.
fn open<K: Sink>(out: &mut Writer<K>, head: Head) -> Result<(), RunStop>
    requires open { out.old.failed ≡ false }
    ensures opened { Opened (K.held out.old.sink) (K.held out.new.sink) (head_text head) result }
    ensures open { OnOk result (out.new.failed ≡ false) }
    ensures out_cause { HasCause (Err RunStop.Out) (K.faults out.old.sink) (K.faults out.new.sink) result }
    ensures out_name { K.name out.new.sink ≡ K.name out.old.sink }
    ensures out_tells { is_some (K.held out.new.sink) ≡ is_some (K.held out.old.sink) }
{
    match out.open(head) {
        Ok(()) => Ok(()),
        Err(_) => Err(RunStop::Out),
    }
}

/// Begins a session: all memory that it needs first is taken, and then the header is written.
fn begin<C: Codec, K: Sink, J: Diary>(
    alloc: Global,
    codec: C,
    head: Head,
    out: &mut Writer<K>,
    journal: &mut J,
) -> Result<Play<C>, RunStop>
    requires head { IsHead head }
    requires open { out.old.failed ≡ false }
    requires nothing { IfSome (K.held out.old.sink) (λ xs. xs ≡ []) }
    ensures begun { IfOk result (λ p. IsAt C.coding head p.stage.world p.downs p.ups (K.held out.new.sink) (begun [])) }
    ensures stopped { (script : List Numbered) (before : ℕ) (i : Option (List ℕ)) → IfErr result (λ stop. RunGives C.coding head script J.gives before (end_of stop) i (K.held out.new.sink)) }
    ensures open { OnOk result (out.new.failed ≡ false) }
    ensures out_cause { HasCause (Err RunStop.Out) (K.faults out.old.sink) (K.faults out.new.sink) result }
    ensures journal_cause { HasCause (Err (RunStop.Diary DiaryFault.Failed)) (J.faults journal.old) (J.faults journal.new) result }
    ensures unread { result ≢ Err RunStop.ReadFault }
    ensures out_name { K.name out.new.sink ≡ K.name out.old.sink }
    ensures out_tells { is_some (K.held out.new.sink) ≡ is_some (K.held out.old.sink) }
{
    let play = Play::new(alloc, codec, head)?;
    open(out, head)?;
    note(journal, Some(Line::Head(head)))?;
    Ok(play)
}

/// Runs the lines, and reads the input to its end.
fn play_all<C: Codec, S: Source, K: Sink, J: Diary>(
    play: &mut Play<C>,
    script: &Script,
    pictures: &mut Reader<S>,
    out: &mut Writer<K>,
    journal: &mut J,
) -> Result<Summary, RunStop>
    requires fresh { pictures.old.kept ≡ None }
    requires legal { IsHead pictures.old.head }
    requires open { out.old.failed ≡ false }
    requires runs { IsAt C.coding pictures.old.head play.old.stage.world play.old.downs play.old.ups (K.held out.old.sink) (begun []) }
    ensures gives { RunGives C.coding pictures.old.head script.now J.gives pictures.old.place (run_end result) (S.left pictures.old.source) (K.held out.new.sink) }
    ensures end { OnOk result (IfSome (S.left pictures.new.source) (λ xs. xs ≡ [])) }
    ensures cause { HasCause (Err RunStop.ReadFault) (S.faults pictures.old.source) (S.faults pictures.new.source) result }
    ensures out_cause { HasCause (Err RunStop.Out) (K.faults out.old.sink) (K.faults out.new.sink) result }
    ensures journal_cause { HasCause (Err (RunStop.Diary DiaryFault.Failed)) (J.faults journal.old) (J.faults journal.new) result }
    ensures name { S.name pictures.new.source ≡ S.name pictures.old.source }
    ensures had { S.had pictures.new.source ≡ S.had pictures.old.source }
    ensures tells { is_some (S.left pictures.new.source) ≡ is_some (S.left pictures.old.source) }
    ensures out_name { K.name out.new.sink ≡ K.name out.old.sink }
    ensures out_tells { is_some (K.held out.new.sink) ≡ is_some (K.held out.old.sink) }
{
    let alloc = play.stage.alloc;
    let mut feed = Feed {
        taken: 0,
        room: most(pictures.head()),
    };
    let said = script.lines();
    lines(play, said, pictures, &mut feed, out, journal)?;
    finish(alloc, pictures, &mut feed)?;
    note(journal, Some(Line::End))?;
    Ok(play.stage.world.summary())
}

/// Begins a session and runs it.
fn run<C: Codec, S: Source, K: Sink, J: Diary>(
    alloc: Global,
    codec: C,
    pictures: &mut Reader<S>,
    script: &Script,
    out: &mut Writer<K>,
    journal: &mut J,
) -> Result<Summary, RunStop>
    requires fresh { pictures.old.kept ≡ None }
    requires legal { IsHead pictures.old.head }
    requires open { out.old.failed ≡ false }
    requires nothing { IfSome (K.held out.old.sink) (λ xs. xs ≡ []) }
    ensures gives { RunGives C.coding pictures.old.head script.now J.gives pictures.old.place (run_end result) (S.left pictures.old.source) (K.held out.new.sink) }
    ensures end { OnOk result (IfSome (S.left pictures.new.source) (λ xs. xs ≡ [])) }
    ensures cause { HasCause (Err RunStop.ReadFault) (S.faults pictures.old.source) (S.faults pictures.new.source) result }
    ensures out_cause { HasCause (Err RunStop.Out) (K.faults out.old.sink) (K.faults out.new.sink) result }
    ensures journal_cause { HasCause (Err (RunStop.Diary DiaryFault.Failed)) (J.faults journal.old) (J.faults journal.new) result }
    ensures name { S.name pictures.new.source ≡ S.name pictures.old.source }
    ensures had { S.had pictures.new.source ≡ S.had pictures.old.source }
    ensures tells { is_some (S.left pictures.new.source) ≡ is_some (S.left pictures.old.source) }
    ensures out_name { K.name out.new.sink ≡ K.name out.old.sink }
    ensures out_tells { is_some (K.held out.new.sink) ≡ is_some (K.held out.old.sink) }
{
    let mut play = begin(alloc, codec, pictures.head(), out, journal)?;
    play_all(&mut play, script, pictures, out, journal)
}

/// Runs the lines of a script over the pictures of a reader that was opened: both ends stand in one world, what is shown
/// is written, and each thing that happens is given to the journal as a line.
///
/// # Errors
///
/// BadScript with the number of the first line that needs a picture where none is left, or names a number that wasn't sent;
/// BadInput, TooMany and TooLong where a picture that a line or the end of the script needs isn't in the grammar or is one
/// too many; ReadFault, WriteFault and TooLong where a picture isn't read or something isn't written; Memory.
pub fn run_alone<C: Codec, S: Source, K: Sink, J: Diary>(
    alloc: Global,
    codec: C,
    pictures: &mut Reader<S>,
    script: &Script,
    out: &mut Writer<K>,
    journal: &mut J,
) -> RunEnd
    requires fresh { pictures.old.kept ≡ None }
    requires legal { IsHead pictures.old.head }
    requires open { out.old.failed ≡ false }
    requires nothing { IfSome (K.held out.old.sink) (λ xs. xs ≡ []) }
    ensures gives { RunGives C.coding pictures.old.head script.now J.gives pictures.old.place result (S.left pictures.old.source) (K.held out.new.sink) }
    ensures promises { IfSome (S.left pictures.old.source) (KeepsPromises C.coding pictures.old.head script.now) }
    ensures leaves { IfSome (S.left pictures.old.source) (LeavesNothing C.coding pictures.old.head script.now) }
    ensures end { AtEnd result (S.left pictures.new.source) }
    ensures cause { HasCause RunEnd.ReadFault (S.faults pictures.old.source) (S.faults pictures.new.source) result }
    ensures out_cause { HasCause (RunEnd.WriteFault Which.Out) (K.faults out.old.sink) (K.faults out.new.sink) result }
    ensures journal_cause { HasCause (RunEnd.WriteFault Which.Journal) (J.faults journal.old) (J.faults journal.new) result }
    ensures name { S.name pictures.new.source ≡ S.name pictures.old.source }
    ensures had { S.had pictures.new.source ≡ S.had pictures.old.source }
    ensures tells { is_some (S.left pictures.new.source) ≡ is_some (S.left pictures.old.source) }
    ensures out_name { K.name out.new.sink ≡ K.name out.old.sink }
    ensures out_tells { is_some (K.held out.new.sink) ≡ is_some (K.held out.old.sink) }
{
    every_run_keeps_its_promises::<C>();
    rate_fits(pictures.head());
    match run(alloc, codec, pictures, script, out, journal) {
        Ok(summary) => RunEnd::Ok(summary),
        Err(stop) => end_of(stop),
    }
}
