//! A whole run: the script, the header, and the lines over the pictures.

ghost use Rattle.std.specs.Prelude.{is_some, ◌≡◌, ◌≤◌, length, false, None, Err, OnOk, IfOk};
ghost use Rattle.sal_io.specs.Calls.{HasCause};
ghost use Rattle.sal_y4m.specs.Head.{IsHead};
ghost use Rattle.sal_y4m.specs.Answers.{Counts};
ghost use Rattle.sal_app.specs.Stops.{of_script, of_input, of_run, IsNothing, LinesGive, HeadGives};
ghost use Rattle.sal_app.specs.Ends.{RunGives, AtEnd};

use crate::stop::Stop;
use sal_codec::Codec;
use sal_io::{Sink, Source};
use sal_run::{RunEnd, Summary, run_alone};
use sal_script::{Script, ScriptFault, read_script};
use sal_world::NoDiary;
use sal_y4m::{Reader, Writer, Y4mFault};
use std::alloc::Global;

// Why a run stops at a fault of its script.
fn script_stop(fault: ScriptFault) -> Stop
    ensures { result ≡ of_script fault }
{
    match fault {
        ScriptFault::Bad(line) => Stop::BadScript(line),
        ScriptFault::ReadFault => Stop::ScriptFault,
        ScriptFault::Memory => Stop::Memory,
    }
}

// Why a run stops at a fault of its input.
fn input_stop(fault: Y4mFault) -> Stop
    ensures { result ≡ of_input fault }
{
    match fault {
        Y4mFault::Bad(place, why) => Stop::BadInput(place, why),
        Y4mFault::ReadFault => Stop::InputFault,
        Y4mFault::Memory => Stop::Memory,
    }
}

// How a run over lines ends, of which nothing is written down.
fn run_stop(end: RunEnd) -> Result<Summary, Stop>
    ensures { result ≡ of_run end }
{
    match end {
        RunEnd::Ok(summary) => Ok(summary),
        RunEnd::BadInput(place, why) => Err(Stop::BadInput(place, why)),
        RunEnd::BadScript(line) => Err(Stop::BadScript(line)),
        RunEnd::ReadFault => Err(Stop::InputFault),
        RunEnd::WriteFault(_) => Err(Stop::WriteFault),
        RunEnd::TooLong => Err(Stop::TooLong),
        RunEnd::TooMany => Err(Stop::TooMany),
        RunEnd::Memory => Err(Stop::Memory),
    }
}

// Reads the script, and tests all its lines.
fn read_lines<T: Source>(alloc: Global, script: &mut T) -> Result<Script, Stop>
    ensures told { LinesGive (T.left script.old) (T.left script.new) result }
    ensures cause { HasCause (Err Stop.ScriptFault) (T.faults script.old) (T.faults script.new) result }
    ensures name { T.name script.new ≡ T.name script.old }
    ensures had { T.had script.new ≡ T.had script.old }
    ensures tells { is_some (T.left script.new) ≡ is_some (T.left script.old) }
{
    match read_script(alloc, script) {
        Ok(lines) => Ok(lines),
        Err(fault) => Err(script_stop(fault)),
    }
}

// Reads the header of the input.
fn read_head<S: Source>(pictures: &mut Reader<S>) -> Result<(), Stop>
    requires fresh { pictures.old.kept ≡ None }
    ensures told { HeadGives pictures.old.place (S.left pictures.old.source) (S.left pictures.new.source) pictures.new.head result }
    ensures legal { OnOk result (IsHead pictures.new.head) }
    ensures count { OnOk result (Counts pictures.old.place pictures.new.place (S.left pictures.old.source) (S.left pictures.new.source)) }
    ensures cause { HasCause (Err Stop.InputFault) (S.faults pictures.old.source) (S.faults pictures.new.source) result }
    ensures fresh { OnOk result (pictures.new.kept ≡ None) }
    ensures name { S.name pictures.new.source ≡ S.name pictures.old.source }
    ensures had { S.had pictures.new.source ≡ S.had pictures.old.source }
    ensures tells { is_some (S.left pictures.new.source) ≡ is_some (S.left pictures.old.source) }
{
    match pictures.open() {
        Ok(()) => Ok(()),
        Err(fault) => Err(input_stop(fault)),
    }
}

/// Reads a script whole and the input's header, and runs the lines over the pictures: what is shown is written.
///
/// # Errors
///
/// BadScript with the number of the first line that isn't in the grammar, that needs a picture where none is left, or that
/// names a number that wasn't sent; BadInput, TooMany and TooLong where the header, or a picture that a line or the end of
/// the script needs, isn't in the grammar or is one too many; a fault where something isn't read or written; Memory.
pub fn run_loop<C: Codec, S: Source, T: Source, K: Sink>(
    alloc: Global,
    codec: C,
    pictures: &mut Reader<S>,
    script: &mut T,
    out: &mut Writer<K>,
) -> Result<Summary, Stop>
    requires start { pictures.old.place ≡ 0 }
    requires fresh { pictures.old.kept ≡ None }
    requires open { out.old.failed ≡ false }
    requires nothing { IsNothing (K.held out.old.sink) }
    ensures gives { RunGives C.coding result (S.left pictures.old.source) (S.left pictures.new.source) (T.left script.old) (K.held out.new.sink) }
    ensures end { AtEnd result (S.left pictures.new.source) }
    ensures script_end { AtEnd result (T.left script.new) }
    ensures cause { HasCause (Err Stop.InputFault) (S.faults pictures.old.source) (S.faults pictures.new.source) result }
    ensures script_cause { HasCause (Err Stop.ScriptFault) (T.faults script.old) (T.faults script.new) result }
    ensures out_cause { HasCause (Err Stop.WriteFault) (K.faults out.old.sink) (K.faults out.new.sink) result }
    ensures name { S.name pictures.new.source ≡ S.name pictures.old.source }
    ensures had { S.had pictures.new.source ≡ S.had pictures.old.source }
    ensures tells { is_some (S.left pictures.new.source) ≡ is_some (S.left pictures.old.source) }
    ensures script_name { T.name script.new ≡ T.name script.old }
    ensures script_had { T.had script.new ≡ T.had script.old }
    ensures script_tells { is_some (T.left script.new) ≡ is_some (T.left script.old) }
    ensures out_name { K.name out.new.sink ≡ K.name out.old.sink }
    ensures out_tells { is_some (K.held out.new.sink) ≡ is_some (K.held out.old.sink) }
{
    let lines = match read_lines(alloc, script) {
        Ok(lines) => lines,
        Err(stop) => return Err(stop),
    };
    if let Err(stop) = read_head(pictures) {
        return Err(stop);
    }
    let end = run_alone(alloc, codec, pictures, &lines, out, &mut NoDiary);
    run_stop(end)
}
