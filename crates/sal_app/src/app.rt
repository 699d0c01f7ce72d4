//! The top call: words, files, and the status.

ghost use Rattle.std.specs.Prelude.{is_some, ◌≡◌, ◌≤◌, ◌↔◌, IsTrue, map, codes, string_bytes};
ghost use Rattle.sal_app.specs.Top.{LoopAnswers, Answers, IsComplete, Promises, StatusOf, Unopened};
ghost use Rattle.sal_app.specs.Printed.{after_printing, Serves};

use crate::looping::run_loop;
use crate::stop::Stop;
use sal_codec::Plain;
use sal_io::{Host, Put, Shelf, ShelfFault, Sink};
use sal_run::{Summary, every_run_keeps_its_promises};
use sal_status::{Named, Shows, Status, show};
use sal_y4m::{Reader, Writer};
use std::alloc::Global;
use std::sync::Wait;
use std::thread::Threads;

// The words that name IN, SCRIPT and OUT.
const INPUT: Named = Named::Word(1);

const SCRIPT: Named = Named::Word(2);

const OUTPUT: Named = Named::Word(3);

// The status of a file that wasn't opened.
fn unopened(fault: ShelfFault, name: Named) -> Status
    ensures { Unopened fault name result }
{
    match fault {
        ShelfFault::Failed => Status::OpenFault(name),
        ShelfFault::Memory => Status::Memory,
    }
}

// The status of a run.
fn status_of(end: Result<Summary, Stop>) -> Status
    ensures { StatusOf end result }
{
    match end {
        Ok(summary) => Status::Ok(Shows::Loop(summary)),
        Err(Stop::BadInput(place, why)) => Status::BadInput(INPUT, place, why),
        Err(Stop::BadScript(line)) => Status::BadScript(line),
        Err(Stop::InputFault) => Status::ReadFault(INPUT),
        Err(Stop::ScriptFault) => Status::ReadFault(SCRIPT),
        Err(Stop::WriteFault) => Status::WriteFault(OUTPUT),
        Err(Stop::TooLong) => Status::TooLong,
        Err(Stop::TooMany) => Status::TooMany,
        Err(Stop::Memory) => Status::Memory,
    }
}

// Opens the three files in the order of the words, runs `loop`, and shuts them in that order.
fn run_files<F: Shelf>(
    alloc: Global,
    input: &str,
    script: &str,
    output: &str,
    files: &mut F,
) -> Status
    ensures answers { LoopAnswers input.now script.now output.now (F.holds files.old) (F.pasts files.old) (F.pasts files.new) (F.faults files.old) (F.faults files.new) result }
    ensures later { F.faults files.old ≤ F.faults files.new }
    ensures holds { F.holds files.new ≡ F.holds files.old }
    ensures spare { F.spare files.new ≡ F.spare files.old }
{
    let source = match files.open(alloc, input) {
        Ok(source) => source,
        Err(fault) => return unopened(fault, INPUT),
    };
    let mut lines = match files.open(alloc, script) {
        Ok(lines) => lines,
        Err(fault) => {
            files.shut_in(source);
            return unopened(fault, SCRIPT);
        }
    };
    let sink = match files.create(alloc, output) {
        Ok(sink) => sink,
        Err(fault) => {
            files.shut_in(source);
            files.shut_in(lines);
            return unopened(fault, OUTPUT);
        }
    };
    let mut pictures = Reader::new(source);
    let mut out = Writer::new(sink);
    let end = run_loop(alloc, Plain, &mut pictures, &mut lines, &mut out);
    files.shut_in(pictures.into_source());
    files.shut_in(lines);
    files.shut_out(out.into_sink());
    status_of(end)
}

// Whether a word is the command.
fn is_loop(word: &str) -> bool
    ensures { IsTrue result ↔ (word.now ≡ codes "loop") }
{
    word == "loop"
}

// Serves the words, and prints nothing.
fn serve<F: Shelf>(alloc: Global, words: &[String], files: &mut F) -> Status
    ensures answers { Answers (map string_bytes words.now) (F.holds files.old) (F.pasts files.old) (F.pasts files.new) (F.faults files.old) (F.faults files.new) result }
    ensures promises { Promises (map string_bytes words.now) (F.holds files.old) }
    ensures later { F.faults files.old ≤ F.faults files.new }
    ensures holds { F.holds files.new ≡ F.holds files.old }
    ensures spare { F.spare files.new ≡ F.spare files.old }
{
    every_run_keeps_its_promises::<Plain>();
    let [command, input, script, output] = words else {
        return Status::Usage;
    };
    let known = is_loop(command.as_str());
    if !known {
        return Status::Usage;
    }
    run_files(
        alloc,
        input.as_str(),
        script.as_str(),
        output.as_str(),
        files,
    )
}

// The status after its text was printed, or wasn't.
fn printed(status: Status, put: Put) -> Status
    ensures { result ≡ after_printing put status }
{
    match (status, put) {
        (Status::Ok(_), Put::Failed) => Status::WriteFault(Named::Screen),
        (status, _) => status,
    }
}

/// Serves `loop IN SCRIPT OUT`, prints the text of the status, and always returns. The words are those after the program's name. All
/// that was opened is shut, in the order of opening, before the call answers. Where the text can't be printed, Ok becomes
/// WriteFault of the screen, and no other status changes.
pub fn salsify_alone<F: Shelf, K: Sink>(
    alloc: Global,
    words: &[String],
    host: &mut Host<F, K>,
) -> Status
    ensures serves { Serves (map string_bytes words.now) (F.holds host.old.files) (F.pasts host.old.files) (F.pasts host.new.files) (F.faults host.old.files) (F.faults host.new.files) (K.held host.old.screen) (K.held host.new.screen) (K.faults host.old.screen) (K.faults host.new.screen) result }
    ensures complete { IsComplete (map string_bytes words.now) (F.holds host.old.files) (F.pasts host.old.files) (F.pasts host.new.files) (F.faults host.old.files) (F.faults host.new.files) (K.faults host.old.screen) (K.faults host.new.screen) result }
    ensures promises { Promises (map string_bytes words.now) (F.holds host.old.files) }
    ensures later { F.faults host.old.files ≤ F.faults host.new.files }
    ensures holds { F.holds host.new.files ≡ F.holds host.old.files }
    ensures spare { F.spare host.new.files ≡ F.spare host.old.files }
    ensures screen_later { K.faults host.old.screen ≤ K.faults host.new.screen }
    ensures screen_name { K.name host.new.screen ≡ K.name host.old.screen }
    ensures screen_tells { is_some (K.held host.new.screen) ≡ is_some (K.held host.old.screen) }
{
    let status = serve(alloc, words, &mut host.files);
    let put = show(&mut host.screen, words, status);
    printed(status, put)
}

/// Serves what `salsify_alone` serves, with threads at hand.
pub fn salsify<R: Threads + Wait + Sync, F: Shelf, K: Sink>(
    _rt: &R,
    alloc: Global,
    words: &[String],
    host: &mut Host<F, K>,
) -> Status
    ensures serves { Serves (map string_bytes words.now) (F.holds host.old.files) (F.pasts host.old.files) (F.pasts host.new.files) (F.faults host.old.files) (F.faults host.new.files) (K.held host.old.screen) (K.held host.new.screen) (K.faults host.old.screen) (K.faults host.new.screen) result }
    ensures complete { IsComplete (map string_bytes words.now) (F.holds host.old.files) (F.pasts host.old.files) (F.pasts host.new.files) (F.faults host.old.files) (F.faults host.new.files) (K.faults host.old.screen) (K.faults host.new.screen) result }
    ensures promises { Promises (map string_bytes words.now) (F.holds host.old.files) }
    ensures later { F.faults host.old.files ≤ F.faults host.new.files }
    ensures holds { F.holds host.new.files ≡ F.holds host.old.files }
    ensures spare { F.spare host.new.files ≡ F.spare host.old.files }
    ensures screen_later { K.faults host.old.screen ≤ K.faults host.new.screen }
    ensures screen_name { K.name host.new.screen ≡ K.name host.old.screen }
    ensures screen_tells { is_some (K.held host.new.screen) ≡ is_some (K.held host.old.screen) }
{
    salsify_alone(alloc, words, host)
}
