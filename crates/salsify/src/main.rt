//! The program: words and files of the system in, a text on standard output and a status out.
#![tactic(auto)]

ghost use Rattle.std.specs.Prelude.{◌≡◌, [], map, codes, string_bytes};
ghost use Rattle.std.specs.Option.{ForSome, ForNone};
ghost use Rattle.sal_io.specs.Calls.{PutGives};
ghost use Rattle.sal_io.specs.declared.whole.Put.{Put as PutData};
ghost use Rattle.sal_status.specs.declared.status.Status.{Status as StatusData};
ghost use Rattle.sal_status.specs.Numbers.{number_of};
ghost use Rattle.sal_app.specs.Printed.{Serves};

use sal_app::{Status, salsify};
use sal_base::Bytes;
use sal_io::{Host, Shelf, Sink, StdShelf, StdSink};
use sal_status::show;
use std::alloc::Global;
use std::env;
use std::process::ExitCode;
use std::sync::Wait;
use std::thread::Threads;

// The words after the program's name; None without memory.
fn words(rt: HostRuntime, alloc: Global) -> Option<Vec<String>> {
    let mut words = Vec::new(alloc);
    let Ok(args) = env::args(&rt) else {
        return None;
    };
    for word in args.skip(1) {
        if words.push(word).is_err() {
            return None;
        }
    }
    Some(words)
}

// Serves the words, prints the text of the status, and gives its number; without memory for the words it says that alone.
fn served<R: Threads + Wait + Sync, F: Shelf, K: Sink>(
    rt: &R,
    alloc: Global,
    words: Option<Vec<String>>,
    host: &mut Host<F, K>,
) -> u8
    ensures serves { ForSome words (λ ws. (s : StatusData) × ((result ≡ number_of s) × Serves (map string_bytes ws.items) (F.holds host.old.files) (F.pasts host.old.files) (F.pasts host.new.files) (F.faults host.old.files) (F.faults host.new.files) (K.held host.old.screen) (K.held host.new.screen) (K.faults host.old.screen) (K.faults host.new.screen) s)) }
    ensures lacks { ForNone words (result ≡ 15) }
    ensures says { ForNone words ((put : PutData) × PutGives (K.held host.old.screen) (K.held host.new.screen) put (codes "no memory\n")) }
    ensures untouched { ForNone words (host.new.files ≡ host.old.files) }
{
    match words {
        Some(words) => salsify(rt, alloc, &words, host).number(),
        None => {
            show(&mut host.screen, &[], Status::Memory);
            Status::Memory.number()
        }
    }
}

fn main(rt: HostRuntime) -> ExitCode {
    let alloc = rt.alloc();
    let mut host = Host {
        files: StdShelf::new(rt, alloc),
        screen: StdSink::new(Bytes::new(alloc), rt.stdout()),
    };
    ExitCode::from(served(&rt, alloc, words(rt, alloc), &mut host))
}
