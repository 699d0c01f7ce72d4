//! What is printed at the end.

ghost use Rattle.std.specs.Prelude.{is_some, ◌≡◌, ◌++◌, map, codes, decimal, string_bytes};
ghost use Rattle.sal_io.specs.Calls.{HasCause, PutGives};
ghost use Rattle.sal_y4m.specs.Words.{word_of};
ghost use Rattle.sal_status.specs.Texts.{name_of, text_of, summary_text, six_lines, bad_input, bad_script};

use crate::status::{Named, Status};
use itoa::Buffer;
use sal_io::{Put, Sink, put_all, put_parts};
use sal_run::Summary;
use sal_y4m::Why;

// The line of words that aren't in the grammar.
const USAGE: &[u8] = b"usage: salsify loop, send, receive, check or generate\n";

// The name of what a status is about.
fn name<'a>(words: &'a [String], named: Named) -> &'a [u8]
    ensures { result.now ≡ name_of (map string_bytes words.now) named }
{
    match named {
        Named::Word(index) => match words.get(index as usize) {
            Some(word) => word.as_bytes(),
            None => b"",
        },
        Named::Screen => b"screen",
    }
}

// A text and what it is about, on a line.
fn show_parts<K: Sink>(screen: &mut K, text: &[u8], rest: &[u8]) -> Put
    ensures bytes { PutGives (K.held screen.old) (K.held screen.new) result (text.now ++ (rest.now ++ codes "\n")) }
    ensures cause { HasCause Put.Failed (K.faults screen.old) (K.faults screen.new) result }
    ensures name { K.name screen.new ≡ K.name screen.old }
    ensures tells { is_some (K.held screen.new) ≡ is_some (K.held screen.old) }
{
    let parts: [&[u8]; 3] = [text, rest, b"\n"];
    put_parts(screen, &parts)
}

// The six counts of a run, by their digits.
fn show_digits<K: Sink>(
    screen: &mut K,
    pictures: &[u8],
    chosen: &[u8],
    nothing: &[u8],
    keys: &[u8],
    datagrams: &[u8],
    shown: &[u8],
) -> Put
    ensures bytes { PutGives (K.held screen.old) (K.held screen.new) result (six_lines pictures.now chosen.now nothing.now keys.now datagrams.now shown.now) }
    ensures cause { HasCause Put.Failed (K.faults screen.old) (K.faults screen.new) result }
    ensures name { K.name screen.new ≡ K.name screen.old }
    ensures tells { is_some (K.held screen.new) ≡ is_some (K.held screen.old) }
{
    let parts: [&[u8]; 13] = [
        b"pictures ",
        pictures,
        b"\nchosen ",
        chosen,
        b"\nnothing ",
        nothing,
        b"\nkeys ",
        keys,
        b"\ndatagrams ",
        datagrams,
        b"\nshown ",
        shown,
        b"\n",
    ];
    put_parts(screen, &parts)
}

// The six counts of a run.
fn show_summary<K: Sink>(screen: &mut K, summary: Summary) -> Put
    ensures bytes { PutGives (K.held screen.old) (K.held screen.new) result (summary_text summary) }
    ensures cause { HasCause Put.Failed (K.faults screen.old) (K.faults screen.new) result }
    ensures name { K.name screen.new ≡ K.name screen.old }
    ensures tells { is_some (K.held screen.new) ≡ is_some (K.held screen.old) }
{
    let mut pictures = Buffer::new();
    let mut chosen = Buffer::new();
    let mut nothing = Buffer::new();
    let mut keys = Buffer::new();
    let mut datagrams = Buffer::new();
    let mut shown = Buffer::new();
    show_digits(
        screen,
        pictures.format(summary.pictures).as_bytes(),
        chosen.format(summary.chosen).as_bytes(),
        nothing.format(summary.nothing).as_bytes(),
        keys.format(summary.keys).as_bytes(),
        datagrams.format(summary.datagrams).as_bytes(),
        shown.format(summary.shown).as_bytes(),
    )
}

// The line of an input that isn't in the grammar, by the digits of the place.
fn show_place<K: Sink>(screen: &mut K, name: &[u8], digits: &[u8], why: &[u8]) -> Put
    ensures bytes { PutGives (K.held screen.old) (K.held screen.new) result (bad_input name.now digits.now why.now) }
    ensures cause { HasCause Put.Failed (K.faults screen.old) (K.faults screen.new) result }
    ensures name { K.name screen.new ≡ K.name screen.old }
    ensures tells { is_some (K.held screen.new) ≡ is_some (K.held screen.old) }
{
    let parts: [&[u8]; 7] = [b"bad input ", name, b" at byte ", digits, b": ", why, b"\n"];
    put_parts(screen, &parts)
}

// The line of an input that isn't in the grammar.
fn show_input<K: Sink>(screen: &mut K, name: &[u8], place: u64, why: Why) -> Put
    ensures bytes { PutGives (K.held screen.old) (K.held screen.new) result (bad_input name.now (decimal place) (word_of why)) }
    ensures cause { HasCause Put.Failed (K.faults screen.old) (K.faults screen.new) result }
    ensures name { K.name screen.new ≡ K.name screen.old }
    ensures tells { is_some (K.held screen.new) ≡ is_some (K.held screen.old) }
{
    let mut digits = Buffer::new();
    show_place(screen, name, digits.format(place).as_bytes(), why.word())
}

// The line of a script that has a bad line.
fn show_line<K: Sink>(screen: &mut K, line: u32) -> Put
    ensures bytes { PutGives (K.held screen.old) (K.held screen.new) result (bad_script (decimal line)) }
    ensures cause { HasCause Put.Failed (K.faults screen.old) (K.faults screen.new) result }
    ensures name { K.name screen.new ≡ K.name screen.old }
    ensures tells { is_some (K.held screen.new) ≡ is_some (K.held screen.old) }
{
    let mut digits = Buffer::new();
    show_parts(
        screen,
        b"bad script at line ",
        digits.format(line).as_bytes(),
    )
}

/// Prints the text of a status: one line, or the six of what a run counted. `words` are those after the program's name,
/// which the status names by their indexes.
pub fn show<K: Sink>(screen: &mut K, words: &[String], status: Status) -> Put
    ensures bytes { PutGives (K.held screen.old) (K.held screen.new) result (text_of (map string_bytes words.now) status) }
    ensures cause { HasCause Put.Failed (K.faults screen.old) (K.faults screen.new) result }
    ensures name { K.name screen.new ≡ K.name screen.old }
    ensures tells { is_some (K.held screen.new) ≡ is_some (K.held screen.old) }
{
    match status {
        Status::Ok(shows) => show_summary(screen, shows.counts()),
        Status::Usage => put_all(screen, USAGE),
        Status::BadInput(named, place, why) => show_input(screen, name(words, named), place, why),
        Status::BadScript(line) => show_line(screen, line),
        Status::ReadFault(named) => show_parts(screen, b"read fault ", name(words, named)),
        Status::WriteFault(named) => show_parts(screen, b"write fault ", name(words, named)),
        Status::OpenFault(named) => show_parts(screen, b"open fault ", name(words, named)),
        Status::TooLong => put_all(screen, b"too long\n"),
        Status::TooMany => put_all(screen, b"too many\n"),
        Status::Memory => put_all(screen, b"no memory\n"),
    }
}
