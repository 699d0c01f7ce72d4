//! Journals from sources.

ghost use Rattle.std.specs.Prelude.{◌≡◌, ◌<◌, ◌≤◌, ℕ, List, [], ◌∷◌, length, is_some, Err, IfSome, codes};
ghost use Rattle.std.specs.Str.{bytes_eq};
ghost use Rattle.std.specs.Option.{option_map_or};
ghost use Rattle.sal_io.specs.Calls.{HasCause};
ghost use Rattle.sal_world.specs.LineText.{most_journal};
ghost use Rattle.sal_journal.specs.Words.{words_in};
ghost use Rattle.sal_journal.specs.Reading.{whole_head, head_behind, head_of, events_in, lines_in, journal_of};
ghost use Rattle.sal_journal.specs.Answers.{LineIs, Answers, JournalGives};

use crate::event::JournalEvent;
use crate::fault::JournalFault;
use crate::journal::{Events, Journal};
use crate::parsing::{event, last_small, next_small};
use crate::words::{cut, next_word};
use sal_base::{MAX_HEIGHT, MAX_WIDTH};
use sal_io::{Contents, Source, read_all};
use sal_y4m::Head;
use std::alloc::Global;

// A journal has at most so many bytes.
const MOST_JOURNAL: usize = 1_073_741_824;

// The head of these numbers, where its sides are within the limits and its rate has no zero.
fn whole(width: u32, height: u32, rate: (u32, u32)) -> Option<Head>
    ensures { result ≡ whole_head width height rate.0 rate.1 }
{
    if width < 1 || width > MAX_WIDTH as u32 || height < 1 || height > MAX_HEIGHT as u32 {
        return None;
    }
    if rate.0 < 1 || rate.1 < 1 {
        return None;
    }
    Some(Head {
        width: width as u16,
        height: height as u16,
        rate,
    })
}

// The head behind the first word.
fn head_from(rest: Option<&[u8]>) -> Option<Head>
    ensures { result ≡ head_behind (option_map_or (λ text. words_in text.now) rest.entry []) }
{
    let (version, rest) = next_word(rest)?;
    if version != b"1".as_slice() {
        return None;
    }
    let (width, rest) = next_small(rest)?;
    let (height, rest) = next_small(rest)?;
    let (pictures, rest) = next_small(rest)?;
    let seconds = last_small(rest)?;
    whole(width, height, (pictures, seconds))
}

// The head that a line says, without its newline.
fn head(text: &[u8]) -> Option<Head>
    ensures { result ≡ head_of text.now }
{
    let (word, rest) = next_word(Some(text))?;
    if word != b"salsify".as_slice() {
        return None;
    }
    head_from(rest)
}

// The first line of what is left.
enum LineRead<'a> {
    // It says this event; and what comes after it.
    Event(JournalEvent, &'a [u8]),
    // It is the end, and nothing comes after it.
    End,
    // It isn't in the grammar.
    Other,
    // It is the end, and something comes after it.
    Behind,
}

fn is_end(line: &[u8]) -> bool
    ensures { result ≡ bytes_eq line.now (codes "end") }
{
    line == b"end".as_slice()
}

// What a line says that a newline ends, and what comes after it.
fn ended_line<'a>(line: &[u8], after: &'a [u8]) -> LineRead<'a>
    ensures { (text : List ℕ) → lines_in text ≡ line.now ∷ lines_in after.now → length after.now < length text → LineIs text result }
{
    if is_end(line) {
        return if after.is_empty() {
            LineRead::End
        } else {
            LineRead::Behind
        };
    }
    match event(line) {
        Some(event) => LineRead::Event(event, after),
        None => LineRead::Other,
    }
}

fn read_line(text: &[u8]) -> LineRead<'_>
    ensures { LineIs text.now result }
{
    let (line, rest) = cut(text, b'\n');
    match rest {
        Some(after) => ended_line(line, after),
        None => LineRead::Other,
    }
}

// The events of all lines behind the head.
fn read_lines(alloc: Global, text: &[u8]) -> Result<Events, JournalFault>
    requires { length text.now ≤ most_journal }
    ensures { Answers (events_in 2 (lines_in text.now)) result }
{
    let mut events = Events::new(alloc);
    let mut number: u32 = 2;
    let mut rest = text;
    loop {
        match read_line(rest) {
            LineRead::Event(event, after) => {
                if events.push(event).is_err() {
                    return Err(JournalFault::Memory);
                }
                number += 1;
                rest = after;
            }
            LineRead::End => return Ok(events),
            LineRead::Other => return Err(JournalFault::Bad(number)),
            LineRead::Behind => return Err(JournalFault::Bad(number + 1)),
        }
    }
}

// What a text says.
#[tactic(auto, using(crate::proofs::LinesRead::faults_of))]
fn read_text(alloc: Global, text: &[u8]) -> Result<Journal, JournalFault>
    requires { length text.now ≤ most_journal }
    ensures { Answers (journal_of text.now) result }
{
    let (line, rest) = cut(text, b'\n');
    let Some(rest) = rest else {
        return Err(JournalFault::Bad(1));
    };
    let Some(head) = head(line) else {
        return Err(JournalFault::Bad(1));
    };
    match read_lines(alloc, rest) {
        Ok(events) => Ok(Journal::new(head, events)),
        Err(fault) => Err(fault),
    }
}

/// Reads a journal whole.
///
/// # Errors
///
/// Bad with the number of the first line that isn't in the grammar or comes behind the end; ReadFault where the source failed,
/// also where a line before is bad; TooLong where there are more than 1,073,741,824 bytes; Memory.
pub fn read_events<S: Source>(alloc: Global, source: &mut S) -> Result<Journal, JournalFault>
    ensures told { IfSome (S.left source.old) (λ text. JournalGives text result) }
    ensures cause { HasCause (Err JournalFault.ReadFault) (S.faults source.old) (S.faults source.new) result }
    ensures name { S.name source.new ≡ S.name source.old }
    ensures had { S.had source.new ≡ S.had source.old }
    ensures tells { is_some (S.left source.new) ≡ is_some (S.left source.old) }
{
    match read_all(alloc, source, MOST_JOURNAL) {
        Contents::All(text) => read_text(alloc, text.as_slice()),
        Contents::More(_) => Err(JournalFault::TooLong),
        Contents::Failed => Err(JournalFault::ReadFault),
        Contents::Memory => Err(JournalFault::Memory),
    }
}
