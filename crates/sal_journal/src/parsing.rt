//! What a line says.

ghost use Rattle.std.specs.Prelude.{◌≡◌, [], Some};
ghost use Rattle.std.specs.Option.{option_map, option_map_or};
ghost use Rattle.sal_journal.specs.Words.{words_in};
ghost use Rattle.sal_journal.specs.Parsing.{small_and, last_number, last_of_two, take_of, late_of, frame_of, oversize_of, report_of, choose_of, other_of, nothing_of, down_of, up_of, decoded_of, event_behind, event_of};

use crate::event::JournalEvent;
use crate::words::{either, is_done, large, last_word, name, next_word, role, size, small};
use sal_sender::Size;
use sal_world::ReportSize;

/// The number of 32 bits that the next word says, and what comes after it.
pub(crate) fn next_small(rest: Option<&[u8]>) -> Option<(u32, Option<&[u8]>)>
    ensures { option_map (λ x. (x.0, option_map_or (λ rest. words_in rest.now) x.1 [])) result ≡ small_and (option_map_or (λ text. words_in text.now) rest.entry []) }
{
    let (word, rest) = next_word(rest)?;
    Some((small(word)?, rest))
}

/// The number of 32 bits that the last word says.
pub(crate) fn last_small(rest: Option<&[u8]>) -> Option<u32>
    ensures { result ≡ last_number 32 (option_map_or (λ text. words_in text.now) rest.entry []) }
{
    small(last_word(rest)?)
}

// The number of 64 bits that the last word says.
fn last_large(rest: Option<&[u8]>) -> Option<u64>
    ensures { result ≡ last_number 64 (option_map_or (λ text. words_in text.now) rest.entry []) }
{
    large(last_word(rest)?)
}

// Which of two words the last is.
fn last_either(yes: &[u8], no: &[u8], rest: Option<&[u8]>) -> Option<bool>
    ensures { result ≡ last_of_two yes.now no.now (option_map_or (λ text. words_in text.now) rest.entry []) }
{
    either(yes, no, last_word(rest)?)
}

fn take(rest: Option<&[u8]>) -> Option<JournalEvent>
    ensures { result ≡ take_of (option_map_or (λ text. words_in text.now) rest.entry []) }
{
    let (job, rest) = next_small(rest)?;
    let role = role(last_word(rest)?)?;
    Some(JournalEvent::Take(job, role))
}

// Whether a report is late, by what comes after its size.
fn late(rest: Option<&[u8]>) -> Option<bool>
    ensures { result ≡ late_of (option_map_or (λ text. words_in text.now) rest.entry []) }
{
    if is_done(rest) {
        return Some(false);
    }
    if last_word(rest)? == b"late".as_slice() {
        Some(true)
    } else {
        None
    }
}

// The report of a frame, behind the word.
fn frame(job: u32, rest: Option<&[u8]>) -> Option<JournalEvent>
    ensures { result ≡ frame_of job (option_map_or (λ text. words_in text.now) rest.entry []) }
{
    let (length, rest) = next_small(rest)?;
    let (word, rest) = next_word(rest)?;
    let name = name(word)?;
    let late = late(rest)?;
    Some(JournalEvent::Report(job, ReportSize::Frame(length, name), late))
}

// The report of a first partition that would be too long, behind the word.
fn oversize(job: u32, rest: Option<&[u8]>) -> Option<JournalEvent>
    ensures { result ≡ oversize_of job (option_map_or (λ text. words_in text.now) rest.entry []) }
{
    let (first, rest) = next_small(rest)?;
    let late = late(rest)?;
    Some(JournalEvent::Report(job, ReportSize::Oversize(first), late))
}

fn report(rest: Option<&[u8]>) -> Option<JournalEvent>
    ensures { result ≡ report_of (option_map_or (λ text. words_in text.now) rest.entry []) }
{
    let (job, rest) = next_small(rest)?;
    let (kind, rest) = next_word(rest)?;
    if kind == b"frame".as_slice() {
        frame(job, rest)
    } else if kind == b"oversize".as_slice() {
        oversize(job, rest)
    } else {
        None
    }
}

fn choose(rest: Option<&[u8]>) -> Option<JournalEvent>
    ensures { result ≡ choose_of (option_map_or (λ text. words_in text.now) rest.entry []) }
{
    let (number, rest) = next_small(rest)?;
    let (job, rest) = next_small(rest)?;
    let (source, rest) = next_small(rest)?;
    let count = last_small(rest)?;
    Some(JournalEvent::Choose(number, job, source, count))
}

// The size of the second candidate, where there is one.
fn other(rest: Option<&[u8]>) -> Option<Option<Size>>
    ensures { result ≡ other_of (option_map_or (λ text. words_in text.now) rest.entry []) }
{
    if is_done(rest) {
        return Some(None);
    }
    Some(Some(size(last_word(rest)?)?))
}

fn nothing(rest: Option<&[u8]>) -> Option<JournalEvent>
    ensures { result ≡ nothing_of (option_map_or (λ text. words_in text.now) rest.entry []) }
{
    let (budget, rest) = next_small(rest)?;
    let (word, rest) = next_word(rest)?;
    let size = size(word)?;
    let other = other(rest)?;
    Some(JournalEvent::Nothing(budget, size, other))
}

fn down(rest: Option<&[u8]>) -> Option<JournalEvent>
    ensures { result ≡ down_of (option_map_or (λ text. words_in text.now) rest.entry []) }
{
    let (number, rest) = next_small(rest)?;
    if last_word(rest)? == b"taken".as_slice() {
        Some(JournalEvent::Down(number))
    } else {
        None
    }
}

fn up(rest: Option<&[u8]>) -> Option<JournalEvent>
    ensures { result ≡ up_of (option_map_or (λ text. words_in text.now) rest.entry []) }
{
    let (word, rest) = next_word(rest)?;
    let number = large(word)?;
    let heard = last_either(b"heard", b"old", rest)?;
    Some(JournalEvent::Up(number, heard))
}

fn decoded(rest: Option<&[u8]>) -> Option<JournalEvent>
    ensures { result ≡ decoded_of (option_map_or (λ text. words_in text.now) rest.entry []) }
{
    let (number, rest) = next_small(rest)?;
    let shown = last_either(b"shown", b"older", rest)?;
    Some(JournalEvent::Decoded(number, shown))
}

// The event that begins with this word.
fn event_from(word: &[u8], rest: Option<&[u8]>) -> Option<JournalEvent>
    ensures { result ≡ event_behind word.now (option_map_or (λ text. words_in text.now) rest.entry []) }
{
    if word == b"down".as_slice() {
        down(rest)
    } else if word == b"up".as_slice() {
        up(rest)
    } else if word == b"take".as_slice() {
        take(rest)
    } else if word == b"report".as_slice() {
        report(rest)
    } else if word == b"ready".as_slice() {
        Some(JournalEvent::Ready(last_small(rest)?))
    } else if word == b"decoded".as_slice() {
        decoded(rest)
    } else if word == b"next".as_slice() {
        Some(JournalEvent::Next(last_small(rest)?))
    } else if word == b"choose".as_slice() {
        choose(rest)
    } else if word == b"nothing".as_slice() {
        nothing(rest)
    } else if word == b"moment".as_slice() {
        Some(JournalEvent::Moment(last_large(rest)?))
    } else {
        None
    }
}

/// The event that a line says, without its newline.
pub(crate) fn event(text: &[u8]) -> Option<JournalEvent>
    ensures { result ≡ event_of text.now }
{
    let (word, rest) = next_word(Some(text))?;
    event_from(word, rest)
}
