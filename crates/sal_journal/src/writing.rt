//! Lines as text.

ghost use Rattle.std.specs.Prelude.{◌≡◌, [], ◌∷◌, ◌++◌, map, decimal, IfOk, codes, string_bytes};
ghost use Rattle.hex.specs.Hex.{encode_lower};
ghost use Rattle.sal_world.specs.LineText.{spaced, name_word, role_word, size_word, late_words, heard_word, shown_word, given_up_words, head_words, bytes_words, frame_words, line_words};

use hex::encode;
use itoa::Buffer;
use sal_base::{Bytes, Memory, Name};
use sal_sender::{JobRole, Size};
use sal_world::{Line, ReportSize};
use sal_y4m::Head;
use std::alloc::{AllocError, Global};

// Words with single spaces between them.
fn join(alloc: Global, words: &[&[u8]]) -> Result<Bytes, AllocError>
    ensures { IfOk result (λ text. text ≡ spaced (map (λ word. word.now) words.now)) }
{
    let mut text = Bytes::new(alloc);
    let Some((first, others)) = words.split_first() else {
        return Ok(text);
    };
    text.extend(first)?;
    for word in others {
        text.push(b' ')?;
        text.extend(word)?;
    }
    Ok(text)
}

// A word and a number.
fn numbered(alloc: Global, word: &[u8], number: u64) -> Result<Bytes, AllocError>
    ensures { IfOk result (λ text. text ≡ spaced (word.now ∷ decimal number ∷ [])) }
{
    let mut digits = Buffer::new();
    let words: [&[u8]; 2] = [word, digits.format(number).as_bytes()];
    join(alloc, &words)
}

// A word, a number and another word.
fn numbered_as(alloc: Global, word: &[u8], number: u64, last: &[u8]) -> Result<Bytes, AllocError>
    ensures { IfOk result (λ text. text ≡ spaced (word.now ∷ decimal number ∷ last.now ∷ [])) }
{
    let mut digits = Buffer::new();
    let words: [&[u8]; 3] = [word, digits.format(number).as_bytes(), last];
    join(alloc, &words)
}

// The first line of a journal.
fn head_line(alloc: Global, word: &[u8], head: Head) -> Result<Bytes, AllocError>
    ensures { IfOk result (λ text. text ≡ spaced (word.now ∷ head_words head)) }
{
    let mut width = Buffer::new();
    let mut height = Buffer::new();
    let mut pictures = Buffer::new();
    let mut seconds = Buffer::new();
    let words: [&[u8]; 6] = [
        word,
        b"1",
        width.format(head.width).as_bytes(),
        height.format(head.height).as_bytes(),
        pictures.format(head.rate.0).as_bytes(),
        seconds.format(head.rate.1).as_bytes(),
    ];
    join(alloc, &words)
}

fn role_bytes(role: JobRole) -> &'static [u8]
    ensures { result.now ≡ role_word role }
{
    match role {
        JobRole::Coarse => b"coarse",
        JobRole::Spare => b"spare",
        JobRole::Fine => b"fine",
    }
}

fn heard_bytes(heard: bool) -> &'static [u8]
    ensures { result.now ≡ heard_word heard }
{
    if heard { b"heard" } else { b"old" }
}

fn shown_bytes(shown: bool) -> &'static [u8]
    ensures { result.now ≡ shown_word shown }
{
    if shown { b"shown" } else { b"older" }
}

// The report of a job: the word of what it gave, the words that say how large that is, and whether it is late.
fn report_line(alloc: Global, job: u32, size: &ReportSize, late: bool) -> Result<Bytes, AllocError>
    ensures { IfOk result (λ text. text ≡ spaced (codes "report" ∷ decimal job ∷ (frame_words size.now ++ late_words late))) }
{
    match size {
        ReportSize::Frame(length, name) => frame_line(alloc, job, *length, *name, late),
        ReportSize::Oversize(first) => oversize_line(alloc, job, *first, late),
    }
}

// The digits of a name.
fn name_digits(alloc: Global, name: Name) -> Result<String, AllocError>
    ensures { IfOk result (λ text. string_bytes text ≡ name_word name) }
{
    encode(alloc, &name.0[..8])
}

// The report of a frame by the digits of its name.
fn frame_text(
    alloc: Global,
    job: u32,
    length: u32,
    digits: &[u8],
    late: bool,
) -> Result<Bytes, AllocError>
    ensures { IfOk result (λ text. text ≡ spaced (codes "report" ∷ decimal job ∷ codes "frame" ∷ decimal length ∷ digits.now ∷ late_words late)) }
{
    let mut job_digits = Buffer::new();
    let mut length_digits = Buffer::new();
    let words: [&[u8]; 6] = [
        b"report",
        job_digits.format(job).as_bytes(),
        b"frame",
        length_digits.format(length).as_bytes(),
        digits,
        b"late",
    ];
    if late {
        join(alloc, &words)
    } else {
        join(alloc, &words[..5])
    }
}

// The report of a frame.
fn frame_line(
    alloc: Global,
    job: u32,
    length: u32,
    name: Name,
    late: bool,
) -> Result<Bytes, AllocError>
    ensures { IfOk result (λ text. text ≡ spaced (codes "report" ∷ decimal job ∷ codes "frame" ∷ decimal length ∷ name_word name ∷ late_words late)) }
{
    let digits = name_digits(alloc, name)?;
    let text = frame_text(alloc, job, length, digits.as_bytes(), late)?;
    Ok(text)
}

// The report of a first partition that would be too long.
fn oversize_line(alloc: Global, job: u32, first: u32, late: bool) -> Result<Bytes, AllocError>
    ensures { IfOk result (λ text. text ≡ spaced (codes "report" ∷ decimal job ∷ codes "oversize" ∷ decimal first ∷ late_words late)) }
{
    let mut job_digits = Buffer::new();
    let mut first_digits = Buffer::new();
    let words: [&[u8]; 5] = [
        b"report",
        job_digits.format(job).as_bytes(),
        b"oversize",
        first_digits.format(first).as_bytes(),
        b"late",
    ];
    if late {
        join(alloc, &words)
    } else {
        join(alloc, &words[..4])
    }
}

// A job that was given up.
fn given_up_line(alloc: Global, job: u32, late: bool) -> Result<Bytes, AllocError>
    ensures { IfOk result (λ text. text ≡ spaced (codes "report" ∷ decimal job ∷ given_up_words late)) }
{
    let mut digits = Buffer::new();
    let job_word = digits.format(job).as_bytes();
    if late {
        let words: [&[u8]; 4] = [b"report", job_word, b"givenup", b"late"];
        join(alloc, &words)
    } else {
        let words: [&[u8]; 3] = [b"report", job_word, b"again"];
        join(alloc, &words)
    }
}

fn choose_line(
    alloc: Global,
    number: u32,
    job: u32,
    source: u32,
    count: u32,
) -> Result<Bytes, AllocError>
    ensures { IfOk result (λ text. text ≡ spaced (codes "choose" ∷ decimal number ∷ decimal job ∷ decimal source ∷ decimal count ∷ [])) }
{
    let mut number_digits = Buffer::new();
    let mut job_digits = Buffer::new();
    let mut source_digits = Buffer::new();
    let mut count_digits = Buffer::new();
    let words: [&[u8]; 5] = [
        b"choose",
        number_digits.format(number).as_bytes(),
        job_digits.format(job).as_bytes(),
        source_digits.format(source).as_bytes(),
        count_digits.format(count).as_bytes(),
    ];
    join(alloc, &words)
}

// The word of a size.
fn size_bytes(alloc: Global, size: Size) -> Result<Bytes, AllocError>
    ensures { IfOk result (λ text. text ≡ size_word size) }
{
    let mut digits = Buffer::new();
    match size {
        Size::Datagrams(count) => Bytes::from_slice(alloc, digits.format(count).as_bytes()),
        Size::Oversize(first) => {
            let mut text = Bytes::from_slice(alloc, b"-")?;
            text.extend(digits.format(first).as_bytes())?;
            Ok(text)
        }
        Size::NoMemory => Bytes::from_slice(alloc, b"-"),
    }
}

// A choice of nothing, with the sizes of the candidates.
fn nothing_line(alloc: Global, budget: u32, sizes: &[Size]) -> Result<Bytes, AllocError>
    ensures { IfOk result (λ text. text ≡ spaced (codes "nothing" ∷ decimal budget ∷ map size_word sizes.now)) }
{
    let mut text = numbered(alloc, b"nothing", u64::from(budget))?;
    for size in sizes {
        text.push(b' ')?;
        text.extend(size_bytes(alloc, *size)?.as_slice())?;
    }
    Ok(text)
}

// A datagram that came to a sender.
fn heard_line(alloc: Global, bytes: &[u8]) -> Result<Bytes, AllocError>
    ensures { IfOk result (λ text. text ≡ spaced (codes "heard" ∷ bytes_words bytes.now)) }
{
    if bytes.is_empty() {
        return Bytes::from_slice(alloc, b"heard");
    }
    let digits = encode(alloc, bytes)?;
    let words: [&[u8]; 2] = [b"heard", digits.as_bytes()];
    join(alloc, &words)
}

/// The text of a line, without its newline.
pub fn write_event(alloc: Global, line: &Line) -> Result<Bytes, Memory>
    ensures { IfOk result (λ text. text ≡ spaced (line_words line.now)) }
{
    Ok(line_bytes(alloc, line)?)
}

fn line_bytes(alloc: Global, line: &Line) -> Result<Bytes, AllocError>
    ensures { IfOk result (λ text. text ≡ spaced (line_words line.now)) }
{
    match line {
        Line::Head(head) => head_line(alloc, b"salsify", *head),
        Line::Moment(moment) => numbered(alloc, b"moment", *moment),
        Line::Next(number) => numbered(alloc, b"next", u64::from(*number)),
        Line::Take(job, role) => { numbered_as(alloc, b"take", u64::from(*job), role_bytes(*role)) }
        Line::Report(job, size, late) => report_line(alloc, *job, size, *late),
        Line::Choose(number, job, source, count) => {
            choose_line(alloc, *number, *job, *source, *count)
        }
        Line::Nothing(budget, sizes) => nothing_line(alloc, *budget, sizes.as_slice()),
        Line::Down(number) => numbered_as(alloc, b"down", u64::from(*number), b"taken"),
        Line::Up(number, heard) => numbered_as(alloc, b"up", *number, heard_bytes(*heard)),
        Line::Ready(number) => numbered(alloc, b"ready", u64::from(*number)),
        Line::Decoded(number, shown) => {
            numbered_as(alloc, b"decoded", u64::from(*number), shown_bytes(*shown))
        }
        Line::Sender(head) => head_line(alloc, b"sender", *head),
        Line::Heard(bytes) => heard_line(alloc, bytes.as_slice()),
        Line::Lost(serial) => numbered(alloc, b"lost", u64::from(*serial)),
        Line::GivenUp(job, late) => given_up_line(alloc, *job, *late),
        Line::End => Bytes::from_slice(alloc, b"end"),
    }
}
