//! The grammar of a line.

ghost use Rattle.std.specs.Prelude.{◌≡◌, ℕ, List, length};
ghost use Rattle.sal_script.specs.Line.{text_of, number_after, word_line, number_line, line_of, is_skipped};
ghost use Rattle.sal_script.specs.Script.{meaning};

use crate::line::ScriptLine;
use sal_base::leading_number;

/// A line has at most so many bytes with its newline.
const MOST_LINE: usize = 64;

/// A script has at most so many bytes.
pub(crate) const MOST_SCRIPT: usize = 16_777_216;

/// The longest wait, in microseconds.
const MOST_WAIT: u32 = 1_000_000_000;

/// What a line means.
#[derive(Clone, Copy, Debug, PartialEq, Eq)]
pub(crate) enum Meaning {
    /// It is empty, or a comment.
    Skipped,
    /// It says this.
    Said(ScriptLine),
    /// It isn't in the grammar.
    Bad,
}

// The number that follows a word up to the end of a line, where it is within these bounds.
fn number_behind(text: &[u8], word: &[u8], least: u32, most: u32) -> Option<u32>
    ensures { result ≡ number_after word.now least most text.now }
{
    let rest = text.strip_prefix(word)?;
    let (number, rest) = leading_number(rest)?;
    if rest.is_empty() && least <= number && number <= most {
        Some(number)
    } else {
        None
    }
}

// The lines of a word, one space and a number.
fn parse_numbered(text: &[u8]) -> Option<ScriptLine>
    ensures { result ≡ number_line text.now }
{
    if let Some(number) = number_behind(text, b"down ", 1, u32::MAX) {
        return Some(ScriptLine::Down(number));
    }
    if let Some(number) = number_behind(text, b"up ", 1, u32::MAX) {
        return Some(ScriptLine::Up(number));
    }
    let time = number_behind(text, b"wait ", 0, MOST_WAIT)?;
    Some(ScriptLine::Wait(time))
}

// The lines of words alone.
fn parse_words(text: &[u8]) -> Option<ScriptLine>
    ensures { result ≡ word_line text.now }
{
    if text == b"next".as_slice() {
        Some(ScriptLine::Next)
    } else if text == b"next late".as_slice() {
        Some(ScriptLine::NextLate)
    } else if text == b"downall".as_slice() {
        Some(ScriptLine::DownAll)
    } else if text == b"upall".as_slice() {
        Some(ScriptLine::UpAll)
    } else if text == b"rest".as_slice() {
        Some(ScriptLine::Rest)
    } else {
        None
    }
}

// What a line says, without its newline.
fn parse(text: &[u8]) -> Option<ScriptLine>
    ensures { result ≡ line_of text.now }
{
    if let Some(line) = parse_words(text) {
        return Some(line);
    }
    parse_numbered(text)
}

// Whether a line is empty or a comment.
fn is_blank(text: &[u8]) -> bool
    ensures { result ≡ is_skipped text.now }
{
    text.is_empty() || text.starts_with(b"#")
}

/// What a line means, of its text without its newline, its size with it, and how many bytes of the script there are up to
/// its end.
pub(crate) fn meaning_of(text: &[u8], size: usize, end: usize) -> Meaning
    ensures { (line : List ℕ) → length line ≡ size → text.now ≡ text_of line → result ≡ meaning end line }
{
    if size > MOST_LINE || end > MOST_SCRIPT {
        return Meaning::Bad;
    }
    if is_blank(text) {
        return Meaning::Skipped;
    }
    match parse(text) {
        Some(line) => Meaning::Said(line),
        None => Meaning::Bad,
    }
}
