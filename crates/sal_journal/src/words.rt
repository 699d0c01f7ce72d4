//! The words of a line, and what single words say.

ghost use Rattle.std.specs.Prelude.{◌≡◌, ◌==◌, ◌<◌, ◌≤◌, true, false, [], ◌∷◌, ◌++◌, length, replicate, IfNone, IfSome};
ghost use Rattle.std.specs.List.{slice_split, position_or_len, prefix_len};
ghost use Rattle.std.specs.Char.{is_ascii_digit};
ghost use Rattle.std.specs.Option.{option_map, option_map_or};
ghost use Rattle.std.specs.Result.{result_ok};
ghost use Rattle.std.specs.Str.{all_ascii_digits, bytes_eq};
ghost use Rattle.hex.specs.Hex.{encode_lower, decode_sized};
ghost use Rattle.sal_journal.specs.Words.{words_in, next_word, last_word, is_plain, number_of, either_of, role_of, size_of, name_of};

use hex::{decode_to_slice, encode_to_slice};
use sal_base::Name;
use sal_sender::{JobRole, Size};

// How many bytes stand before the first of this value, or before the end.
fn bytes_before(text: &[u8], at: u8) -> usize
    ensures count { result ≡ position_or_len (λ byte. byte == at) text.now }
    ensures inside { result ≤ length text.now }
{
    text.iter().take_while(|byte| **byte != at).count()
}

/// A text up to the first byte of this value, and what comes after it.
pub(crate) fn cut(text: &[u8], at: u8) -> (&[u8], Option<&[u8]>)
    ensures parts { slice_split (λ byte. byte == at) text.now ≡ result.0.now ∷ option_map_or (λ rest. slice_split (λ byte. byte == at) rest.now) result.1 [] }
    ensures shorter { IfSome result.1 (λ rest. length rest.now < length text.now) }
{
    let (front, rest) = text.split_at(bytes_before(text, at));
    match rest.split_first() {
        Some((_, after)) => (front, Some(after)),
        None => (text, None),
    }
}

/// The next word, and what comes after it.
pub(crate) fn next_word(rest: Option<&[u8]>) -> Option<(&[u8], Option<&[u8]>)>
    ensures { option_map (λ x. (x.0.now, option_map_or (λ rest. words_in rest.now) x.1 [])) result ≡ next_word (option_map_or (λ text. words_in text.now) rest.entry []) }
{
    Some(cut(rest?, b' '))
}

/// Whether no word is left.
pub(crate) fn is_done(rest: Option<&[u8]>) -> bool
    ensures { result ≡ (length (option_map_or (λ text. words_in text.now) rest.entry []) == 0) }
{
    match rest {
        Some(_) => false,
        None => true,
    }
}

/// The next word, where it is the last.
pub(crate) fn last_word(rest: Option<&[u8]>) -> Option<&[u8]>
    ensures { option_map (λ word. word.now) result ≡ last_word (option_map_or (λ text. words_in text.now) rest.entry []) }
{
    let (word, rest) = next_word(rest)?;
    if !is_done(rest) {
        return None;
    }
    Some(word)
}

// How many digits stand at the front.
fn digits_in_front(word: &[u8]) -> usize
    ensures { result ≡ prefix_len is_ascii_digit word.now }
{
    word.iter().take_while(|byte| byte.is_ascii_digit()).count()
}

// Whether a word is decimal digits alone.
#[tactic(auto, using(crate::proofs::WordLemmas::digits_alone))]
fn is_digits(word: &[u8]) -> bool
    ensures { result ≡ all_ascii_digits word.now }
{
    digits_in_front(word) == word.len()
}

// Whether a word is decimal digits, with no zero in front unless it is 0 itself.
fn is_number(word: &[u8]) -> bool
    ensures { result ≡ is_plain word.now }
{
    if !is_digits(word) || word.is_empty() {
        return false;
    }
    word[0] != b'0' || word.len() == 1
}

// A word as the text of a number, where it is one.
fn number_text(word: &[u8]) -> Option<&str>
    ensures text { IfSome result (λ text. (text.now ≡ word.now) × (is_plain word.now ≡ true)) }
    ensures none { IfNone result (is_plain word.now ≡ false) }
{
    if !is_number(word) {
        return None;
    }
    match str::from_utf8(word) {
        Ok(text) => Some(text),
        Err(_) => unreachable!(),
    }
}

/// The number of 64 bits that a word says.
pub(crate) fn large(word: &[u8]) -> Option<u64>
    ensures { result ≡ number_of 64 word.now }
{
    match number_text(word) {
        Some(text) => text.parse().ok(),
        None => None,
    }
}

/// The number of 32 bits that a word says.
pub(crate) fn small(word: &[u8]) -> Option<u32>
    ensures { result ≡ number_of 32 word.now }
{
    match number_text(word) {
        Some(text) => text.parse().ok(),
        None => None,
    }
}

/// Which of two words it is, and whether it is the first.
pub(crate) fn either(yes: &[u8], no: &[u8], word: &[u8]) -> Option<bool>
    ensures { result ≡ either_of yes.now no.now word.now }
{
    if word == yes {
        Some(true)
    } else if word == no {
        Some(false)
    } else {
        None
    }
}

/// The role that a word says.
pub(crate) fn role(word: &[u8]) -> Option<JobRole>
    ensures { result ≡ role_of word.now }
{
    if word == b"coarse".as_slice() {
        Some(JobRole::Coarse)
    } else if word == b"spare".as_slice() {
        Some(JobRole::Spare)
    } else if word == b"fine".as_slice() {
        Some(JobRole::Fine)
    } else {
        None
    }
}

/// The size that a word says.
pub(crate) fn size(word: &[u8]) -> Option<Size>
    ensures { result ≡ size_of word.now }
{
    if word == b"-".as_slice() {
        return Some(Size::NoMemory);
    }
    match word.strip_prefix(b"-") {
        Some(first) => Some(Size::Oversize(small(first)?)),
        None => Some(Size::Datagrams(small(word)?)),
    }
}

// The bytes that 16 hexadecimal digits say.
fn eight_bytes(word: &[u8]) -> Option<[u8; 8]>
    ensures { result ≡ result_ok (decode_sized word.now 8) }
{
    let mut bytes = [0u8; 8];
    match decode_to_slice(word, &mut bytes) {
        Ok(()) => Some(bytes),
        Err(_) => None,
    }
}

// Whether a word is these bytes' lower-case hexadecimal digits.
fn is_written(bytes: &[u8; 8], word: &[u8]) -> bool
    ensures { result ≡ bytes_eq (encode_lower bytes.now) word.now }
{
    let mut digits = [0u8; 16];
    encode_to_slice(bytes.as_slice(), &mut digits).unwrap();
    digits.as_slice() == word
}

// The name with these first 8 bytes; the others are zeros.
fn named(front: &[u8; 8]) -> Name
    ensures { result ≡ record { 0 = front.now ++ replicate 8 0 } }
{
    let mut bytes = [0u8; 16];
    bytes[..8].copy_from_slice(front);
    Name(bytes)
}

#[tactic(auto, unfolding(crate::specs::Words::name_of))]
/// The name that a word of 16 lower-case hexadecimal digits says.
pub(crate) fn name(word: &[u8]) -> Option<Name>
    ensures { result ≡ name_of word.now }
{
    let bytes = eight_bytes(word)?;
    if is_written(&bytes, word) {
        Some(named(&bytes))
    } else {
        None
    }
}
