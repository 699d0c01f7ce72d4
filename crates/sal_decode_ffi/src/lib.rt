//! The decoder as a static library, for programs that aren't Rattle: one function on numbers and slices of bytes.
#![tactic(auto)]

ghost use Rattle.std.specs.Prelude.{◌≡◌, length};
ghost use Rattle.sal_decode_ffi.specs.Answers.{answers_of, with_front, Gives};

mod answers;

use answers::answers;
use std::alloc::Global;

/// Decodes frames one after another, from the state before any frame up to the first fault, and writes the answers to them to the
/// front of `out`, where they fit.
///
/// Frame k has the next `lengths[k]` of `bytes`. The result is the length of all answers, whether they fit or not, or 0 for want of
/// memory. The answer to a frame that is decoded is a byte 0, a byte that says whether it is to be shown, width and height of two
/// bytes each, the digest of the state that it leads to, of 32 bytes, and the samples of Y, U and V. The answer to the first that
/// isn't decoded is the last: the fault's number (1 Short, 2 BadVersion, 3 BadStart, 4 ZeroSize, 5 TooLarge, 6 NoReference,
/// 7 FirstPart, 8 Partition) and the two numbers that it has, of four bytes each, or 0. High bytes come first.
#[unsafe(no_mangle)]
pub extern "C" fn sal_decode_frames(
    alloc: Global,
    bytes: &[u8],
    lengths: &[u32],
    out: &mut [u8],
) -> usize
    ensures { Gives (answers_of lengths.now bytes.now) out.old out.new result }
{
    let Ok(text) = answers(alloc, bytes, lengths) else {
        return 0;
    };
    put_front(text.as_slice(), out)
}

/// Writes a text to the front of these bytes, where it fits, and gives its length.
fn put_front(text: &[u8], out: &mut [u8]) -> usize
    ensures length { result ≡ length text.now }
    ensures front { out.new ≡ with_front text.now out.old }
{
    let length = text.len();
    if length <= out.len() {
        out[..length].copy_from_slice(text);
    }
    length
}

#[cfg(test)]
mod tests;
