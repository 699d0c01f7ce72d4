//! Whole buffers: calls of `read` and `write` until all is done.

ghost use Rattle.std.specs.Prelude.{is_some, ◌≡◌, length};
ghost use Rattle.std.specs.List.{flat_map};
ghost use Rattle.sal_io.specs.Calls.{HasCause, FillGives, PutGives};

use crate::answers::{Took, Wrote};
use crate::traits::{Sink, Source};

/// What filling a buffer came to.
#[derive(Clone, Copy, Debug, PartialEq, Eq)]
pub enum Filled {
    /// The buffer is full.
    Full,
    /// The source ended after so many bytes.
    Short(usize),
    /// The source failed.
    Failed,
}

/// What putting bytes came to.
#[derive(Clone, Copy, Debug, PartialEq, Eq)]
pub enum Put {
    /// All bytes were appended.
    Done,
    /// The sink failed after a front of the bytes.
    Failed,
}

/// Reads until the buffer is full or the source ends.
pub fn fill<S: Source>(source: &mut S, buf: &mut [u8]) -> Filled
    ensures bytes { FillGives (S.left source.old) (S.left source.new) result buf.new }
    ensures cause { HasCause Filled.Failed (S.faults source.old) (S.faults source.new) result }
    ensures name { S.name source.new ≡ S.name source.old }
    ensures had { S.had source.new ≡ S.had source.old }
    ensures tells { is_some (S.left source.new) ≡ is_some (S.left source.old) }
    ensures len { length buf.new ≡ length buf.old }
{
    let mut filled = 0;
    while filled < buf.len() {
        match source.read(&mut buf[filled..]) {
            Took::Got(count) => filled += count,
            Took::End => return Filled::Short(filled),
            Took::Failed => return Filled::Failed,
        }
    }
    Filled::Full
}

/// Writes until all bytes are appended.
pub fn put_all<K: Sink>(sink: &mut K, bytes: &[u8]) -> Put
    ensures bytes { PutGives (K.held sink.old) (K.held sink.new) result bytes.now }
    ensures cause { HasCause Put.Failed (K.faults sink.old) (K.faults sink.new) result }
    ensures name { K.name sink.new ≡ K.name sink.old }
    ensures tells { is_some (K.held sink.new) ≡ is_some (K.held sink.old) }
{
    let mut rest = bytes;
    while !rest.is_empty() {
        match sink.write(rest) {
            Wrote::Wrote(count) => rest = &rest[count..],
            Wrote::Failed => return Put::Failed,
        }
    }
    Put::Done
}

/// Writes the parts one after the other.
pub fn put_parts<K: Sink>(sink: &mut K, parts: &[&[u8]]) -> Put
    ensures bytes { PutGives (K.held sink.old) (K.held sink.new) result (flat_map (λ part. part.now) parts.now) }
    ensures cause { HasCause Put.Failed (K.faults sink.old) (K.faults sink.new) result }
    ensures name { K.name sink.new ≡ K.name sink.old }
    ensures tells { is_some (K.held sink.new) ≡ is_some (K.held sink.old) }
{
    for part in parts {
        if let Put::Failed = put_all(sink, part) {
            return Put::Failed;
        }
    }
    Put::Done
}
