//! A source in memory.

ghost use Rattle.std.specs.Prelude.{◌≡◌, ◌<◌, ◌≤◌, Some, drop, take, length, min, is_some};
ghost use Rattle.sal_io.specs.Calls.{HasCause, ReadGives};
ghost use Rattle.sal_io.specs.Failing.{next_call, is_to_fail, faults_after, took_failed, TakesMost};

use crate::answers::Took;
use crate::traits::Source;
use sal_base::Bytes;

/// Bytes in memory. The calls with the listed numbers, counted from 1, fail.
#[derive(Drop)]
pub struct MemSource {
    name: Bytes,
    bytes: Bytes,
    at: usize,
    calls: u64,
    failing: Vec<u64>,
    faults: u64,
}

// As many bytes as there are and as the buffer takes.
fn copy_front(bytes: &[u8], buf: &mut [u8]) -> usize
    requires some { 0 < length bytes.now }
    requires room { 0 < length buf.old }
    ensures count { result ≡ min (length bytes.now) (length buf.new) }
    ensures counts { 0 < result }
    ensures here { result ≤ length bytes.now }
    ensures fits { result ≤ length buf.new }
    ensures copied { take result buf.new ≡ take result bytes.now }
{
    let count = bytes.len().min(buf.len());
    buf[..count].copy_from_slice(&bytes[..count]);
    count
}

impl MemSource {
    /// These bytes under this name, before the first call.
    pub fn new(name: Bytes, bytes: Bytes, failing: Vec<u64>) -> Self
        ensures name { result.name ≡ name }
        ensures bytes { result.bytes ≡ bytes }
        ensures at { result.at ≡ 0 }
        ensures calls { result.calls ≡ 0 }
        ensures failing { result.failing ≡ failing }
        ensures faults { result.faults ≡ 0 }
    {
        MemSource {
            name,
            bytes,
            at: 0,
            calls: 0,
            failing,
            faults: 0,
        }
    }
}

impl Source for MemSource {
    ghost name = { λ s. s.name };

    ghost had = { λ s. Some s.bytes };

    ghost left = { λ s. Some (drop s.at s.bytes) };

    ghost faults = { λ s. s.faults };

    fn faults(&self) -> u64 {
        self.faults
    }

    fn read(&mut self, buf: &mut [u8]) -> Took
        requires { 0 < length buf.old }
        ensures bytes { ReadGives (Some (drop self.old.at self.old.bytes)) (Some (drop self.new.at self.new.bytes)) result buf.new }
        ensures most { TakesMost (drop self.old.at self.old.bytes) result buf.new }
        ensures fails { took_failed result ≡ is_to_fail self.old.failing.items (next_call self.old.calls) }
        ensures calls { self.new.calls ≡ next_call self.old.calls }
        ensures failing { self.new.failing ≡ self.old.failing }
        ensures faults { self.new.faults ≡ faults_after (took_failed result) self.old.faults }
        ensures cause { HasCause Took.Failed self.old.faults self.new.faults result }
        ensures name { self.new.name ≡ self.old.name }
        ensures had { Some self.new.bytes ≡ Some self.old.bytes }
        ensures tells { is_some (Some (drop self.new.at self.new.bytes)) ≡ is_some (Some (drop self.old.at self.old.bytes)) }
    {
        self.calls = self.calls.saturating_add(1);
        if self.failing.contains(&self.calls) {
            self.faults = self.faults.saturating_add(1);
            return Took::Failed;
        }
        let bytes = self.bytes.as_slice();
        if self.at >= bytes.len() {
            return Took::End;
        }
        let rest = &bytes[self.at..];
        let count = copy_front(rest, buf);
        self.at += count;
        Took::Got(count)
    }
}
