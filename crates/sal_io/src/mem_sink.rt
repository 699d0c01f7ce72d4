//! A sink in memory.

ghost use Rattle.std.specs.Prelude.{◌≡◌, ◌<◌, Some, length, is_some};
ghost use Rattle.sal_io.specs.Calls.{HasCause, WriteGives};
ghost use Rattle.sal_io.specs.Failing.{next_call, is_to_fail, faults_after, wrote_failed, WriteFailsAs, WritesWhole};

use crate::answers::Wrote;
use crate::traits::Sink;
use sal_base::Bytes;

/// Bytes in memory. The calls with the listed numbers, counted from 1, fail, and so does one without memory.
#[derive(Drop)]
pub struct MemSink {
    name: Bytes,
    bytes: Bytes,
    calls: u64,
    failing: Vec<u64>,
    faults: u64,
}

impl MemSink {
    /// These bytes under this name, before the first call.
    pub fn new(name: Bytes, bytes: Bytes, failing: Vec<u64>) -> Self
        ensures name { result.name ≡ name }
        ensures bytes { result.bytes ≡ bytes }
        ensures calls { result.calls ≡ 0 }
        ensures failing { result.failing ≡ failing }
        ensures faults { result.faults ≡ 0 }
    {
        MemSink {
            name,
            bytes,
            calls: 0,
            failing,
            faults: 0,
        }
    }

    /// The name that it was opened with.
    pub fn name(&self) -> &[u8]
        ensures { result.now ≡ self.now.name }
    {
        self.name.as_slice()
    }

    /// What it holds.
    pub fn bytes(&self) -> &[u8]
        ensures { result.now ≡ self.now.bytes }
    {
        self.bytes.as_slice()
    }
}

impl Sink for MemSink {
    ghost name = { λ s. s.name };

    ghost held = { λ s. Some s.bytes };

    ghost faults = { λ s. s.faults };

    fn faults(&self) -> u64 {
        self.faults
    }

    fn write(&mut self, bytes: &[u8]) -> Wrote
        requires { 0 < length bytes.now }
        ensures bytes { WriteGives (Some self.old.bytes) (Some self.new.bytes) result bytes.now }
        ensures whole { WritesWhole result bytes.now }
        ensures fails { WriteFailsAs (is_to_fail self.old.failing.items (next_call self.old.calls)) result }
        ensures calls { self.new.calls ≡ next_call self.old.calls }
        ensures failing { self.new.failing ≡ self.old.failing }
        ensures faults { self.new.faults ≡ faults_after (wrote_failed result) self.old.faults }
        ensures cause { HasCause Wrote.Failed self.old.faults self.new.faults result }
        ensures name { self.new.name ≡ self.old.name }
        ensures tells { is_some (Some self.new.bytes) ≡ is_some (Some self.old.bytes) }
    {
        self.calls = self.calls.saturating_add(1);
        if self.failing.contains(&self.calls) {
            self.faults = self.faults.saturating_add(1);
            return Wrote::Failed;
        }
        match self.bytes.extend(bytes) {
            Ok(()) => Wrote::Wrote(bytes.len()),
            Err(_) => {
                self.faults = self.faults.saturating_add(1);
                Wrote::Failed
            }
        }
    }
}
