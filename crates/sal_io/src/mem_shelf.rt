//! A shelf in memory.

ghost use Rattle.std.specs.Prelude.{◌≡◌, ◌+◌, ◌≤◌, ◌++◌, ◌∷◌, ◌||◌, true, [], map, drop, Some, is_none, IfOk, OnOk, OnErr, Err};
ghost use Rattle.sal_io.specs.Failing.{next_call, is_to_fail, faults_after, shelf_failed};
ghost use Rattle.sal_io.specs.Calls.{IsRaised, HasCause, IsOpened, IsCreated};
ghost use Rattle.std.specs.Bool.{OnTrue, OnFalse};
ghost use Rattle.std.specs.Option.{option_map};
ghost use Rattle.sal_io.specs.Memory.{bytes_under, failing_under, or_none, past_of};

use crate::answers::ShelfFault;
use crate::ledger::{Ledger, Shut};
use crate::mem_file::MemFile;
use crate::mem_sink::MemSink;
use crate::mem_source::MemSource;
use crate::traits::Shelf;
use sal_base::Bytes;
use std::alloc::{AllocError, Global};

/// Named bytes in memory. The calls with the listed numbers, counted from 1, fail.
#[derive(Drop)]
pub struct MemShelf {
    files: Vec<MemFile>,
    ledger: Ledger<MemSource, MemSink>,
    calls: u64,
    failing: Vec<u64>,
    faults: u64,
}

fn find<'a>(files: &'a [MemFile], name: &[u8]) -> Option<&'a MemFile>
    ensures bytes { option_map (λ f. f.now.bytes) result ≡ bytes_under files.now name.now }
    ensures failing { option_map (λ f. f.now.failing.items) result ≡ failing_under files.now name.now }
{
    for file in files {
        if file.name.as_slice() == name {
            return Some(file);
        }
    }
    None
}

fn copied(alloc: Global, numbers: &Vec<u64>) -> Result<Vec<u64>, AllocError>
    ensures { IfOk result (λ copy. copy.items ≡ numbers.now.items) }
{
    Vec::from_slice(alloc, numbers)
}

impl MemShelf {
    /// These files, before the first call.
    pub fn new(alloc: Global, files: Vec<MemFile>, failing: Vec<u64>) -> Self
        ensures files { result.files ≡ files }
        ensures shut { result.ledger.shut.items ≡ [] }
        ensures calls { result.calls ≡ 0 }
        ensures failing { result.failing ≡ failing }
        ensures spare { result.ledger.spare ≡ 0 }
        ensures faults { result.faults ≡ 0 }
    {
        MemShelf {
            files,
            ledger: Ledger::new(alloc),
            calls: 0,
            failing,
            faults: 0,
        }
    }

    /// What was shut, in order.
    pub fn shut(&self) -> &[Shut<MemSource, MemSink>]
        ensures { result.now ≡ self.now.ledger.shut.items }
    {
        self.ledger.shut()
    }

    // Whether this call is to fail, which it then counts.
    fn fails(&mut self) -> bool
        ensures files { self.new.files ≡ self.old.files }
        ensures ledger { self.new.ledger ≡ self.old.ledger }
        ensures listed { result ≡ is_to_fail self.old.failing.items (next_call self.old.calls) }
        ensures calls { self.new.calls ≡ next_call self.old.calls }
        ensures failing { self.new.failing ≡ self.old.failing }
        ensures faults { self.new.faults ≡ faults_after result self.old.faults }
        ensures quiet { OnFalse result (self.new.faults ≡ self.old.faults) }
        ensures rose { OnTrue result (IsRaised self.old.faults self.new.faults) }
    {
        self.calls = self.calls.saturating_add(1);
        let fails = self.failing.contains(&self.calls);
        if fails {
            self.fail();
        }
        fails
    }

    fn fail(&mut self)
        ensures files { self.new.files ≡ self.old.files }
        ensures ledger { self.new.ledger ≡ self.old.ledger }
        ensures calls { self.new.calls ≡ self.old.calls }
        ensures failing { self.new.failing ≡ self.old.failing }
        ensures faults { self.new.faults ≡ faults_after true self.old.faults }
        ensures rose { IsRaised self.old.faults self.new.faults }
    {
        self.faults = self.faults.saturating_add(1);
    }
}

impl Shelf for MemShelf {
    type In = MemSource;

    type Out = MemSink;

    ghost holds = { λ s. bytes_under s.files.items };

    ghost faults = { λ s. s.faults };

    ghost spare = { λ s. s.ledger.spare };

    ghost pasts = { λ s. map past_of s.ledger.shut.items };

    fn faults(&self) -> u64 {
        self.faults
    }

    fn open(&mut self, alloc: Global, name: &str) -> Result<MemSource, ShelfFault>
        ensures opened { IfOk result (λ s. IsOpened name.now (bytes_under self.old.files.items name.now) s.name (Some s.bytes) (Some (drop s.at s.bytes)) s.faults) }
        ensures fresh { IfOk result (λ s. s.calls ≡ 0) }
        ensures given { IfOk result (λ s. failing_under self.old.files.items name.now ≡ Some s.failing.items) }
        ensures fails { shelf_failed result ≡ (is_to_fail self.old.failing.items (next_call self.old.calls) || is_none (bytes_under self.old.files.items name.now)) }
        ensures calls { self.new.calls ≡ next_call self.old.calls }
        ensures failing { self.new.failing ≡ self.old.failing }
        ensures faults { self.new.faults ≡ faults_after (shelf_failed result) self.old.faults }
        ensures cause { HasCause (Err ShelfFault.Failed) self.old.faults self.new.faults result }
        ensures spare { OnOk result (self.new.ledger.spare ≡ self.old.ledger.spare + 1) }
        ensures kept { OnErr result (self.new.ledger.spare ≡ self.old.ledger.spare) }
        ensures pasts { map past_of self.new.ledger.shut.items ≡ map past_of self.old.ledger.shut.items }
        ensures holds { bytes_under self.new.files.items ≡ bytes_under self.old.files.items }
    {
        if self.fails() {
            return Err(ShelfFault::Failed);
        }
        let Some(file) = find(&self.files, name.as_bytes()) else {
            self.fail();
            return Err(ShelfFault::Failed);
        };
        let name = Bytes::from_slice(alloc, name.as_bytes()).map_err(|_| ShelfFault::Memory)?;
        let bytes = Bytes::from_slice(alloc, file.bytes.as_slice()).map_err(
            |_| ShelfFault::Memory,
        )?;
        let failing = copied(alloc, &file.failing).map_err(|_| ShelfFault::Memory)?;
        self.ledger.reserve().map_err(|_| ShelfFault::Memory)?;
        Ok(MemSource::new(name, bytes, failing))
    }

    fn create(&mut self, alloc: Global, name: &str) -> Result<MemSink, ShelfFault>
        ensures created { IfOk result (λ s. IsCreated name.now s.name (Some s.bytes) s.faults) }
        ensures fresh { IfOk result (λ s. s.calls ≡ 0) }
        ensures given { IfOk result (λ s. s.failing.items ≡ or_none (failing_under self.old.files.items name.now)) }
        ensures fails { shelf_failed result ≡ is_to_fail self.old.failing.items (next_call self.old.calls) }
        ensures calls { self.new.calls ≡ next_call self.old.calls }
        ensures failing { self.new.failing ≡ self.old.failing }
        ensures faults { self.new.faults ≡ faults_after (shelf_failed result) self.old.faults }
        ensures cause { HasCause (Err ShelfFault.Failed) self.old.faults self.new.faults result }
        ensures spare { OnOk result (self.new.ledger.spare ≡ self.old.ledger.spare + 1) }
        ensures kept { OnErr result (self.new.ledger.spare ≡ self.old.ledger.spare) }
        ensures pasts { map past_of self.new.ledger.shut.items ≡ map past_of self.old.ledger.shut.items }
        ensures holds { bytes_under self.new.files.items ≡ bytes_under self.old.files.items }
    {
        if self.fails() {
            return Err(ShelfFault::Failed);
        }
        let mut failing = Vec::new(alloc);
        if let Some(file) = find(&self.files, name.as_bytes()) {
            failing = copied(alloc, &file.failing).map_err(|_| ShelfFault::Memory)?;
        }
        let name = Bytes::from_slice(alloc, name.as_bytes()).map_err(|_| ShelfFault::Memory)?;
        self.ledger.reserve().map_err(|_| ShelfFault::Memory)?;
        Ok(MemSink::new(name, Bytes::new(alloc), failing))
    }

    fn shut_in(&mut self, source: MemSource)
        requires { 1 ≤ self.old.ledger.spare }
        ensures spare { self.new.ledger.spare + 1 ≡ self.old.ledger.spare }
        ensures pasts { map past_of self.new.ledger.shut.items ≡ map past_of self.old.ledger.shut.items ++ past_of (Shut.Source source) ∷ [] }
        ensures calls { self.new.calls ≡ self.old.calls }
        ensures failing { self.new.failing ≡ self.old.failing }
        ensures faults { self.new.faults ≡ self.old.faults }
        ensures files { self.new.files ≡ self.old.files }
    {
        self.ledger.put(Shut::Source(source));
    }

    fn shut_out(&mut self, sink: MemSink)
        requires { 1 ≤ self.old.ledger.spare }
        ensures spare { self.new.ledger.spare + 1 ≡ self.old.ledger.spare }
        ensures pasts { map past_of self.new.ledger.shut.items ≡ map past_of self.old.ledger.shut.items ++ past_of (Shut.Sink sink) ∷ [] }
        ensures calls { self.new.calls ≡ self.old.calls }
        ensures failing { self.new.failing ≡ self.old.failing }
        ensures faults { self.new.faults ≡ self.old.faults }
        ensures files { self.new.files ≡ self.old.files }
    {
        self.ledger.put(Shut::Sink(sink));
    }
}
