//! Sources, sinks and a shelf over std, which tell nothing of contents.

ghost use Rattle.std.specs.Prelude.{◌≡◌, ◌<◌, None, [], map, length, ℕ, List, Option, is_some};
ghost use Rattle.sal_io.specs.Calls.{HasCause, ReadGives, WriteGives};
ghost use Rattle.sal_io.specs.Real.{real_past_of};

use crate::answers::{ShelfFault, Took, Wrote};
use crate::ledger::{Ledger, Shut};
use crate::traits::{Shelf, Sink, Source};
use sal_base::Bytes;
use std::alloc::Global;
use std::fs;
use std::io::{Read, Write};
use std::rt::Files;

/// A source over any reader.
#[derive(Drop)]
pub struct StdSource<R> {
    name: Bytes,
    inner: R,
    faults: u64,
}

impl<R> StdSource<R> {
    /// A source over this reader.
    pub fn new(name: Bytes, inner: R) -> Self
        ensures name { result.name ≡ name }
        ensures inner { result.inner ≡ inner }
        ensures faults { result.faults ≡ 0 }
    {
        StdSource {
            name,
            inner,
            faults: 0,
        }
    }
}

impl<R: Read> Source for StdSource<R> {
    ghost name = { λ s. s.name };

    ghost had = { λ _. None };

    ghost left = { λ _. None };

    ghost faults = { λ s. s.faults };

    fn faults(&self) -> u64 {
        self.faults
    }

    fn read(&mut self, buf: &mut [u8]) -> Took
        requires { 0 < length buf.old }
        ensures handed_on { ReadGives (R.remaining self.old.inner) (R.remaining self.new.inner) result buf.new }
        ensures bytes { ReadGives None None result buf.new }
        ensures cause { HasCause Took.Failed self.old.faults self.new.faults result }
        ensures name { self.new.name ≡ self.old.name }
    {
        match self.inner.read(buf) {
            Ok(0) => Took::End,
            Ok(count) => Took::Got(count),
            Err(_) => {
                self.faults = self.faults.saturating_add(1);
                Took::Failed
            }
        }
    }
}

/// A sink over any writer.
#[derive(Drop)]
pub struct StdSink<W> {
    name: Bytes,
    inner: W,
    faults: u64,
}

impl<W> StdSink<W> {
    /// A sink over this writer.
    pub fn new(name: Bytes, inner: W) -> Self
        ensures name { result.name ≡ name }
        ensures inner { result.inner ≡ inner }
        ensures faults { result.faults ≡ 0 }
    {
        StdSink {
            name,
            inner,
            faults: 0,
        }
    }
}

impl<W: Write> Sink for StdSink<W> {
    ghost name = { λ s. s.name };

    ghost held = { λ _. None };

    ghost faults = { λ s. s.faults };

    fn faults(&self) -> u64 {
        self.faults
    }

    fn write(&mut self, bytes: &[u8]) -> Wrote
        requires { 0 < length bytes.now }
        ensures handed_on { WriteGives (W.contents self.old.inner) (W.contents self.new.inner) result bytes.now }
        ensures bytes { WriteGives None None result bytes.now }
        ensures cause { HasCause Wrote.Failed self.old.faults self.new.faults result }
        ensures name { self.new.name ≡ self.old.name }
    {
        if let Ok(count) = self.inner.write(bytes)
            && count > 0
        {
            return Wrote::Wrote(count);
        }
        self.faults = self.faults.saturating_add(1);
        Wrote::Failed
    }
}

/// The files of a runtime.
#[derive(Drop)]
pub struct StdShelf<R: Files> {
    rt: R,
    ledger: Ledger<StdSource<R::File>, StdSink<R::File>>,
    faults: u64,
}

impl<R: Files> StdShelf<R> {
    /// The files of this runtime.
    pub fn new(rt: R, alloc: Global) -> Self
        ensures shut { result.ledger.shut.items ≡ [] }
        ensures spare { result.ledger.spare ≡ 0 }
        ensures faults { result.faults ≡ 0 }
    {
        StdShelf {
            rt,
            ledger: Ledger::new(alloc),
            faults: 0,
        }
    }
}

impl<R: Files> Shelf for StdShelf<R> {
    type In = StdSource<R::File>;

    type Out = StdSink<R::File>;

    ghost holds = { λ _ _. None };

    ghost faults = { λ s. s.faults };

    ghost spare = { λ s. s.ledger.spare };

    ghost pasts = { λ s. map real_past_of s.ledger.shut.items };

    fn faults(&self) -> u64 {
        self.faults
    }

    fn open(&mut self, alloc: Global, name: &str) -> Result<StdSource<R::File>, ShelfFault> {
        let kept = Bytes::from_slice(alloc, name.as_bytes()).map_err(|_| ShelfFault::Memory)?;
        self.ledger.reserve().map_err(|_| ShelfFault::Memory)?;
        match fs::open(&self.rt, name) {
            Ok(file) => Ok(StdSource::new(kept, file)),
            Err(_) => {
                self.ledger.release();
                self.faults = self.faults.saturating_add(1);
                Err(ShelfFault::Failed)
            }
        }
    }

    fn create(&mut self, alloc: Global, name: &str) -> Result<StdSink<R::File>, ShelfFault> {
        let kept = Bytes::from_slice(alloc, name.as_bytes()).map_err(|_| ShelfFault::Memory)?;
        self.ledger.reserve().map_err(|_| ShelfFault::Memory)?;
        match fs::create(&self.rt, name) {
            Ok(file) => Ok(StdSink::new(kept, file)),
            Err(_) => {
                self.ledger.release();
                self.faults = self.faults.saturating_add(1);
                Err(ShelfFault::Failed)
            }
        }
    }

    fn shut_in(&mut self, source: StdSource<R::File>) {
        self.ledger.put(Shut::Source(source));
    }

    fn shut_out(&mut self, sink: StdSink<R::File>) {
        self.ledger.put(Shut::Sink(sink));
    }
}
