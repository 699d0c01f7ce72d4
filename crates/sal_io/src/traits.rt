//! What the program asks of the outside.

ghost use Rattle.std.specs.Prelude.{is_some, ◌≡◌, ◌+◌, ◌<◌, ◌≤◌, ◌++◌, ◌∷◌, [], ℕ, List, Option, length, IfOk, OnOk, OnErr, Err};
ghost use Rattle.sal_io.specs.Past.{Past};
ghost use Rattle.sal_io.specs.Past.Past.{In, Out};
ghost use Rattle.sal_io.specs.Calls.{HasCause, ReadGives, WriteGives, IsOpened, IsCreated};

use crate::answers::{ShelfFault, Took, Wrote};
use std::alloc::Global;

/// Bytes that are read from the front.
pub trait Source {
    /// The name that it was opened with.
    ghost name: { Self → List ℕ };

    /// What it had as it was opened, where it tells.
    ghost had: { Self → Option (List ℕ) };

    /// What is left, where it tells.
    ghost left: { Self → Option (List ℕ) };

    /// How often it has failed.
    ghost faults: { Self → ℕ };

    /// How often it has failed; it stays at the greatest u64.
    fn faults(&self) -> u64
        ensures { result ≡ faults self.now };

    /// Reads bytes to the front of the buffer, which isn't empty. Failed comes only where the count of faults rose.
    fn read(&mut self, buf: &mut [u8]) -> Took
        requires { 0 < length buf.old }
        ensures bytes { ReadGives (left self.old) (left self.new) result buf.new }
        ensures cause { HasCause Took.Failed (faults self.old) (faults self.new) result }
        ensures name { name self.new ≡ name self.old }
        ensures had { had self.new ≡ had self.old }
        ensures tells { is_some (left self.new) ≡ is_some (left self.old) };
}

/// Bytes that are appended.
pub trait Sink {
    /// The name that it was created with.
    ghost name: { Self → List ℕ };

    /// What it holds, where it tells.
    ghost held: { Self → Option (List ℕ) };

    /// How often it has failed.
    ghost faults: { Self → ℕ };

    /// How often it has failed; it stays at the greatest u64.
    fn faults(&self) -> u64
        ensures { result ≡ faults self.now };

    /// Appends a front of the bytes, which aren't none. Failed comes only where the count of faults rose.
    fn write(&mut self, bytes: &[u8]) -> Wrote
        requires { 0 < length bytes.now }
        ensures bytes { WriteGives (held self.old) (held self.new) result bytes.now }
        ensures cause { HasCause Wrote.Failed (faults self.old) (faults self.new) result }
        ensures name { name self.new ≡ name self.old }
        ensures tells { is_some (held self.new) ≡ is_some (held self.old) };
}

/// Named bytes, which are opened to be read, or created to be written, and shut again.
pub trait Shelf {
    /// What is read.
    type In: Source;

    /// What is written.
    type Out: Sink;

    /// The bytes under a name, where it tells.
    ghost holds: { Self → List ℕ → Option (List ℕ) };

    /// How often it has failed.
    ghost faults: { Self → ℕ };

    /// Room for the Pasts of objects that are open.
    ghost spare: { Self → ℕ };

    /// What is known of each object that was shut, in order.
    ghost pasts: { Self → List Past };

    /// How often it has failed; it stays at the greatest u64.
    fn faults(&self) -> u64
        ensures { result ≡ faults self.now };

    /// Opens the bytes under a name. Failed comes only where the count of faults rose.
    fn open(&mut self, alloc: Global, name: &str) -> Result<Self::In, ShelfFault>
        ensures opened { IfOk result (λ s. IsOpened name.now (holds self.old name.now) (Self.In.name s) (Self.In.had s) (Self.In.left s) (Self.In.faults s)) }
        ensures cause { HasCause (Err ShelfFault.Failed) (faults self.old) (faults self.new) result }
        ensures spare { OnOk result (spare self.new ≡ spare self.old + 1) }
        ensures kept { OnErr result (spare self.new ≡ spare self.old) }
        ensures pasts { pasts self.new ≡ pasts self.old }
        ensures holds { holds self.new ≡ holds self.old };

    /// Creates a sink, which holds nothing, under a name. Failed comes only where the count of faults rose.
    fn create(&mut self, alloc: Global, name: &str) -> Result<Self::Out, ShelfFault>
        ensures created { IfOk result (λ s. IsCreated name.now (Self.Out.name s) (Self.Out.held s) (Self.Out.faults s)) }
        ensures cause { HasCause (Err ShelfFault.Failed) (faults self.old) (faults self.new) result }
        ensures spare { OnOk result (spare self.new ≡ spare self.old + 1) }
        ensures kept { OnErr result (spare self.new ≡ spare self.old) }
        ensures pasts { pasts self.new ≡ pasts self.old }
        ensures holds { holds self.new ≡ holds self.old };

    /// Takes a source back; it takes no memory.
    fn shut_in(&mut self, source: Self::In)
        requires { 1 ≤ spare self.old }
        ensures spare { spare self.new + 1 ≡ spare self.old }
        ensures pasts { pasts self.new ≡ pasts self.old ++ In (Self.In.name source) (Self.In.had source) (Self.In.left source) (Self.In.faults source) ∷ [] }
        ensures faults { faults self.old ≤ faults self.new }
        ensures holds { holds self.new ≡ holds self.old };

    /// Takes a sink back; it takes no memory.
    fn shut_out(&mut self, sink: Self::Out)
        requires { 1 ≤ spare self.old }
        ensures spare { spare self.new + 1 ≡ spare self.old }
        ensures pasts { pasts self.new ≡ pasts self.old ++ Out (Self.Out.name sink) (Self.Out.held sink) (Self.Out.faults sink) ∷ [] }
        ensures faults { faults self.old ≤ faults self.new }
        ensures holds { holds self.new ≡ holds self.old };
}
