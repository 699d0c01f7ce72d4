//! Room for what is shut, made as it is opened.

ghost use Rattle.std.specs.Prelude.{◌≡◌, ◌+◌, ◌≤◌, ◌++◌, ◌∷◌, [], OnOk, OnErr, vec_len, vec_capacity};

use std::alloc::{AllocError, Global};

/// An object that was shut.
#[derive(Drop)]
pub enum Shut<I, O> {
    Source(I),
    Sink(O),
}

/// What was shut, in order, and how many open objects have a place in it.
#[derive(Drop)]
pub struct Ledger<I, O> {
    shut: Vec<Shut<I, O>>,
    spare: usize,
    ghost room: { vec_len shut + spare ≤ vec_capacity shut },
}

impl<I, O> Ledger<I, O> {
    /// Nothing was shut, and there is no room.
    pub fn new(alloc: Global) -> Self
        ensures shut { result.shut.items ≡ [] }
        ensures spare { result.spare ≡ 0 }
    {
        Ledger {
            shut: Vec::new(alloc),
            spare: 0,
        }
    }

    /// What was shut, in order.
    pub fn shut(&self) -> &[Shut<I, O>]
        ensures { result.now ≡ self.now.shut.items }
    {
        self.shut.as_slice()
    }

    /// Makes room for one more.
    pub fn reserve(&mut self) -> Result<(), AllocError>
        ensures shut { self.new.shut.items ≡ self.old.shut.items }
        ensures ok { OnOk result (self.new.spare ≡ self.old.spare + 1) }
        ensures err { OnErr result (self.new.spare ≡ self.old.spare) }
    {
        let wanted = match self.spare.checked_add(1) {
            Some(wanted) => wanted,
            None => return Err(AllocError),
        };
        self.shut.reserve(wanted)?;
        self.spare = wanted;
        Ok(())
    }

    /// Gives back the room of one.
    pub fn release(&mut self)
        requires { 1 ≤ self.old.spare }
        ensures shut { self.new.shut.items ≡ self.old.shut.items }
        ensures spare { self.new.spare + 1 ≡ self.old.spare }
    {
        self.spare -= 1;
    }

    /// Gives a place to what was shut.
    pub fn put(&mut self, object: Shut<I, O>)
        requires { 1 ≤ self.old.spare }
        ensures shut { self.new.shut.items ≡ self.old.shut.items ++ object ∷ [] }
        ensures spare { self.new.spare + 1 ≡ self.old.spare }
    {
        self.spare -= 1;
        self.shut.push(object).unwrap();
    }
}
