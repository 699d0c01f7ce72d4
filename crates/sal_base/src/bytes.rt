//! A list of bytes.

ghost use Rattle.std.specs.Prelude.{◌≡◌, ℕ, List, [], ◌∷◌, ◌++◌, length, if◌then◌else◌, is_ok, replicate, IfOk, OnErr};
ghost use Rattle.std.specs.Borrow.{sem};
ghost use Rattle.sal_base.specs.Lending.{LendsBytes};

use std::alloc::{AllocError, Global};
use std::marker::Model;

/// Bytes that contracts see as a list.
#[derive(Debug, Drop)]
pub struct Bytes {
    items: Vec<u8>,
}

impl Model for Bytes {
    ghost use Rattle.std.specs.Prelude.{List, ℕ};

    ghost Value = { List ℕ };

    ghost view = { λ b. b.items.items };
}

impl Bytes {
    /// No bytes.
    pub fn new(alloc: Global) -> Self
        ensures { result ≡ [] }
    {
        Bytes {
            items: Vec::new(alloc),
        }
    }

    /// The bytes of a `Vec`.
    pub fn from_vec(items: Vec<u8>) -> Self
        ensures { result ≡ items.items }
    {
        Bytes { items }
    }

    /// The bytes as a `Vec`.
    pub fn into_vec(self) -> Vec<u8>
        ensures { result.items ≡ self }
    {
        self.items
    }

    /// A copy of these bytes.
    pub fn from_slice(alloc: Global, bytes: &[u8]) -> Result<Self, AllocError>
        ensures { IfOk result (λ b. b ≡ bytes.now) }
    {
        Ok(Bytes {
            items: Vec::from_slice(alloc, bytes)?,
        })
    }

    /// The same byte `count` times.
    pub fn repeat(alloc: Global, value: u8, count: usize) -> Result<Self, AllocError>
        ensures { IfOk result (λ b. b ≡ replicate count value) }
    {
        Ok(Bytes {
            items: vec![in alloc; value; count]?,
        })
    }

    /// The bytes, lent.
    pub fn as_slice(&self) -> &[u8]
        ensures { result.now ≡ self.now }
    {
        self.items.as_slice()
    }

    /// The bytes, lent to be written over; their number stays.
    pub fn as_mut_slice(&mut self) -> &mut [u8]
        ensures* lends { sem 𝓛 (LendsBytes self.entry result) }
        ensures value { result.now ≡ self.old }
    {
        self.items.as_mut_slice()
    }

    /// How many bytes there are.
    pub fn len(&self) -> usize
        ensures { result ≡ length self.now }
    {
        self.items.len()
    }

    /// Adds a byte at the end; want of memory changes nothing.
    pub fn push(&mut self, byte: u8) -> Result<(), AllocError>
        ensures { self.new ≡ (if is_ok result then self.old ++ byte ∷ [] else self.old) }
    {
        self.items.push(byte)?;
        Ok(())
    }

    /// Adds bytes at the end; want of memory changes nothing.
    pub fn extend(&mut self, bytes: &[u8]) -> Result<(), AllocError>
        ensures { self.new ≡ (if is_ok result then self.old ++ bytes.now else self.old) }
    {
        self.items.extend_from_slice(bytes)
    }
}
