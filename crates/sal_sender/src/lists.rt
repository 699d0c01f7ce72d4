//! Lists that the answers carry: frame numbers, sizes, datagrams.

ghost use Rattle.std.specs.Prelude.{◌≡◌, ◌<◌, ◌≤◌, ℕ, List, [], ◌∷◌, ◌++◌, length, OnOk};
ghost use Rattle.std.specs.Option.{option_to_list};
ghost use Rattle.sal_base.specs.declared.limits.TheConstants.{WINDOW};
ghost use Rattle.sal_sender.specs.declared.choice.Size.{Size as SizeData};

use crate::choice::Size;
use arrayvec::ArrayVec;
use sal_base::{Bytes, Memory};
use std::alloc::Global;
use std::marker::Model;

/// The frame numbers that an acknowledgement names for the first time, at most sixteen.
#[derive(Drop)]
pub struct FrameNumbers {
    items: ArrayVec<u32, 16>,
}

impl Model for FrameNumbers {
    ghost Value = { List ℕ };

    ghost view = { λ n. n.items.items };
}

impl FrameNumbers {
    /// No frame numbers.
    pub(crate) fn new() -> Self
        ensures { result ≡ [] }
    {
        FrameNumbers {
            items: ArrayVec::new(),
        }
    }

    /// The frame numbers, in rising order, lent.
    pub fn as_slice(&self) -> &[u32]
        ensures value { result.now ≡ self.now }
        ensures fits { length result.now ≤ WINDOW }
    {
        self.items.as_slice()
    }

    /// Adds a frame number at the end, where there is room.
    pub(crate) fn push(&mut self, number: u32)
        requires { length self.old < WINDOW }
        ensures { self.new ≡ self.old ++ number ∷ [] }
    {
        self.items.push(number);
    }
}

/// The sizes of the candidates whose reports are in, at most two.
#[derive(Drop)]
pub struct Sizes {
    items: ArrayVec<Size, 2>,
}

impl Model for Sizes {
    ghost Value = { List SizeData };

    ghost view = { λ s. s.items.items };
}

impl Sizes {
    /// No sizes.
    pub(crate) fn new() -> Self
        ensures { result ≡ [] }
    {
        Sizes {
            items: ArrayVec::new(),
        }
    }

    /// The sizes, of the candidate that is wanted most first, lent.
    pub fn as_slice(&self) -> &[Size]
        ensures value { result.now ≡ self.now }
        ensures fits { length result.now ≤ 2 }
    {
        self.items.as_slice()
    }

    /// Adds a size at the end, where there is one and room for it.
    pub(crate) fn add(&mut self, size: Option<Size>)
        requires { length self.old < 2 }
        ensures { self.new ≡ self.old ++ option_to_list size }
    {
        if let Some(size) = size {
            self.items.push(size);
        }
    }
}

/// The datagrams of a choice, in the order of their serials.
#[derive(Drop)]
pub struct Burst {
    items: Vec<Bytes>,
}

impl Model for Burst {
    ghost Value = { List (List ℕ) };

    ghost view = { λ b. b.items.items };
}

impl Burst {
    /// No datagrams.
    pub(crate) fn new(alloc: Global) -> Self
        ensures { result ≡ [] }
    {
        Burst {
            items: Vec::new(alloc),
        }
    }

    /// The datagrams, lent.
    pub fn as_slice(&self) -> &[Bytes]
        ensures { result.now ≡ self.now }
    {
        self.items.as_slice()
    }

    /// The datagrams as a `Vec`.
    pub fn into_vec(self) -> Vec<Bytes>
        ensures { result.items ≡ self }
    {
        self.items
    }

    /// Adds a datagram at the end.
    pub(crate) fn push(&mut self, datagram: Bytes) -> Result<(), Memory>
        ensures { OnOk result (self.new ≡ self.old ++ datagram ∷ []) }
    {
        self.items.push(datagram)?;
        Ok(())
    }
}
