//! The history as it is stored: entries, each with the count of Voids after it.

ghost use Rattle.std.specs.Prelude.{◌≡◌, ◌+◌, ◌<◌, ◌^◌, ◌++◌, ◌∷◌, [], List, length, map, Option, Some, None, slice_get, IfOk, vec_len, vec_capacity, false, true};
ghost use Rattle.std.specs.Option.{option_copied};
ghost use Rattle.sal_desk.specs.Stored.{items_of, present};

use crate::machine::Machine;
use std::alloc::Global;
use std::marker::Model;

/// An entry, and how many Voids follow it.
#[derive(Drop)]
pub struct Stored<E> {
    pub entry: E,
    pub voids: u64,
}

/// A history without names.
#[derive(Drop)]
pub struct Log<E> {
    /// How many Voids stand before the first entry.
    pub before: u64,
    pub stored: Vec<Stored<E>>,
}

impl<E> Log<E> {
    pub(crate) fn new(alloc: Global) -> Log<E>
        ensures { items_of result ≡ [] }
    {
        Log {
            before: 0,
            stored: Vec::new(alloc),
        }
    }

    /// Whether there is room for one more entry.
    pub(crate) fn has_room(&mut self) -> bool
        ensures items { items_of self.new ≡ items_of self.old }
        ensures room { result ≡ true → vec_len self.new.stored < vec_capacity self.new.stored }
    {
        self.stored.reserve(1).is_ok()
    }

    /// Adds an entry.
    pub(crate) fn push(&mut self, entry: E)
        requires { vec_len self.old.stored < vec_capacity self.old.stored }
        ensures { items_of self.new ≡ items_of self.old ++ Some entry ∷ [] }
    {
        self.stored.push_reserved(Stored { entry, voids: 0 });
    }

    /// Adds a Void, which takes no memory.
    pub(crate) fn push_void(&mut self)
        requires { length (items_of self.old) < 2 ^ 63 }
        ensures { items_of self.new ≡ items_of self.old ++ None ∷ [] }
    {
        match self.stored.pop() {
            None => self.before += 1,
            Some(Stored { entry, voids }) => self.stored.push_reserved(Stored {
                entry,
                voids: voids + 1,
            }),
        }
    }
}

fn stored_at<E>(stored: &[Stored<E>], index: usize) -> Option<&Stored<E>>
    ensures { option_copied result ≡ slice_get stored.now index }
{
    stored.get(index)
}

/// A closed history. Contracts see it as its items in order, an entry or a Void each.
pub struct History<M: Machine> {
    pub(crate) log: Log<M::Entry>,
}

impl<M: Machine> Model for History<M> {
    ghost use Rattle.std.specs.Prelude.{List, Option};
    ghost use Rattle.sal_desk.specs.Stored.{items_of};

    ghost Value = { List (Option M.Entry) };

    ghost view = { λ h. items_of h.log };
}

impl<M: Machine> History<M> {
    /// The entry of this number, counted from 0; Voids don't count. None exactly where there are no more.
    pub fn get(&self, index: usize) -> Option<&M::Entry>
        ensures { option_copied result ≡ slice_get (present self.now) index }
    {
        match stored_at(self.log.stored.as_slice(), index) {
            Some(stored) => Some(&stored.entry),
            None => None,
        }
    }
}

impl<M: Machine> Drop for History<M> {
    fn drop(self) {
        let Self { log } = self;
        drop(log);
    }
}
