//! Which numbers were named.

ghost use Rattle.std.specs.Prelude.{◌≡◌, ◌<◌, [], ℕ, length, OnOk, IfErr};
ghost use Rattle.sal_run.specs.Marks.{is_marked};
ghost use Rattle.sal_run.specs.Named.{IsMarked};

use crate::stop::RunStop;
use std::alloc::Global;
use std::marker::Model;

/// Which numbers, from 1, were named.
#[derive(Drop)]
pub(crate) struct NamedNumbers {
    /// A mark by number.
    marks: Vec<bool>,
    /// How many of the first numbers are all marked, so that they aren't looked at again.
    known: u64,
}

impl Model for NamedNumbers {
    ghost use Rattle.sal_run.specs.Marks.{Marks};

    ghost Value = { Marks };

    ghost view = { λ n. record { marks = n.marks.items; known = n.known } };
}

impl NamedNumbers {
    /// No number.
    pub(crate) fn new(alloc: Global) -> NamedNumbers
        ensures { result ≡ record { marks = []; known = 0 } }
    {
        NamedNumbers {
            marks: Vec::new(alloc),
            known: 0,
        }
    }

    /// Whether a number was named.
    pub(crate) fn has(&self, number: u64) -> bool
        ensures { result ≡ is_marked self.now number }
    {
        match self.marks.as_slice().get(number as usize) {
            Some(mark) => *mark,
            None => false,
        }
    }

    /// How many of the first numbers were all named.
    pub(crate) fn known(&self) -> u64
        ensures { result ≡ self.now.known }
    {
        self.known
    }

    /// Makes room for the mark of a number.
    fn make_room(&mut self, number: u64) -> Result<(), RunStop>
        ensures same { (k : ℕ) → is_marked self.new k ≡ is_marked self.old k }
        ensures known { self.new.known ≡ self.old.known }
        ensures room { OnOk result (number < length self.new.marks) }
        ensures memory { IfErr result (λ stop. stop ≡ RunStop.Memory) }
    {
        let Some(end) = (number as usize).checked_add(1) else {
            return Err(RunStop::Memory);
        };
        if self.marks.len() < end && self.marks.resize(end, false).is_err() {
            return Err(RunStop::Memory);
        }
        Ok(())
    }

    /// Says that a number was named.
    pub(crate) fn mark(&mut self, number: u64) -> Result<(), RunStop>
        ensures marked { OnOk result (IsMarked number self.old self.new) }
        ensures memory { IfErr result (λ stop. stop ≡ RunStop.Memory) }
    {
        self.make_room(number)?;
        self.marks[number as usize] = true;
        Ok(())
    }

    /// Says that the first numbers, so many, were all named.
    pub(crate) fn pass(&mut self, count: u64)
        ensures { self.new ≡ record self.old { known = count } }
    {
        self.known = count;
    }
}
