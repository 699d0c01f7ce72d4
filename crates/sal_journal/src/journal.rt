//! A journal that was read.

ghost use Rattle.std.specs.Prelude.{◌≡◌, [], ◌∷◌, ◌++◌, if◌then◌else◌, is_ok};

use crate::event::JournalEvent;
use sal_y4m::Head;
use std::alloc::{AllocError, Global};
use std::marker::Model;

/// What happened, in order; seen as a list.
#[derive(Debug, Drop)]
pub struct Events {
    items: Vec<JournalEvent>,
}

impl Model for Events {
    ghost use Rattle.std.specs.Prelude.{List};
    ghost use Rattle.sal_journal.specs.declared.event.JournalEvent.{JournalEvent as EventData};

    ghost Value = { List EventData };

    ghost view = { λ e. e.items.items };
}

impl Events {
    /// Nothing.
    pub(crate) fn new(alloc: Global) -> Self
        ensures { result ≡ [] }
    {
        Events {
            items: Vec::new(alloc),
        }
    }

    /// Adds an event at the end; want of memory changes nothing.
    pub(crate) fn push(&mut self, event: JournalEvent) -> Result<(), AllocError>
        ensures { self.new ≡ (if is_ok result then self.old ++ event ∷ [] else self.old) }
    {
        self.items.push(event)?;
        Ok(())
    }

    /// The events in order.
    pub fn as_slice(&self) -> &[JournalEvent]
        ensures { result.now ≡ self.now }
    {
        self.items.as_slice()
    }
}

/// The head of a session of both ends, and what happened in it.
#[derive(Debug, Drop)]
pub struct Journal {
    head: Head,
    events: Events,
}

impl Model for Journal {
    ghost use Rattle.sal_journal.specs.Reading.{Told};

    ghost Value = { Told };

    ghost view = { λ j. record { head = j.head; events = j.events } };
}

impl Journal {
    /// A journal of this head and these events.
    pub(crate) fn new(head: Head, events: Events) -> Self
        ensures { result ≡ record { head = head; events = events } }
    {
        Journal { head, events }
    }

    /// The size and the rate.
    pub fn head(&self) -> Head
        ensures { result ≡ self.now.head }
    {
        self.head
    }

    /// What happened, in order.
    pub fn events(&self) -> &[JournalEvent]
        ensures { result.now ≡ self.now.events }
    {
        self.events.as_slice()
    }
}
