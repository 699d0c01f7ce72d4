//! The journal of a session of both ends: as it is written, and as it is read.
#![tactic(auto)]

mod book;
mod event;
mod fault;
mod journal;
mod laws;
mod parsing;
mod reading;
mod words;
mod writing;

pub use book::Book;
pub use event::JournalEvent;
pub use fault::JournalFault;
pub use journal::{Events, Journal};
pub use laws::{is_read_again, is_what_is_written, tells_apart};
pub use reading::read_events;
pub use writing::write_event;

#[cfg(test)]
mod tests;
