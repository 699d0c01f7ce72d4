//! One machine that many threads call: a ticket lock whose calls stand in one legal history.
#![tactic(auto)]

mod board;
mod desk;
mod history;
mod machine;
mod play;
mod rule;
mod seat;
mod view;

pub use desk::Desk;
pub use history::{History, Log, Stored};
pub use machine::Machine;
pub use seat::Seat;
pub use view::{Item, Kept, Own, Stage, View};

#[cfg(test)]
mod tests;
