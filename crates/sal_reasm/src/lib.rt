//! Frames reassembled from their fragments, whatever the order in which these come.
#![tactic(auto)]

mod answers;
mod laws;
mod slot;
mod slots;

pub use answers::{CLASH_PLACE, ClashField, Offered};
pub use laws::reassembles_what_was_split;
pub use slots::Slots;

#[cfg(test)]
mod tests;
