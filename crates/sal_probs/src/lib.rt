//! The probabilities that a state keeps, their updates by a frame's header, and what is left of them after the frame (RFC 6386, section 9.11).
#![tactic(auto)]

mod replace;
mod table;
mod updates;

pub use table::{Probs, Saved};
pub use updates::Updates;

#[cfg(test)]
mod tests;
