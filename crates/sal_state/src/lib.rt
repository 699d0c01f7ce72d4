//! States of the decoder: what a frame is decoded from, their digests and their names (RFC 6386, sections 9.3, 9.4, 9.7 and 9.11).
#![tactic(auto)]

mod bytes;
mod reference;
mod state;

pub use reference::Reference;
pub use state::{References, State};

#[cfg(test)]
mod tests;
