//! What every codec keeps, and the first codec: pictures without compression.
#![tactic(auto)]

mod codec;
mod difference;
mod frame;
mod plain;
mod raw;

pub use codec::{Codec, keeps_the_law, name_of};
pub use plain::{Plain, PlainState};

#[cfg(test)]
mod tests;
