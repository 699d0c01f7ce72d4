//! Decoding of a frame: from a state and a frame's bytes to the next state, the picture and whether it is shown, or to the first
//! fault of the bytes (RFC 6386, sections 9 to 19).
#![tactic(auto)]

mod coefficients;
mod frame;
mod head;
mod modes;
mod picture;
mod segment;
mod tokens;

pub use frame::decode;

#[cfg(test)]
mod tests;
