//! The types that all layers share: bytes, names, pictures, and what a codec gives.
#![tactic(auto)]

mod bytes;
mod coding;
mod digits;
mod held_states;
mod kinds;
mod limits;
mod memory;
mod name;
mod picture;

pub use bytes::Bytes;
pub use coding::{DecodeFault, Decoded, Encoding, Fault, Kind};
pub use digits::leading_number;
pub use held_states::HeldStates;
pub use kinds::{SubMode, Vector, YMode};
pub use limits::{MAX_FRAMES, MAX_HEIGHT, MAX_WIDTH, WINDOW};
pub use memory::Memory;
pub use name::Name;
pub use picture::{Picture, PictureFault, Plane, Planes, are_sides};

#[cfg(test)]
mod tests;
