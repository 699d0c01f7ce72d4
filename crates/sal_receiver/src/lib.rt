//! The receiver: what is complete, what is held, and what is shown.
#![tactic(auto)]

mod answers;
mod decoding;
mod entering;
mod laws;
mod pending_frame;
mod pending_frames;
mod receiver;
mod session_state;
mod shares;

pub use answers::{Delivered, Done, Misfit, Refuse};
pub use decoding::{DecodeOutcome, Decoding, Ready};
pub use laws::{ready_frames_cross_threads, serves_what_is_ready, shows_rising_numbers};
pub use receiver::Receiver;
pub use shares::Shares;

#[cfg(test)]
mod tests;
