//! The loop filters (RFC 6386, section 15). None takes memory.
#![tactic(auto)]

mod across;
mod block;
mod edge;
mod head;
mod lanes;
mod limits;
mod picture;

pub use across::Across;
pub use head::{FilterHead, MbInfo};
pub use limits::Limits;
pub use picture::filter_picture;

#[cfg(test)]
mod tests;
