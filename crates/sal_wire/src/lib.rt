//! Datagrams, version 1: what goes over the wire, as bytes and as values.
#![tactic(auto)]

mod ack_room;
mod datagram;
mod fault;
mod fragment;
mod layout;
mod reading;
mod writing;

pub use ack_room::AckRoom;
pub use datagram::{Ack, Bye, Datagram};
pub use fault::{Wire, WireFault};
pub use fragment::Fragment;
pub use layout::{
    ACK_HEAD, ACK_KIND, BYE_BYTES, BYE_KIND, FRAGMENT_HEAD, FRAGMENT_KIND, MAX_ACK, MAX_DATA,
    MAX_FRAGMENTS, STATE_BYTES, VERSION,
};
pub use reading::read;
pub use writing::write;

#[cfg(test)]
mod tests;
