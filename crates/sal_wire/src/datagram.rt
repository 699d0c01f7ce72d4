//! One datagram.

use crate::fragment::Fragment;
use sal_base::HeldStates;

/// An acknowledgement: which states a receiver holds, and the gap that it measured.
#[derive(Drop)]
pub struct Ack {
    /// The session, the same in all its datagrams.
    pub session: u32,
    /// The greatest serial that came, 0 before any.
    pub serial: u32,
    /// The mean gap between fragments, in microseconds.
    pub gap: u32,
    /// The states held, by frame numbers that rise, from 1 to 1,048,575; each with its name.
    pub held: HeldStates,
}

/// The end of a session.
#[derive(Clone, Copy, Debug, PartialEq, Eq)]
pub struct Bye {
    /// The session, the same in all its datagrams.
    pub session: u32,
    /// The frame number of the last frame that was sent, 0 where none was.
    pub last: u32,
}

/// What one datagram says.
#[derive(Drop)]
pub enum Datagram<'a> {
    /// From the sender: a part of a frame, whose data is lent.
    Fragment(Fragment<'a>),
    /// From the receiver: what came so far.
    Ack(Ack),
    /// From the sender: no more frames come.
    Bye(Bye),
}
