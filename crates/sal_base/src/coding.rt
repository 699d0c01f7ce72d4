//! What encoding and decoding give, generic over the state of a codec.

use crate::bytes::Bytes;
use crate::picture::Picture;

/// The kind of a frame (RFC 6386, section 9.1).
#[derive(Clone, Copy, Debug, PartialEq, Eq)]
pub enum Kind {
    /// It is decoded from any state.
    Key,
    /// It is decoded from the state that it was encoded from.
    Inter,
}

/// The first fault of a frame's bytes, in the order in which a decoder meets them (RFC 6386, sections 9.1 and 9.5).
#[derive(Clone, Copy, Debug, PartialEq, Eq)]
pub enum Fault {
    /// The bytes end inside the tag or the start of a key frame.
    Short,
    /// A bitstream version other than 0.
    BadVersion(u8),
    /// A key frame's start code is another one.
    BadStart,
    /// A side is 0.
    ZeroSize,
    /// A side, width first, is above the limits.
    TooLarge(u16, u16),
    /// An inter frame on a state without references.
    NoReference,
    /// The first partition has this many bytes, and this many are left.
    FirstPart(u32, u32),
    /// The token partition of this index goes past the end.
    Partition(u8),
}

/// What an encoder made of a picture.
#[derive(Debug, Drop)]
pub enum Encoding<S> {
    /// A frame.
    Frame {
        /// The frame's bytes.
        bytes: Bytes,
        /// The state that decoding them gives.
        target: S,
        /// The reconstruction: the picture that a decoder of them shows.
        recon: Picture,
    },
    /// No frame, since its first partition is larger than its field of 19 bits can say (RFC 6386, section 9.1).
    Oversize {
        /// How many bytes the first partition would have.
        first: u32,
    },
}

/// What a frame leads to.
#[derive(Debug, Drop)]
pub struct Decoded<S> {
    /// The next state.
    pub state: S,
    /// The decoded picture.
    pub picture: Picture,
    /// The frame's flag show_frame (RFC 6386, section 9.1).
    pub shown: bool,
}

/// Why a frame wasn't decoded.
#[derive(Clone, Copy, Debug, PartialEq, Eq)]
pub enum DecodeFault {
    /// The bytes are no frame of this state.
    Bad(Fault),
    /// There was no memory to decode it.
    Memory,
}
