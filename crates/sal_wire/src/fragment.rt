//! A part of a frame.

use sal_base::Name;

/// A part of a frame, whose data lies elsewhere.
#[derive(Clone, Copy)]
pub struct Fragment<'a> {
    /// The session, the same in all its datagrams.
    pub session: u32,
    /// The datagram's serial, from 1, rising by 1 over the session.
    pub serial: u32,
    /// The frame number, 1 to 1,048,575.
    pub number: u32,
    /// The least frame number whose state may still be a source, from 1; at most 15 below `number`.
    pub floor: u32,
    /// The name of the state that the frame is decoded from.
    pub source: Name,
    /// The name of the state that decoding gives.
    pub target: Name,
    /// Which fragment of the frame this is, from 0.
    pub index: u16,
    /// How many fragments the frame has, 1 to 4,096.
    pub count: u16,
    /// Microseconds that the sender waited before this frame; 0 in all fragments but the first.
    pub pause: u32,
    /// The picture's width in samples of luma, 1 to 1,280.
    pub width: u16,
    /// The picture's height in samples of luma, 1 to 720.
    pub height: u16,
    /// So many pictures in so many seconds, both at least 1.
    pub rate: (u32, u32),
    /// 1 to 1,200 bytes of the frame, and exactly 1,200 in all fragments but the last.
    pub bytes: &'a [u8],
}
