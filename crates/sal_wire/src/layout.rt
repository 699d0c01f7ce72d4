//! The layout of datagrams, version 1, and its limits. Numbers have their highest byte first.

use sal_base::WINDOW;

/// The first byte of a fragment.
pub const FRAGMENT_KIND: u8 = 0x46;

/// The first byte of an acknowledgement.
pub const ACK_KIND: u8 = 0x41;

/// The first byte of an end.
pub const BYE_KIND: u8 = 0x42;

/// The second byte of every datagram.
pub const VERSION: u8 = 1;

/// How many bytes of a fragment stand before its data.
pub const FRAGMENT_HEAD: usize = 56;

/// How many bytes of an acknowledgement stand before its states.
pub const ACK_HEAD: usize = 15;

/// How many bytes a state takes in an acknowledgement: its frame number, and the first 8 bytes of its name.
pub const STATE_BYTES: usize = 12;

/// How many bytes an end has.
pub const BYE_BYTES: usize = 10;

/// The most fragments of a frame.
pub const MAX_FRAGMENTS: u16 = 4096;

/// The most bytes of a frame in one fragment; each but the frame's last one has so many.
pub const MAX_DATA: usize = 1200;

/// The most bytes of an acknowledgement, 207: its head, and a state for each number of the window.
pub const MAX_ACK: usize = ACK_HEAD + STATE_BYTES * WINDOW as usize;
