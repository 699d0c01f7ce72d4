//! The least congestion window of a picture.

/// The least congestion window of the smallest picture, in datagrams.
pub const LEAST_WINDOW: u32 = 16;

/// How many samples of luma a side of a macroblock has.
pub const MACROBLOCK: u16 = 16;

/// For each so many macroblocks of a picture the least window is one datagram wider.
pub const MACROBLOCKS_EACH: u32 = 16;
