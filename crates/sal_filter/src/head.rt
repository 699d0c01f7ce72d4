//! What the filter is told of a frame and of its macroblocks (RFC 6386, sections 9.3, 9.4 and 15).

use sal_macroblock::MbMode;

/// What the filter needs of a macroblock.
#[derive(Clone, Copy, Debug, PartialEq, Eq)]
pub struct MbInfo {
    pub mode: MbMode,
    /// Whether inner edges are filtered.
    pub inner: bool,
}

/// The filter's settings in a frame.
#[derive(Clone, Copy, Debug, PartialEq, Eq)]
pub struct FilterHead {
    pub key: bool,
    pub simple: bool,
    /// 0 to 63; nothing is filtered where it is 0.
    pub level: u8,
    /// 0 to 7.
    pub sharpness: u8,
    /// The levels of the segments, true for absolute ones.
    pub segments: Option<(bool, [i8; 4])>,
    /// The deltas of references (intra, last, golden, alt) and of modes (B, ZERO, other inter modes, SPLIT).
    pub deltas: Option<([i8; 4], [i8; 4])>,
}
