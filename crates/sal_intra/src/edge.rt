//! The samples around a block (RFC 6386, sections 12.2 and 12.3).

/// Samples around a luma macroblock.
#[derive(Clone, Copy, Debug, PartialEq, Eq)]
pub struct LumaEdge {
    /// The row above it, the last four above its right neighbour.
    pub above: [u8; 20],
    pub left: [u8; 16],
    pub corner: u8,
    /// Whether the row above is in the picture.
    pub has_above: bool,
    /// Whether the column left is in the picture.
    pub has_left: bool,
}

/// Samples around a macroblock in a chroma plane.
#[derive(Clone, Copy, Debug, PartialEq, Eq)]
pub struct ChromaEdge {
    pub above: [u8; 8],
    pub left: [u8; 8],
    pub corner: u8,
    /// Whether the row above is in the picture.
    pub has_above: bool,
    /// Whether the column left is in the picture.
    pub has_left: bool,
}

/// Samples around a subblock of 4 by 4 luma samples.
#[derive(Clone, Copy, Debug, PartialEq, Eq)]
pub struct SubEdge {
    /// The row above it, the last four above and to the right.
    pub above: [u8; 8],
    pub left: [u8; 4],
    pub corner: u8,
}
