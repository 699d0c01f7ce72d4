//! What is searched for, and what is found.

use sal_macroblock::MbMode;

/// The source's samples of a macroblock, row by row.
#[derive(Clone, Copy, Debug, PartialEq, Eq)]
pub struct MbSource {
    pub y: [u8; 256],
    pub u: [u8; 64],
    pub v: [u8; 64],
}

/// A macroblock's modes, and what they cost.
#[derive(Clone, Copy, Debug, PartialEq, Eq)]
pub struct Found {
    pub mode: MbMode,
    pub cost: u32,
}
