//! The coefficients of a block (RFC 6386, section 13).

/// Sixteen quantised coefficients in zigzag order.
#[derive(Clone, Copy, Debug, PartialEq, Eq)]
pub struct Block(pub [i32; 16]);
