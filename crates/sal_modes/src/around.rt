//! What the macroblocks around one tell of its vectors (RFC 6386, section 16.3).

use sal_base::Vector;

/// The range of suggested vectors.
#[derive(Clone, Copy, Debug, PartialEq, Eq)]
pub struct Bounds {
    /// The least row and column, in quarter samples: up and left to the first place wholly outside the picture.
    pub least: Vector,
    /// The greatest row and column, alike down and right.
    pub greatest: Vector,
}

/// The sign biases of a frame, and that of this macroblock's reference.
#[derive(Clone, Copy, Debug, PartialEq, Eq)]
pub struct Bias {
    /// The sign bias of golden (section 9.7).
    pub golden: bool,
    /// The sign bias of alt (section 9.7).
    pub alt: bool,
    /// The sign bias of the macroblock's own reference; the vector of a neighbour is negated where that of its reference differs.
    pub own: bool,
}

/// The suggested vectors, and the counts that choose the probabilities of the vector mode.
#[derive(Clone, Copy, Debug, PartialEq, Eq)]
pub struct Near {
    /// The vector that NEW, also that of a part, is added to; in quarter samples, cut off at the bounds.
    pub best: Vector,
    /// The vector of mode NEAREST, cut off at the bounds.
    pub nearest: Vector,
    /// The vector of mode NEAR, cut off at the bounds.
    pub near: Vector,
    /// The weights of no motion, nearest, near and parts, in this order; each at most 5.
    pub counts: [u8; 4],
}
