//! Modes of macroblocks and subblocks, and vectors, under the names of RFC 6386.

/// How a macroblock's luma is predicted: the first five are intra modes (RFC 6386, section 8), the others inter modes
/// (section 16.3). Chroma takes one of the first four.
#[derive(Clone, Copy, Debug, PartialEq, Eq)]
pub enum YMode {
    /// Each sample is the average of the row above and the column to the left.
    DC,
    /// Each row is the row above.
    V,
    /// Each column is the column to the left.
    H,
    /// Left plus above less the corner (TrueMotion).
    TM,
    /// Each subblock of 4 by 4 has a mode of its own, a `SubMode`.
    B,
    /// The vector that is found nearest among the macroblocks around.
    NEAREST,
    /// The vector that is found second nearest.
    NEAR,
    /// The vector zero.
    ZERO,
    /// A vector that is coded as the difference from the best one around.
    NEW,
    /// Parts of the macroblock have vectors of their own.
    SPLIT,
}

/// How a subblock of 4 by 4 samples is predicted (RFC 6386, section 11.2).
#[derive(Clone, Copy, Debug, PartialEq, Eq)]
pub enum SubMode {
    /// The average of the four samples above and the four to the left.
    BDC,
    /// Left plus above less the corner (TrueMotion).
    BTM,
    /// Downwards, from the row above, smoothed.
    BVE,
    /// To the right, from the column to the left, smoothed.
    BHE,
    /// Down and to the left, at 45 degrees.
    BLD,
    /// Down and to the right, at 45 degrees.
    BRD,
    /// Downwards and a little to the right.
    BVR,
    /// Downwards and a little to the left.
    BVL,
    /// To the right and a little down.
    BHD,
    /// To the right and a little up.
    BHU,
}

/// A motion vector, in quarter samples of luma (RFC 6386, section 5).
#[derive(Clone, Copy, Debug, PartialEq, Eq)]
pub struct Vector {
    /// How far down, in quarter samples.
    pub row: i16,
    /// How far to the right, in quarter samples.
    pub column: i16,
}
