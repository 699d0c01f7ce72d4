//! The modes and vectors of a macroblock (RFC 6386, sections 8, 11 and 16).

ghost use Rattle.std.specs.Prelude.{◌≡◌, not};
ghost use Rattle.sal_macroblock.specs.Macroblocks.{outside, own_vector, is_intra, has_y2};

use sal_base::{SubMode, Vector, YMode};

/// What a macroblock is predicted from (RFC 6386, section 16.2).
#[derive(Clone, Copy, Debug, PartialEq, Eq)]
pub enum RefKind {
    /// Samples of its own picture.
    Intra,
    Last,
    Golden,
    Alt,
}

/// The modes and vectors of one macroblock. An inter macroblock has chroma mode DC and each subblock mode bDC; an intra
/// one has zero vectors, and one whose mode isn't B the subblock mode that its mode counts as.
#[derive(Clone, Copy, Debug, PartialEq, Eq)]
pub struct MbMode {
    /// The segment, 0 to 3 (RFC 6386, section 10).
    pub segment: u8,
    /// Whether its blocks have no coefficients, and no tokens (section 11.1).
    pub skip: bool,
    pub reference: RefKind,
    pub y: YMode,
    /// The modes of its subblocks, in raster order.
    pub sub: [SubMode; 16],
    /// One of the first four modes.
    pub chroma: YMode,
    /// The vectors of its luma blocks of 4 by 4 samples, in raster order.
    pub vectors: [Vector; 16],
}

impl MbMode {
    /// The macroblock that stands for each one outside the picture: intra, DC, without vectors (RFC 6386, sections 11.3
    /// and 16.3).
    #[tactic(auto, unfolding(crate::specs::Macroblocks::outside))]
    pub fn outside() -> MbMode
        ensures { result ≡ outside }
    {
        MbMode {
            segment: 0,
            skip: false,
            reference: RefKind::Intra,
            y: YMode::DC,
            sub: [SubMode::BDC; 16],
            chroma: YMode::DC,
            vectors: [Vector { row: 0, column: 0 }; 16],
        }
    }

    /// Whether it is predicted from a reference.
    pub fn is_inter(&self) -> bool
        ensures { result ≡ not (is_intra self.now.reference) }
    {
        match self.reference {
            RefKind::Intra => false,
            RefKind::Last | RefKind::Golden | RefKind::Alt => true,
        }
    }

    /// Whether the first coefficients of its luma blocks stand in a block of their own (RFC 6386, section 13).
    pub fn has_y2(&self) -> bool
        ensures { result ≡ has_y2 self.now.y }
    {
        match self.y {
            YMode::B | YMode::SPLIT => false,
            _ => true,
        }
    }

    /// Its own vector: that of its last block (RFC 6386, section 16.3).
    pub fn vector(&self) -> Vector
        ensures { result ≡ own_vector self.now }
    {
        self.vectors[15]
    }
}
