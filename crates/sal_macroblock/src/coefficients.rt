//! The coefficients of all blocks of a macroblock (RFC 6386, section 13).

ghost use Rattle.std.specs.Prelude.{◌≡◌, ◌<◌, All, slice_set, slice_index_or, []};
ghost use Rattle.sal_macroblock.specs.Sizes.{Within};
ghost use Rattle.sal_macroblock.specs.Blocks.{no_coefficients};

use crate::block::Block;
use std::marker::Model;

/// The coefficients of the 25 blocks of a macroblock: blocks 0 to 15 are luma, 16 to 19 U, 20 to 23 V, each in raster order, and
/// block 24 is Y2.
///
/// Contracts see a list of 25 lists of 16 coefficients, each of which is at most 2,114 in size.
#[derive(Debug, Drop)]
pub struct Coefficients {
    blocks: [Block; 25],
}

impl Model for Coefficients {
    ghost use Rattle.std.specs.Prelude.{List, ℤ, All, map};
    ghost use Rattle.sal_macroblock.specs.Sizes.{Within};

    ghost Value = { List (List ℤ) };

    ghost view = { λ l. map (λ b. b.0) l.blocks };

    ghost invariant = { λ l. All (λ b. All (Within 2114) b.0) l.blocks };
}

impl Coefficients {
    /// No coefficients: each is 0.
    pub fn none() -> Coefficients
        ensures { result ≡ no_coefficients }
    {
        Coefficients {
            blocks: [Block([0; 16]); 25],
        }
    }

    /// Makes each coefficient 0.
    pub fn clear(&mut self)
        ensures { self.new ≡ no_coefficients }
    {
        self.blocks = [Block([0; 16]); 25];
    }

    /// Sets the coefficients of one block.
    pub fn put(&mut self, index: usize, block: Block)
        requires index { index < 25 }
        requires small { All (Within 2114) block.0 }
        ensures { self.new ≡ slice_set self.old index block.0 }
    {
        self.blocks[index] = block;
    }

    /// The coefficients of one block, lent.
    pub fn block(&self, index: usize) -> &Block
        requires { index < 25 }
        ensures coefficients { result.now.0 ≡ slice_index_or self.now index [] }
        ensures small { All (Within 2114) result.now.0 }
    {
        &self.blocks[index]
    }
}
