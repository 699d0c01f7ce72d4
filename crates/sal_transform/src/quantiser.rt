//! Values out of coefficients (RFC 6386, section 14.1).

ghost use Rattle.std.specs.Prelude.{◌≡◌, ℤ, pos, ◌*ℤ◌, ◌≤ℤ◌, ◌<◌, All, slice_index_or};
ghost use Rattle.sal_macroblock.specs.Sizes.{Within};
ghost use Rattle.sal_transform.specs.Factors.{dequantised};

use sal_macroblock::Block;

/// A coefficient times its factor.
pub fn dequantise(coefficient: i32, factor: i32) -> i32
    requires coefficient { Within 2114 coefficient }
    requires factor { Within 440 factor }
    ensures value { result ≡ coefficient *ℤ factor }
    ensures small { Within 1048576 result }
{
    coefficient * factor
}

// The coefficient at a position, times a factor.
fn value_at(block: &Block, position: usize, factor: i32) -> i32
    requires coefficients { All (Within 2114) block.now.0 }
    requires place { position < 16 }
    requires factor { Within 440 factor }
    ensures value { result ≡ slice_index_or block.now.0 position (pos 0) *ℤ factor }
    ensures small { Within 1048576 result }
{
    dequantise(block.0[position], factor)
}

/// Coefficients in zigzag order to values in raster order: each is multiplied by its factor, `dc` for the first and `ac` for the
/// others.
pub fn dequant(block: &Block, dc: i32, ac: i32) -> [i32; 16]
    requires coefficients { All (Within 2114) block.now.0 }
    requires dc { Within 440 dc }
    requires ac { Within 440 ac }
    ensures value { result ≡ dequantised block.now.0 dc ac }
    ensures small { All (Within 1048576) result }
{
    [
        value_at(block, 0, dc),
        value_at(block, 1, ac),
        value_at(block, 5, ac),
        value_at(block, 6, ac),
        value_at(block, 2, ac),
        value_at(block, 4, ac),
        value_at(block, 7, ac),
        value_at(block, 12, ac),
        value_at(block, 3, ac),
        value_at(block, 8, ac),
        value_at(block, 11, ac),
        value_at(block, 13, ac),
        value_at(block, 9, ac),
        value_at(block, 10, ac),
        value_at(block, 14, ac),
        value_at(block, 15, ac),
    ]
}
