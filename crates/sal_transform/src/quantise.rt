//! Coefficients out of values.

ghost use Rattle.std.specs.Prelude.{◌≡◌, ℤ, pos, ◌≤ℤ◌, ◌≤◌, ◌<◌, All, slice_index_or};
ghost use Rattle.sal_macroblock.specs.Sizes.{Within};
ghost use Rattle.sal_transform.specs.Forward.{size_in, quantised_value, quantised};

use sal_macroblock::Block;

// How many factors a size and a third of a factor hold.
fn size_in(factor: u32, size: u32) -> u32
    requires factor { 1 ≤ factor }
    requires size { size ≤ 1048576 }
    ensures value { result ≡ size_in factor size }
    ensures small { result ≤ 2047 }
{
    ((size + factor / 3) / factor).min(2047)
}

// A value's coefficient.
#[tactic(auto, unfolding(crate::specs::Forward::quantised_value))]
fn quantise(value: i32, factor: i32) -> i32
    requires value { Within 1048576 value }
    requires factor { pos 1 ≤ℤ factor }
    ensures value { result ≡ quantised_value factor value }
    ensures small { Within 2047 result }
{
    let size = size_in(factor as u32, value.unsigned_abs()) as i32;
    if value < 0 { -size } else { size }
}

// The coefficient of the value at a place.
fn coefficient_at(values: &[i32; 16], place: usize, factor: i32) -> i32
    requires values { All (Within 1048576) values.now }
    requires place { place < 16 }
    requires factor { pos 1 ≤ℤ factor }
    ensures value { result ≡ quantised_value factor (slice_index_or values.now place (pos 0)) }
    ensures small { Within 2047 result }
{
    quantise(values[place], factor)
}

/// Values in raster order to coefficients in zigzag order: each is divided by its factor, `dc` for the first and `ac` for the others,
/// two thirds of a factor and more counting as a whole one, and is at most 2,047 in size.
pub fn quant(values: &[i32; 16], dc: i32, ac: i32) -> Block
    requires values { All (Within 1048576) values.now }
    requires dc { pos 1 ≤ℤ dc }
    requires ac { pos 1 ≤ℤ ac }
    ensures value { result.0 ≡ quantised values.now dc ac }
    ensures small { All (Within 2047) result.0 }
{
    Block([
        coefficient_at(values, 0, dc),
        coefficient_at(values, 1, ac),
        coefficient_at(values, 4, ac),
        coefficient_at(values, 8, ac),
        coefficient_at(values, 5, ac),
        coefficient_at(values, 2, ac),
        coefficient_at(values, 3, ac),
        coefficient_at(values, 6, ac),
        coefficient_at(values, 9, ac),
        coefficient_at(values, 12, ac),
        coefficient_at(values, 13, ac),
        coefficient_at(values, 10, ac),
        coefficient_at(values, 7, ac),
        coefficient_at(values, 11, ac),
        coefficient_at(values, 14, ac),
        coefficient_at(values, 15, ac),
    ])
}
