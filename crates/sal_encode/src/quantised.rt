//! The coefficients of a macroblock: its source less its prediction, transformed and quantised (RFC 6386, sections 13 and 14).

ghost use Rattle.std.specs.Prelude.{◌≡◌, ◌⊎◌, ◌<◌, ◌≤◌, ◌+◌, ◌*◌, ℕ, pos, ◌-ℤ◌, All, [], length, replicate, slice_index_or, slice_set};
ghost use Rattle.sal_transform.specs.Forward.{forward_y2_of, quantised};
ghost use Rattle.sal_macroblock.specs.Sizes.{Within};
ghost use Rattle.sal_macroblock.specs.Blocks.{no_coefficients};
ghost use Rattle.sal_encode.specs.Quantised.{block_differences, block_values, luma_block, first_values, y2_block, chroma_block};
ghost use Rattle.sal_encode.specs.Standing.{ArePut, HasLuma};

use sal_macroblock::{Block, Coefficients};
use sal_search::Subblocks;
use sal_transform::{Factors, forward, forward_y2, quant};

// A sample less its prediction.
fn difference(wanted: u8, predicted: u8) -> i32
    ensures value { result ≡ pos wanted -ℤ pos predicted }
    ensures small { Within 255 result }
{
    wanted as i32 - predicted as i32
}

// Block k of a square that many blocks wide, less its prediction.
fn block_differences(many: usize, wanted: &[u8], predicted: &[u8], k: usize) -> [i32; 16]
    requires many { (many ≡ 2) ⊎ (many ≡ 4) }
    requires wanted { length wanted.now ≡ 16 * (many * many) }
    requires predicted { length predicted.now ≡ 16 * (many * many) }
    requires block { k < many * many }
    ensures value { result ≡ block_differences many wanted.now predicted.now k }
    ensures small { All (Within 255) result }
{
    let first = 4 * (k / many) * (4 * many) + 4 * (k % many);
    let mut values = [0; 16];
    for i in 0..16usize {
        let at = first + i / 4 * (4 * many) + i % 4;
        values[i] = difference(wanted[at], predicted[at]);
    }
    values
}

// Its values.
fn block_values(many: usize, wanted: &[u8], predicted: &[u8], k: usize) -> [i32; 16]
    requires many { (many ≡ 2) ⊎ (many ≡ 4) }
    requires wanted { length wanted.now ≡ 16 * (many * many) }
    requires predicted { length predicted.now ≡ 16 * (many * many) }
    requires block { k < many * many }
    ensures value { result ≡ block_values many wanted.now predicted.now k }
    ensures small { All (Within 16320) result }
    ensures first { Within 2040 (slice_index_or result 0 (pos 0)) }
{
    forward(&block_differences(many, wanted, predicted, k))
}

// A luma block whose first value stands in Y2.
fn without_first(mut values: [i32; 16], factors: &Factors) -> Block
    requires { All (Within 16320) values }
    ensures value { result.0 ≡ quantised (slice_set values 0 (pos 0)) (pos factors.now.y_dc) (pos factors.now.y_ac) }
    ensures small { All (Within 2047) result.0 }
{
    values[0] = 0;
    quant(&values, factors.y_dc as i32, factors.y_ac as i32)
}

// Puts the luma blocks of a macroblock that is predicted as a whole, and gives their first values.
fn put_luma(
    coefficients: &mut Coefficients,
    factors: &Factors,
    wanted: &[u8; 256],
    predicted: &[u8; 256],
) -> [i32; 16]
    requires { length coefficients.old ≡ 25 }
    ensures put { ArePut 0 16 (luma_block factors.now wanted.now predicted.now) coefficients.old coefficients.new }
    ensures firsts { result ≡ first_values wanted.now predicted.now }
    ensures small { All (Within 2040) result }
{
    let mut firsts = [0; 16];
    for k in 0..16usize {
        let values = block_values(4, wanted, predicted, k);
        firsts[k] = values[0];
        coefficients.put(k, without_first(values, factors));
    }
    firsts
}

// Y2, of the first values of the luma blocks.
fn y2_of(firsts: &[i32; 16], factors: &Factors) -> Block
    requires { All (Within 2040) firsts.now }
    ensures value { result.0 ≡ quantised (forward_y2_of firsts.now) (pos factors.now.y2_dc) (pos factors.now.y2_ac) }
    ensures small { All (Within 2047) result.0 }
{
    quant(
        &forward_y2(firsts),
        factors.y2_dc as i32,
        factors.y2_ac as i32,
    )
}

// Block k of a chroma plane.
#[tactic(auto, unfolding(crate::specs::Quantised::chroma_block))]
fn chroma_block(factors: &Factors, wanted: &[u8; 64], predicted: &[u8; 64], k: usize) -> Block
    requires { k < 4 }
    ensures value { result.0 ≡ chroma_block factors.now wanted.now predicted.now k }
    ensures small { All (Within 2047) result.0 }
{
    let values = block_values(2, wanted, predicted, k);
    quant(&values, factors.uv_dc as i32, factors.uv_ac as i32)
}

/// Puts the blocks of a chroma plane, the first of which has this number.
pub(crate) fn put_chroma(
    coefficients: &mut Coefficients,
    first: usize,
    factors: &Factors,
    wanted: &[u8; 64],
    predicted: &[u8; 64],
)
    requires first { first ≤ 20 }
    requires long { length coefficients.old ≡ 25 }
    ensures { ArePut first 4 (chroma_block factors.now wanted.now predicted.now) coefficients.old coefficients.new }
{
    for k in 0..4usize {
        coefficients.put(first + k, chroma_block(factors, wanted, predicted, k));
    }
}

// Puts the luma blocks that the search of subblocks gave.
fn put_subs(coefficients: &mut Coefficients, subs: &[[i32; 16]; 16])
    requires few { All (λ zs. All (Within 2047) zs) subs.now }
    requires long { length coefficients.old ≡ 25 }
    ensures { ArePut 0 16 (λ k. slice_index_or subs.now k []) coefficients.old coefficients.new }
{
    for k in 0..16usize {
        coefficients.put(k, Block(subs[k]));
    }
}

/// Puts luma and Y2 of a macroblock that is predicted as a whole, where it has no coefficients yet.
pub(crate) fn put_whole(
    coefficients: &mut Coefficients,
    factors: &Factors,
    wanted: &[u8; 256],
    predicted: &[u8; 256],
)
    requires { coefficients.old ≡ no_coefficients }
    ensures { HasLuma (luma_block factors.now wanted.now predicted.now) (y2_block factors.now wanted.now predicted.now) coefficients.new }
{
    let firsts = put_luma(coefficients, factors, wanted, predicted);
    coefficients.put(24, y2_of(&firsts, factors));
}

/// Puts luma of a macroblock in mode B, where it has no coefficients yet.
pub(crate) fn put_parts(coefficients: &mut Coefficients, subblocks: &Subblocks)
    requires none { coefficients.old ≡ no_coefficients }
    requires few { All (λ zs. All (Within 2047) zs) subblocks.now.coefficients }
    ensures { HasLuma (λ k. slice_index_or subblocks.now.coefficients k []) (replicate 16 (pos 0)) coefficients.new }
{
    put_subs(coefficients, &subblocks.coefficients);
}
