//! The residues of a macroblock: its coefficients times their factors, transformed back (RFC 6386, section 14).

ghost use Rattle.std.specs.Prelude.{◌≡◌, ◌≤◌, ◌+◌, pos, All, IsTrue, replicate, slice_index_or, []};
ghost use Rattle.sal_macroblock.specs.Sizes.{Within};
ghost use Rattle.sal_transform.specs.Inverse.{rounded};
ghost use Rattle.sal_transform.specs.Residue.{residue_of, firsts_of, residue_after};
ghost use Rattle.sal_transform.specs.Residues.{firsts, luma_residues_of, chroma_residues_of};
ghost use Rattle.sal_base.specs.Samples.{listed};
ghost use Rattle.sal_transform.specs.Small.{HasOneCoefficient};

use crate::dct::inverse;
use crate::factors::Factors;
use crate::quantiser::{dequant, dequantise};
use crate::wht::inverse_y2;
use sal_macroblock::{Block, Coefficients};

// Whether all coefficients but the first are 0.
fn has_one_coefficient(block: &Block) -> bool
    ensures { IsTrue result → HasOneCoefficient block.now.0 }
{
    for k in 1..16usize {
        if block.0[k] != 0 {
            return false;
        }
    }
    true
}

// The residues of a block of which only the first value isn't 0.
#[tactic(auto, unfolding(crate::specs::Inverse::rounded))]
fn flat(value: i32) -> [i32; 16]
    requires { Within 2097152 value }
    ensures { result ≡ replicate 16 (rounded value) }
{
    [(value + 4) >> 3; 16]
}

/// The residues of a block whose first coefficient is its own, in raster order.
pub fn block_residue(block: &Block, dc: u16, ac: u16) -> [i32; 16]
    requires coefficients { All (Within 2114) block.now.0 }
    requires dc { dc ≤ 440 }
    requires ac { ac ≤ 440 }
    ensures { result ≡ residue_of block.now.0 (pos dc) (pos ac) }
{
    if has_one_coefficient(block) {
        return flat(dequantise(block.0[0], dc as i32));
    }
    inverse(&dequant(block, dc as i32, ac as i32))
}

// The residues of a luma block whose first value comes from Y2.
fn residue_after(first: i32, block: &Block, ac: u16) -> [i32; 16]
    requires first { Within 2097152 first }
    requires coefficients { All (Within 2114) block.now.0 }
    requires ac { ac ≤ 440 }
    ensures { result ≡ residue_after first block.now.0 (pos ac) }
{
    if has_one_coefficient(block) {
        return flat(first);
    }
    let mut values = dequant(block, 0, ac as i32);
    values[0] = first;
    inverse(&values)
}

// The first values of the luma blocks, out of Y2.
fn firsts(coefficients: &Coefficients, dc: u16, ac: u16) -> [i32; 16]
    requires dc { dc ≤ 440 }
    requires ac { ac ≤ 440 }
    ensures value { result ≡ firsts_of (slice_index_or coefficients.now 24 []) (pos dc) (pos ac) }
    ensures small { All (Within 2097152) result }
{
    inverse_y2(&dequant(coefficients.block(24), dc as i32, ac as i32))
}

// The luma blocks with their own first coefficients.
fn luma_alone(coefficients: &Coefficients, dc: u16, ac: u16) -> [[i32; 16]; 16]
    requires dc { dc ≤ 440 }
    requires ac { ac ≤ 440 }
    ensures { result ≡ listed 16 (λ k. residue_of (slice_index_or coefficients.now k []) (pos dc) (pos ac)) }
{
    let mut residues = [[0; 16]; 16];
    for k in 0..16usize {
        residues[k] = block_residue(coefficients.block(k), dc, ac);
    }
    residues
}

// The luma blocks with first values out of Y2.
fn luma_after(coefficients: &Coefficients, firsts: &[i32; 16], ac: u16) -> [[i32; 16]; 16]
    requires firsts { All (Within 2097152) firsts.now }
    requires ac { ac ≤ 440 }
    ensures { result ≡ listed 16 (λ k. residue_after (slice_index_or firsts.now k (pos 0)) (slice_index_or coefficients.now k []) (pos ac)) }
{
    let mut residues = [[0; 16]; 16];
    for k in 0..16usize {
        residues[k] = residue_after(firsts[k], coefficients.block(k), ac);
    }
    residues
}

/// The sixteen luma blocks of a macroblock in raster order, each with its residues in raster order.
pub fn luma_residues(
    has_y2: bool,
    coefficients: &Coefficients,
    factors: &Factors,
) -> [[i32; 16]; 16]
    ensures { result ≡ luma_residues_of factors.now has_y2 coefficients.now }
{
    if has_y2 {
        let firsts = firsts(coefficients, factors.y2_dc, factors.y2_ac);
        luma_after(coefficients, &firsts, factors.y_ac)
    } else {
        luma_alone(coefficients, factors.y_dc, factors.y_ac)
    }
}

/// The four blocks of a macroblock in a chroma plane, of U from block 16 on, of V from block 20 on.
pub fn chroma_residues(
    coefficients: &Coefficients,
    first: usize,
    factors: &Factors,
) -> [[i32; 16]; 4]
    requires { first ≤ 20 }
    ensures { result ≡ chroma_residues_of factors.now coefficients.now first }
{
    let dc = factors.uv_dc;
    let ac = factors.uv_ac;
    let mut residues = [[0; 16]; 4];
    for k in 0..4usize {
        residues[k] = block_residue(coefficients.block(first + k), dc, ac);
    }
    residues
}
