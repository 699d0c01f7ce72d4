//! Factors at the ends of their tables, and residues that can be worked out by hand (RFC 6386, section 14).

use super::*;
use sal_macroblock::{Block, Coefficients};

#[test]
fn factors_of_indexes(rt: HostRuntime) {
    for (row, index, y_dc, y2_ac, luma, y2, chroma) in [
        (
            "the least",
            0u8,
            0i8,
            0i8,
            (4u16, 4u16),
            (8u16, 8u16),
            (4u16, 4u16),
        ),
        (
            "a delta on the first",
            60,
            -15,
            0,
            (41, 70),
            (110, 108),
            (55, 70),
        ),
        (
            "the greatest",
            127,
            15,
            15,
            (157, 284),
            (314, 440),
            (132, 284),
        ),
    ] {
        let factors = Factors::new(index, y_dc, 0, y2_ac, 0, 0);
        assert_eq!(rt; (factors.y_dc, factors.y_ac), luma, "luma, {row}");
        assert_eq!(rt; (factors.y2_dc, factors.y2_ac), y2, "Y2, {row}");
        assert_eq!(rt; (factors.uv_dc, factors.uv_ac), chroma, "chroma, {row}");
    }
}

/// Coefficient 4 at factor 4 at the second place of a column leaves 20, 8, -8 and -20 in its rows, an eighth of which is left.
#[test]
fn a_block_of_one_coefficient(rt: HostRuntime) {
    let factors = Factors::new(0, 0, 0, 0, 0, 0);
    let mut coefficients = Coefficients::none();
    let mut block = Block([0; 16]);
    block.0[2] = 4;
    coefficients.put(5, block);
    coefficients.put(17, block);
    let rows = [3, 3, 3, 3, 1, 1, 1, 1, -1, -1, -1, -1, -2, -2, -2, -2];
    let luma = luma_residues(false, &coefficients, &factors);
    let u = chroma_residues(&coefficients, 16, &factors);
    assert_eq!(rt; luma[5], rows, "luma");
    assert_eq!(rt; luma[4], [0; 16], "the luma block before it");
    assert_eq!(rt; u[1], rows, "U");
}

/// Y2's first coefficient goes to all luma blocks alike: 8 times 8 is 64, an eighth of which is the first value of each block, and an
/// eighth of that its residues.
#[test]
fn a_macroblock_of_one_y2_coefficient(rt: HostRuntime) {
    let factors = Factors::new(0, 0, 0, 0, 0, 0);
    let mut coefficients = Coefficients::none();
    let mut block = Block([0; 16]);
    block.0[0] = 8;
    coefficients.put(24, block);
    let luma = luma_residues(true, &coefficients, &factors);
    assert_eq!(rt; luma[0], [1; 16], "the first block");
    assert_eq!(rt; luma[15], [1; 16], "the last block");
}

/// A block of one value is sixteen times it, a half of which is its first coefficient's value; all others are 0.
#[test]
fn a_flat_block_forward(rt: HostRuntime) {
    let mut values = [0; 16];
    values[0] = 800;
    assert_eq!(rt; forward(&[100; 16]), values, "rows and columns");
    assert_eq!(rt; forward_y2(&[100; 16]), values, "Walsh-Hadamard");
}

/// Two thirds of a factor are a whole one, below that nothing is left; the sign is kept, and 2,047 is the greatest size.
#[test]
fn values_are_quantised(rt: HostRuntime) {
    let mut values = [0; 16];
    values[0] = -12;
    values[1] = 16;
    values[4] = 15;
    values[8] = -40;
    values[15] = 1000000;
    let block = quant(&values, 19, 24);
    let mut wanted = [0; 16];
    wanted[1] = 1;
    wanted[3] = -2;
    wanted[15] = 2047;
    assert_eq!(rt; block.0, wanted);
    assert_eq!(rt; quant(&[-13; 16], 19, 440).0[0], -1, "two thirds of 19");
}
