//! Blocks read from bytes at the default probabilities, the values being an independent program's; and blocks that are written, read
//! back and counted.

ghost use Rattle.std.specs.Prelude.{◌≡◌, ◌<◌, ◌≤◌, All, true, false};
ghost use Rattle.sal_macroblock.specs.Sizes.{Within};

use crate::{
    Contexts, Counts, count_block, count_macroblock, read_block, read_macroblock, skip_macroblock,
    write_block, write_macroblock,
};
use sal_base::Bytes;
use sal_bool::{Decoder, Encoder};
use sal_macroblock::{Block, Coefficients};
use sal_probs::Probs;
use std::alloc::Global;

/// A block's kind, context and bytes, its coefficients, and whether its first token isn't the end.
type Row = (u8, u8, &'static [u8], [i32; 16], bool);

const ROWS: [Row; 9] = [
    (
        0,
        0,
        &[0xbd, 0x2f, 0xf8, 0x41, 0x24, 0x43],
        [0, 0, 0, 0, 0, 0, 0, 0, 0, 0, 0, 0, 0, 0, 0, 0],
        false,
    ),
    (
        0,
        2,
        &[
            0xba, 0x8f, 0x17, 0xe3, 0xc0, 0xc1, 0x45, 0x46, 0xc4, 0x43, 0x61, 0xb8, 0xa8, 0xad,
            0xd6,
        ],
        [0, 1, 0, 0, 0, 0, 0, 0, 0, 0, 0, 0, 0, 0, 0, 0],
        true,
    ),
    (
        1,
        0,
        &[
            0xed, 0xa5, 0x7f, 0x02, 0xdf, 0x50, 0xcb, 0x05, 0xd4, 0x90, 0xcd, 0x88, 0xe6, 0x25,
        ],
        [-1, 0, 0, 0, 0, 0, 0, 0, 0, 0, 0, 0, 0, 0, 0, 0],
        true,
    ),
    (
        2,
        1,
        &[
            0xa1, 0xbb, 0x2b, 0x63, 0x48, 0x88, 0x7d, 0x08, 0xde, 0xf9, 0xa8, 0x4e, 0x0d, 0x4e,
            0x3a, 0x11, 0xfd, 0x78, 0x03, 0x38,
        ],
        [0, 0, 0, 0, 0, 0, 0, 0, 0, 0, 0, 0, 0, 0, 0, 0],
        false,
    ),
    (
        2,
        2,
        &[
            0xbf, 0xcf, 0x20, 0x34, 0x19, 0x66, 0x3b, 0x78, 0x79, 0xe8, 0x26, 0x03, 0x8a, 0x82,
            0x43, 0x21, 0x31, 0xb1, 0xe2, 0x02, 0x0c,
        ],
        [-1, 0, 0, 0, 0, 0, 0, 0, 0, 0, 0, 0, 0, 0, 0, 0],
        true,
    ),
    (
        3,
        2,
        &[
            0xb5, 0xb0, 0x5a, 0x53, 0xc9, 0x9d, 0x9f, 0x0f, 0xfc, 0x59, 0x5a, 0x77, 0xab, 0xeb,
            0x86, 0x3d, 0x3d, 0x35,
        ],
        [-1, -2, 2, 0, 0, 2, 1, 0, 0, 0, 0, 0, 0, 0, 0, 0],
        true,
    ),
    // The least or greatest coefficient of each category, of either sign.
    (
        1,
        0,
        &[
            0xfe, 0x67, 0xdb, 0x58, 0x3f, 0xfc, 0x5c, 0xff, 0x7f, 0xfe, 0x0d, 0x7f, 0xf3, 0xdf,
            0xff, 0xe8, 0xf3, 0xff, 0xbf, 0x93, 0xff, 0xc1, 0x03, 0xff, 0xbf, 0x9c, 0xff, 0xe0,
            0x9d, 0xff, 0xff, 0xff, 0xff, 0xd1, 0x76, 0x70, 0x08, 0x00,
        ],
        [
            4, 5, -6, 7, -10, 11, 18, -19, 34, 35, 66, -67, 2047, 1, -2, 3,
        ],
        true,
    ),
    // The greatest coefficient, after a zero and before three.
    (
        1,
        0,
        &[0xcc, 0xff, 0xff, 0xff, 0xff, 0xff, 0xff, 0xe2, 0xc4, 0xea],
        [0, -2114, 0, 0, 0, 1, 0, 0, 0, 0, 0, 0, 0, 0, 0, -1],
        true,
    ),
    (
        3,
        0,
        &[
            0xce, 0x3f, 0xff, 0xff, 0xff, 0xff, 0xff, 0xf0, 0x86, 0x88, 0xe0,
        ],
        [0, -2114, 0, 0, 0, 1, 0, 0, 0, 0, 0, 0, 0, 0, 0, -1],
        true,
    ),
];

/// What is read of a block at the default probabilities, or none for want of memory.
fn read(alloc: Global, kind: u8, context: u8, bytes: &[u8]) -> Option<(Block, bool)> {
    if kind > 3 || context > 2 {
        return None;
    }
    let probs = Probs::initial(alloc).ok()?;
    Some(read_block(&mut Decoder::new(bytes), &probs, kind, context))
}

#[test]
fn coefficients_of_blocks(rt: HostRuntime) {
    for (kind, context, bytes, coefficients, has_coefficients) in ROWS {
        assert_eq!(rt;
            read(rt.alloc(), kind, context, bytes),
            Some((Block(coefficients), has_coefficients)),
            "kind {kind}, context {context}"
        );
    }
}

#[test]
fn past_the_end_are_zero_bytes(rt: HostRuntime) {
    for kind in 0..4u8 {
        assert_eq!(rt;
            read(rt.alloc(), kind, 0, &[]),
            Some((Block([0; 16]), false)),
            "kind {kind}"
        );
    }
}

/// A macroblock's bytes, whether it has Y2, the contexts above and left, the first coefficients of its blocks, of which the others are 0,
/// and the contexts that it leaves.
type Whole = (
    &'static [u8],
    bool,
    [[bool; 9]; 2],
    [&'static [i32]; 25],
    [[bool; 9]; 2],
);

const NO: bool = false;

const YES: bool = true;

const MACROBLOCKS: [Whole; 2] = [
    (
        &[
            219, 188, 110, 135, 224, 247, 126, 202, 88, 52, 45, 219, 205, 57, 68, 143, 44, 92, 200,
            176, 147, 223, 80, 148,
        ],
        true,
        [[NO; 9], [NO; 9]],
        [
            &[],
            &[],
            &[],
            &[],
            &[],
            &[],
            &[],
            &[],
            &[],
            &[0, -1],
            &[0, -1, -1, -1],
            &[0, 0, -1],
            &[],
            &[0, -1],
            &[0, 0, 0, 1],
            &[0, -2, -1],
            &[-1],
            &[],
            &[-1],
            &[0, 0, 0, 0, 0, -1],
            &[],
            &[],
            &[1],
            &[],
            &[1],
        ],
        [
            [NO, YES, YES, YES, YES, YES, YES, NO, YES],
            [NO, NO, YES, YES, NO, YES, NO, NO, YES],
        ],
    ),
    (
        &[
            131, 248, 220, 73, 216, 113, 217, 211, 27, 32, 40, 111, 248, 203, 55, 49, 40, 201, 3,
            194, 253, 181, 212, 195,
        ],
        false,
        [
            [YES, NO, YES, YES, NO, YES, YES, NO, YES],
            [NO, YES, YES, NO, YES, YES, NO, YES, YES],
        ],
        [
            &[0, 0, -1],
            &[1, 0, -1, -1],
            &[-3, -1],
            &[],
            &[1, -1, -1],
            &[-2, 0, 0, 1],
            &[-1, 0, -1, 0, 0, 0, 0, -1],
            &[],
            &[5],
            &[],
            &[],
            &[],
            &[],
            &[],
            &[],
            &[],
            &[],
            &[1],
            &[],
            &[],
            &[],
            &[],
            &[-1],
            &[1],
            &[],
        ],
        [
            [NO, NO, NO, NO, NO, NO, YES, YES, YES],
            [NO, NO, NO, NO, YES, NO, NO, YES, YES],
        ],
    ),
];

/// What is read of a macroblock at the default probabilities, or none for want of memory: whether some block has coefficients, the
/// contexts above and left, and the coefficients.
fn read_whole(alloc: Global, row: &Whole) -> Option<(bool, Contexts, Contexts, Coefficients)> {
    let (bytes, has_y2, before, _, _) = row;
    let probs = Probs::initial(alloc).ok()?;
    let mut above = Contexts(before[0]);
    let mut left = Contexts(before[1]);
    let mut coefficients = Coefficients::none();
    let has_coefficients = read_macroblock(
        &mut Decoder::new(bytes),
        &probs,
        *has_y2,
        &mut above,
        &mut left,
        &mut coefficients,
    );
    Some((has_coefficients, above, left, coefficients))
}

/// Whether a block has these first coefficients, and then zeros.
fn begins(block: &Block, first: &[i32]) -> bool {
    block.0.iter().enumerate().all(|(i, coefficient)| *coefficient
        == first.get(i).copied().unwrap_or(0))
}

#[test]
fn coefficients_of_macroblocks(rt: HostRuntime) {
    for row in MACROBLOCKS {
        let Some((has_coefficients, above, left, coefficients)) = read_whole(rt.alloc(), &row)
        else {
            panic!(rt; "no memory");
        };
        let y2 = row.1;
        assert!(rt; has_coefficients, "Y2: {y2}");
        assert_eq!(rt;
            (above, left),
            (Contexts(row.4[0]), Contexts(row.4[1])),
            "Y2: {y2}"
        );
        for (index, first) in row.3.iter().enumerate() {
            assert!(rt;
                begins(coefficients.block(index), first),
                "Y2: {y2}, block {index}"
            );
        }
    }
}

#[test]
fn skipped_macroblocks_clear_contexts(rt: HostRuntime) {
    let mut above = Contexts([true; 9]);
    let mut left = Contexts::none();
    skip_macroblock(false, &mut above, &mut left);
    assert_eq!(rt; above, Contexts([NO, NO, NO, NO, NO, NO, NO, NO, YES]));
    assert_eq!(rt; left, Contexts::none());
    skip_macroblock(true, &mut above, &mut left);
    assert_eq!(rt; above, Contexts::none());
}

/// What a block is written as at the default probabilities, and whether its first token isn't the end; or none for want of memory.
fn written(alloc: Global, kind: u8, context: u8, block: &Block) -> Option<(Bytes, bool)> {
    let fits = block
        .0
        .iter()
        .all(|coefficient| (-2114..=2114).contains(coefficient));
    if kind > 3 || context > 2 || !fits || (kind == 0 && block.0[0] != 0) {
        return None;
    }
    let probs = Probs::initial(alloc).ok()?;
    let mut encoder = Encoder::new(alloc);
    let starts = write_block(&mut encoder, &probs, kind, context, block).ok()?;
    Some((encoder.finish().ok()?, starts))
}

#[test]
fn blocks_are_read_as_they_were_written(rt: HostRuntime) {
    for (kind, context, _, coefficients, has_coefficients) in ROWS {
        let Some((bytes, starts)) = written(rt.alloc(), kind, context, &Block(coefficients)) else {
            panic!(rt; "kind {kind}, context {context}");
        };
        assert_eq!(rt; starts, has_coefficients, "kind {kind}, context {context}");
        assert_eq!(rt;
            read(rt.alloc(), kind, context, bytes.as_slice()),
            Some((Block(coefficients), has_coefficients)),
            "kind {kind}, context {context}"
        );
    }
}

/// Whether a macroblock that has coefficients in one block alone is read as it was written, with the contexts that it leaves.
fn is_read_again(alloc: Global, has_y2: bool, index: usize, block: &Block) -> Option<bool>
    requires index { index < 25 }
    requires with { has_y2 ≡ true → 16 ≤ index }
    requires without { has_y2 ≡ false → index < 24 }
    requires small { All (Within 2114) block.now.0 }
{
    let probs = Probs::initial(alloc).ok()?;
    let mut coefficients = Coefficients::none();
    coefficients.put(index, *block);
    let mut encoder = Encoder::new(alloc);
    let mut above = Contexts([true; 9]);
    let mut left = Contexts::none();
    let starts = write_macroblock(
        &mut encoder,
        &probs,
        has_y2,
        &mut above,
        &mut left,
        &coefficients,
    )
    .ok()?;
    let bytes = encoder.finish().ok()?;
    let mut read = Coefficients::none();
    let mut over = Contexts([true; 9]);
    let mut beside = Contexts::none();
    let has_coefficients = read_macroblock(
        &mut Decoder::new(bytes.as_slice()),
        &probs,
        has_y2,
        &mut over,
        &mut beside,
        &mut read,
    );
    let same = read.block(index) == block && read.block(0) == coefficients.block(0);
    Some(same && over == above && beside == left && has_coefficients == starts)
}

#[test]
fn macroblocks_are_read_as_they_were_written(rt: HostRuntime) {
    let block = Block([-2114, 0, 0, 5, 1, 0, 0, 0, 0, 0, 0, 0, 0, 0, 0, -67]);
    assert_eq!(rt; is_read_again(rt.alloc(), false, 5, &block), Some(true));
    assert_eq!(rt; is_read_again(rt.alloc(), true, 24, &block), Some(true));
    assert_eq!(rt; is_read_again(rt.alloc(), true, 21, &block), Some(true));
}

/// A block's kind, context and first coefficients, of which the others are 0, and each bit at a coefficient probability with the
/// type, band, context and place of that.
type Counted = (
    u8,
    u8,
    &'static [i32],
    &'static [(usize, usize, usize, usize, bool)],
);

const COUNTED: [Counted; 3] = [
    (0, 2, &[], &[(0, 1, 2, 0, NO)]),
    (
        1,
        0,
        &[-1],
        &[
            (1, 0, 0, 0, YES),
            (1, 0, 0, 1, YES),
            (1, 0, 0, 2, NO),
            (1, 1, 1, 0, NO),
        ],
    ),
    // a zero, after which the end isn't tested, and a size of the second category
    (
        3,
        1,
        &[0, 7],
        &[
            (3, 0, 1, 0, YES),
            (3, 0, 1, 1, NO),
            (3, 1, 0, 1, YES),
            (3, 1, 0, 2, YES),
            (3, 1, 0, 3, YES),
            (3, 1, 0, 6, NO),
            (3, 1, 0, 7, YES),
            (3, 2, 2, 0, NO),
        ],
    ),
];

/// A block with these first coefficients, and then zeros.
fn block_of(first: &[i32]) -> Block {
    let mut block = Block([0; 16]);
    for (to, from) in block.0.iter_mut().zip(first) {
        *to = *from;
    }
    block
}

/// The counts of a block.
fn counted(kind: u8, context: u8, block: &Block) -> Option<Counts> {
    let fits = block
        .0
        .iter()
        .all(|coefficient| (-2114..=2114).contains(coefficient));
    if kind > 3 || context > 2 || !fits {
        return None;
    }
    let mut counts = Counts::none();
    count_block(&mut counts, kind, context, block);
    Some(counts)
}

#[test]
fn bits_are_counted_where_their_probabilities_stand(rt: HostRuntime) {
    for (kind, context, first, bits) in COUNTED {
        let mut expected = Counts::none();
        for (t, band, c, place, bit) in bits {
            let at = ((*t * 8 + *band) * 3 + *c) * 11 + *place;
            if let Some(here) = expected.pairs.get_mut(at) {
                here[*bit as usize] = here[*bit as usize].saturating_add(1);
            }
        }
        assert!(rt;
            counted(kind, context, &block_of(first)) == Some(expected),
            "kind {kind}, context {context}"
        );
    }
}
