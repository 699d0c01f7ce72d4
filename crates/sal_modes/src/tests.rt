//! Near vectors, and the macroblocks of two frames of 3 by 2 read from bytes; the latter are an independent program's.

ghost use Rattle.std.specs.Prelude.{◌≡◌};
ghost use Rattle.sal_modes.specs.Rows.{first_row, around};
ghost use Rattle.sal_modes.specs.Written.{IsWritable};

use super::*;
use sal_base::SubMode::{BDC, BHD, BHE, BHU, BLD, BRD, BTM, BVE, BVL, BVR};
use sal_base::{SubMode, Vector, YMode};
use sal_bool::{Decoder, Encoder};
use sal_header::Header;
use sal_probs::{Probs, Updates};
use std::alloc::Global;
use std::test::Fail;

/// Segment, whether it is skipped, reference, Y mode, subblock modes, chroma mode and vectors of a macroblock.
type Expected = (
    u8,
    bool,
    RefKind,
    YMode,
    [SubMode; 16],
    YMode,
    [(i16, i16); 16],
);

/// Whether a frame is a key frame, the bytes of its modes, its macroblocks, and sixteen bits that follow them.
type Frame = (bool, &'static [u8], [Expected; 6], u32);

const FRAMES: [Frame; 2] = [
    (
        true,
        &[
            0x67, 0xe6, 0xa1, 0x35, 0xd5, 0x04, 0x87, 0x8f, 0xca, 0xce, 0x52, 0xce, 0x56, 0x3c,
            0x1d, 0x8a, 0x9d, 0xd5, 0xd3, 0x53, 0xff, 0x24, 0xe2, 0x2a, 0x36, 0x27, 0x94, 0xe8,
            0x88, 0xce, 0x0a, 0xe2, 0x31, 0x78, 0xd5, 0x52, 0x0b, 0x65, 0x0e, 0x34,
        ],
        [
            (
                1,
                true,
                RefKind::Intra,
                YMode::B,
                [
                    BLD, BLD, BHU, BHE, BVL, BDC, BDC, BLD, BVL, BHU, BHE, BVR, BDC, BDC, BHD, BTM,
                ],
                YMode::H,
                [(0, 0); 16],
            ),
            (
                2,
                false,
                RefKind::Intra,
                YMode::B,
                [
                    BHE, BRD, BHU, BDC, BHD, BHD, BLD, BDC, BVR, BRD, BHU, BHE, BTM, BDC, BDC, BTM,
                ],
                YMode::DC,
                [(0, 0); 16],
            ),
            (
                1,
                false,
                RefKind::Intra,
                YMode::B,
                [
                    BDC, BDC, BLD, BLD, BDC, BDC, BDC, BDC, BHE, BHD, BHD, BHD, BHU, BHE, BTM, BVE,
                ],
                YMode::DC,
                [(0, 0); 16],
            ),
            (
                3,
                true,
                RefKind::Intra,
                YMode::B,
                [
                    BTM, BDC, BRD, BVR, BDC, BDC, BDC, BVR, BDC, BDC, BDC, BTM, BDC, BDC, BTM, BHU,
                ],
                YMode::DC,
                [(0, 0); 16],
            ),
            (
                2,
                true,
                RefKind::Intra,
                YMode::TM,
                [BTM; 16],
                YMode::DC,
                [(0, 0); 16],
            ),
            (
                1,
                true,
                RefKind::Intra,
                YMode::B,
                [
                    BTM, BVE, BDC, BDC, BHU, BHU, BVR, BDC, BLD, BHE, BVR, BVE, BVR, BHD, BLD, BHU,
                ],
                YMode::V,
                [(0, 0); 16],
            ),
        ],
        52685,
    ),
    (
        false,
        &[
            0x90, 0x36, 0xe3, 0xd8, 0xe4, 0xaf, 0x65, 0xac, 0x91, 0xaa, 0xfd, 0x19, 0x4a, 0xa1,
            0x2b, 0xe6, 0x06, 0x9f, 0x89, 0xb4, 0x41, 0x8f, 0xd4, 0x9f, 0x09, 0xa9, 0xf3, 0x17,
            0x9e, 0xc4, 0xcf, 0x27, 0xd6, 0xff, 0xc3, 0x91, 0xb1, 0x05, 0x99, 0x3e, 0x9a, 0x19,
            0x05, 0x40, 0x75, 0x89, 0x46, 0x0c, 0x29, 0xb0, 0x72, 0xa1, 0x34, 0xb3, 0x8d, 0xa3,
            0x3e, 0xe3, 0xca, 0x32, 0x77, 0x6f, 0xcb, 0x9f,
        ],
        [
            (
                2,
                false,
                RefKind::Golden,
                YMode::NEW,
                [BDC; 16],
                YMode::DC,
                [(-20, 2); 16],
            ),
            (
                2,
                true,
                RefKind::Golden,
                YMode::NEAREST,
                [BDC; 16],
                YMode::DC,
                [(-20, 2); 16],
            ),
            (
                3,
                true,
                RefKind::Golden,
                YMode::NEAREST,
                [BDC; 16],
                YMode::DC,
                [(-20, 2); 16],
            ),
            (
                2,
                false,
                RefKind::Last,
                YMode::SPLIT,
                [BDC; 16],
                YMode::DC,
                [
                    (0, 0),
                    (0, 0),
                    (-20, 2),
                    (-20, 2),
                    (0, 0),
                    (23, -45),
                    (23, -45),
                    (23, -45),
                    (0, 0),
                    (0, 0),
                    (35, -81),
                    (35, -81),
                    (19, -6),
                    (0, 0),
                    (0, 0),
                    (-11, 2),
                ],
            ),
            (
                3,
                true,
                RefKind::Golden,
                YMode::NEAR,
                [BDC; 16],
                YMode::DC,
                [(11, -2); 16],
            ),
            (
                3,
                true,
                RefKind::Intra,
                YMode::B,
                [
                    BHU, BDC, BTM, BDC, BTM, BDC, BDC, BVE, BDC, BDC, BHE, BDC, BVL, BDC, BDC, BTM,
                ],
                YMode::TM,
                [(0, 0); 16],
            ),
        ],
        33323,
    ),
];

/// A header with segments, skipped macroblocks and golden negated by sign bias in inter frames.
fn header(key: bool) -> Header
    ensures { result.key ≡ key }
{
    Header {
        key,
        shown: true,
        colour: false,
        clamping: false,
        segmentation: true,
        update_map: true,
        update_data: false,
        absolute: false,
        simple: false,
        deltas: false,
        update_deltas: false,
        refresh_entropy: false,
        refresh_golden: false,
        refresh_alt: false,
        bias_golden: !key,
        bias_alt: false,
        refresh_last: false,
        skips: true,
        quantisers: [0; 4],
        levels: [0; 4],
        ref_deltas: [0; 4],
        mode_deltas: [0; 4],
        map: [120, 100, 140],
        level: 0,
        sharpness: 0,
        log2: 0,
        y_ac: 0,
        copy_golden: 0,
        copy_alt: 0,
        prob_skip: 128,
        prob_intra: 60,
        prob_last: 110,
        prob_golden: 128,
        y_dc: 0,
        y2_dc: 0,
        y2_ac: 0,
        uv_dc: 0,
        uv_ac: 0,
        updates: Updates::none(),
    }
}

/// The six macroblocks of a frame of 3 by 2 and the bits after them, or none for want of memory.
fn read(alloc: Global, key: bool, bytes: &[u8]) -> Option<([MbMode; 6], u32)> {
    let header = header(key);
    let probs = Probs::initial(alloc).ok()?;
    let mut row = Row::new(alloc, 3, 2).ok()?;
    let mut decoder = Decoder::new(bytes);
    let first = read_mb(&mut decoder, &header, &probs, &mut row, 0);
    let second = read_mb(&mut decoder, &header, &probs, &mut row, 1);
    let third = read_mb(&mut decoder, &header, &probs, &mut row, 2);
    row.down();
    let fourth = read_mb(&mut decoder, &header, &probs, &mut row, 0);
    let fifth = read_mb(&mut decoder, &header, &probs, &mut row, 1);
    let sixth = read_mb(&mut decoder, &header, &probs, &mut row, 2);
    let rest = decoder.literal(16);
    Some(([first, second, third, fourth, fifth, sixth], rest))
}

fn mode_of(expected: Expected) -> MbMode {
    let (segment, skip, reference, y, sub, chroma, places) = expected;
    MbMode {
        segment,
        skip,
        reference,
        y,
        sub,
        chroma,
        vectors: places.map(|(row, column)| Vector { row, column }),
    }
}

#[test]
fn macroblocks_of_frames(rt: HostRuntime) {
    for (key, bytes, expected, rest) in FRAMES {
        assert_eq!(rt;
            read(rt.alloc(), key, bytes),
            Some((expected.map(mode_of), rest)),
            "key {key}"
        );
    }
}

/// Whether a macroblock that is written first in a frame of 3 by 2 is read as it was written.
fn is_read_again(alloc: Global, header: &Header, mode: &MbMode) -> Option<bool>
    requires { IsWritable header.now (around (first_row 3 2) 0) mode.now }
{
    let probs = Probs::initial(alloc).ok()?;
    let mut row = Row::new(alloc, 3, 2).ok()?;
    let mut encoder = Encoder::new(alloc);
    write_mb(&mut encoder, header, &probs, &mut row, 0, mode).ok()?;
    let bytes = encoder.finish().ok()?;
    let mut again = Row::new(alloc, 3, 2).ok()?;
    let read = read_mb(
        &mut Decoder::new(bytes.as_slice()),
        header,
        &probs,
        &mut again,
        0,
    );
    Some(read == *mode)
}

#[test]
fn macroblocks_are_read_as_they_were_written(rt: HostRuntime) {
    let whole = MbMode {
        segment: 2,
        skip: false,
        reference: RefKind::Intra,
        y: YMode::TM,
        sub: [BTM; 16],
        chroma: YMode::V,
        vectors: [Vector { row: 0, column: 0 }; 16],
    };
    let subblocks = MbMode {
        segment: 1,
        skip: false,
        reference: RefKind::Intra,
        y: YMode::B,
        sub: [
            BLD, BLD, BHU, BHE, BVL, BDC, BDC, BLD, BVL, BHU, BHE, BVR, BRD, BDC, BHD, BTM,
        ],
        chroma: YMode::H,
        vectors: [Vector { row: 0, column: 0 }; 16],
    };
    let still = MbMode {
        segment: 3,
        skip: false,
        reference: RefKind::Golden,
        y: YMode::ZERO,
        sub: [BDC; 16],
        chroma: YMode::DC,
        vectors: [Vector { row: 0, column: 0 }; 16],
    };
    assert_eq!(rt;
        is_read_again(rt.alloc(), &header(true), &whole),
        Some(true)
    );
    assert_eq!(rt;
        is_read_again(rt.alloc(), &header(true), &subblocks),
        Some(true)
    );
    assert_eq!(rt;
        is_read_again(rt.alloc(), &header(false), &still),
        Some(true)
    );
}

#[test]
fn neighbours_suggest_their_vectors(rt: HostRuntime) -> Result<(), Fail> {
    let bias = Bias {
        golden: true,
        alt: false,
        own: false,
    };
    let bounds = Bounds {
        least: Vector {
            row: -320,
            column: -256,
        },
        greatest: Vector {
            row: 320,
            column: 448,
        },
    };
    let outside = MbMode::outside();
    let moved = MbMode {
        reference: RefKind::Last,
        y: YMode::NEW,
        vectors: [Vector {
            row: 4,
            column: 900,
        }; 16],
        ..outside
    };
    let near = near_vectors(&moved, &outside, &moved, &bias, &bounds);
    assert_eq!(rt;
        near.best,
        Vector {
            row: 4,
            column: 448
        }
    );
    assert_eq!(rt; near.counts, [0u8, 3, 0, 0]);
    Ok(())
}
