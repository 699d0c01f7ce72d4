//! Macroblocks whose modes can be seen, and one whose modes another program gave.

use super::*;
use sal_base::{SubMode, YMode};
use sal_intra::{ChromaEdge, LumaEdge};

fn flat_edge() -> LumaEdge {
    LumaEdge {
        above: [128; 20],
        left: [128; 16],
        corner: 128,
        has_above: true,
        has_left: true,
    }
}

#[test]
fn equal_costs_keep_the_first(rt: HostRuntime) {
    let source = MbSource {
        y: [128; 256],
        u: [128; 64],
        v: [128; 64],
    };
    let found = best_intra(&source, &flat_edge(), 40);
    assert_eq!(rt; (found.mode.y, found.cost), (YMode::DC, 0));
    let around = ChromaEdge {
        above: [128; 8],
        left: [128; 8],
        corner: 128,
        has_above: true,
        has_left: true,
    };
    assert_eq!(rt; best_chroma(&source, &around, &around), YMode::DC);
}

/// The row above is all dark, the column left is half dark and half bright, as the source's rows are.
#[test]
fn rows_are_seen(rt: HostRuntime) {
    let mut source = MbSource {
        y: [60; 256],
        u: [60; 64],
        v: [60; 64],
    };
    let mut edge = flat_edge();
    for k in 0..128usize {
        source.y[k + 128] = 200;
    }
    for k in 0..8usize {
        edge.left[k] = 60;
        edge.left[k + 8] = 200;
    }
    let choice = choose_intra(&source, &edge, 127);
    assert_eq!(rt; (choice.found.mode.y, choice.found.cost), (YMode::H, 0));
    assert_eq!(rt; choice.found.mode.sub, [SubMode::BHE; 16]);
    assert!(rt; choice.subblocks.is_none());
}

#[test]
fn chroma_looks_at_both_planes(rt: HostRuntime) {
    let source = MbSource {
        y: [0; 256],
        u: [50; 64],
        v: [90; 64],
    };
    let u = ChromaEdge {
        above: [50; 8],
        left: [50; 8],
        corner: 70,
        has_above: true,
        has_left: true,
    };
    let v = ChromaEdge {
        above: [90; 8],
        left: [10; 8],
        corner: 90,
        has_above: true,
        has_left: true,
    };
    assert_eq!(rt; best_chroma(&source, &u, &v), YMode::V);
}

/// A slanted edge between two slopes; another program gave its modes and cost.
#[test]
fn a_textured_macroblock_in_parts(rt: HostRuntime) {
    let y = [
        40, 41, 42, 43, 44, 45, 46, 47, 48, 163, 160, 157, 154, 151, 148, 145, 42, 43, 44, 45, 46,
        47, 48, 49, 50, 162, 159, 156, 153, 150, 147, 144, 44, 45, 46, 47, 48, 49, 50, 51, 164,
        161, 158, 155, 152, 149, 146, 143, 46, 47, 48, 49, 50, 51, 52, 53, 163, 160, 157, 154, 151,
        148, 145, 142, 48, 49, 50, 51, 52, 53, 54, 165, 162, 159, 156, 153, 150, 147, 144, 141, 50,
        51, 52, 53, 54, 55, 56, 164, 161, 158, 155, 152, 149, 146, 143, 140, 52, 53, 54, 55, 56,
        57, 166, 163, 160, 157, 154, 151, 148, 145, 142, 139, 54, 55, 56, 57, 58, 59, 165, 162,
        159, 156, 153, 150, 147, 144, 141, 138, 56, 57, 58, 59, 60, 167, 164, 161, 158, 155, 152,
        149, 146, 143, 140, 137, 58, 59, 60, 61, 62, 166, 163, 160, 157, 154, 151, 148, 145, 142,
        139, 136, 60, 61, 62, 63, 168, 165, 162, 159, 156, 153, 150, 147, 144, 141, 138, 135, 62,
        63, 64, 65, 167, 164, 161, 158, 155, 152, 149, 146, 143, 140, 137, 134, 64, 65, 66, 169,
        166, 163, 160, 157, 154, 151, 148, 145, 142, 139, 136, 133, 66, 67, 68, 168, 165, 162, 159,
        156, 153, 150, 147, 144, 141, 138, 135, 132, 68, 69, 170, 167, 164, 161, 158, 155, 152,
        149, 146, 143, 140, 137, 134, 131, 70, 71, 169, 166, 163, 160, 157, 154, 151, 148, 145,
        142, 139, 136, 133, 130,
    ];
    let edge = LumaEdge {
        above: [
            38, 39, 40, 41, 42, 43, 44, 45, 46, 166, 163, 160, 157, 154, 151, 148, 145, 142, 139,
            136,
        ],
        left: [
            39, 41, 43, 45, 47, 49, 51, 53, 55, 57, 59, 61, 63, 65, 67, 69,
        ],
        corner: 37,
        has_above: true,
        has_left: true,
    };
    let source = MbSource {
        y,
        u: [0; 64],
        v: [0; 64],
    };
    let found = best_intra(&source, &edge, 20);
    let sub = [
        SubMode::BTM,
        SubMode::BTM,
        SubMode::BVL,
        SubMode::BVL,
        SubMode::BTM,
        SubMode::BVL,
        SubMode::BVL,
        SubMode::BVL,
        SubMode::BTM,
        SubMode::BVL,
        SubMode::BVE,
        SubMode::BTM,
        SubMode::BVL,
        SubMode::BVL,
        SubMode::BVL,
        SubMode::BTM,
    ];
    assert_eq!(rt; (found.mode.y, found.cost), (YMode::B, 1264));
    assert_eq!(rt; found.mode.sub, sub);
    assert_eq!(rt; best_intra(&source, &edge, 127).cost, 1833);
}
