//! The way to each leaf of the trees of modes, segments and short vectors (RFC 6386, sections 8.1, 10, 11.2, 16.2, 16.3 and 17.2).

ghost use Rattle.std.specs.Prelude.{◌≡◌, ◌<◌, Some, true, false, length, IsTrue};
ghost use Rattle.sal_base.specs.Kinds.{is_whole};
ghost use Rattle.sal_tables.specs.Trees.{segment_entries, key_y_entries, inter_y_entries, chroma_entries, subblock_entries, vector_mode_entries, short_vector_entries};
ghost use Rattle.sal_bool.specs.Pairs.{way};
ghost use Rattle.sal_macroblock.specs.Macroblocks.{is_split};
ghost use Rattle.sal_modes.specs.IntraModes.{sub_number};
ghost use Rattle.sal_modes.specs.Written.{are_below, whole_number, vector_number};

use sal_base::{SubMode, YMode};

/// A probability passed, by its place, and the bit there.
pub(crate) type Step = (u8, bool);

static SEGMENTS: [[Step; 2]; 4] = [
    [(0, false), (1, false)],
    [(0, false), (1, true)],
    [(0, true), (2, false)],
    [(0, true), (2, true)],
];

/// A macroblock's segment (10).
#[tactic(auto, unfolding(sal_bool::specs::Pairs::way, sal_tables::specs::Trees::segment_entries))]
pub(crate) fn segment_way(segment: u8) -> &'static [Step]
    requires { segment < 4 }
    ensures way { way (length segment_entries) segment_entries 0 segment ≡ Some result.now }
    ensures places { IsTrue (are_below 3 result.now) }
{
    match segment {
        0 => &SEGMENTS[0],
        1 => &SEGMENTS[1],
        2 => &SEGMENTS[2],
        _ => &SEGMENTS[3],
    }
}

#[rattlefmt::skip]
static KEY_Y_V: [Step; 3] = [(0, true), (1, false), (2, true)];

#[rattlefmt::skip]
static KEY_Y_H: [Step; 3] = [(0, true), (1, true), (3, false)];

#[rattlefmt::skip]
static KEY_Y_TM: [Step; 3] = [(0, true), (1, true), (3, true)];

#[rattlefmt::skip]
static KEY_Y_B: [Step; 1] = [(0, false)];

#[rattlefmt::skip]
static KEY_Y_DC: [Step; 3] = [(0, true), (1, false), (2, false)];

/// The Y mode of a key frame (11.2); a mode of inter macroblocks counts as DC.
#[tactic(auto, unfolding(sal_bool::specs::Pairs::way, sal_tables::specs::Trees::key_y_entries))]
pub(crate) fn key_y_way(y: YMode) -> &'static [Step]
    ensures way { way (length key_y_entries) key_y_entries 0 (whole_number y) ≡ Some result.now }
    ensures places { IsTrue (are_below 4 result.now) }
{
    match y {
        YMode::V => &KEY_Y_V,
        YMode::H => &KEY_Y_H,
        YMode::TM => &KEY_Y_TM,
        YMode::B => &KEY_Y_B,
        _ => &KEY_Y_DC,
    }
}

#[rattlefmt::skip]
static INTER_Y_V: [Step; 3] = [(0, true), (1, false), (2, false)];

#[rattlefmt::skip]
static INTER_Y_H: [Step; 3] = [(0, true), (1, false), (2, true)];

#[rattlefmt::skip]
static INTER_Y_TM: [Step; 3] = [(0, true), (1, true), (3, false)];

#[rattlefmt::skip]
static INTER_Y_B: [Step; 3] = [(0, true), (1, true), (3, true)];

#[rattlefmt::skip]
static INTER_Y_DC: [Step; 1] = [(0, false)];

/// The Y mode of an intra macroblock in an inter frame (16.2); a mode of inter macroblocks counts as DC.
#[tactic(auto, unfolding(sal_bool::specs::Pairs::way, sal_tables::specs::Trees::inter_y_entries))]
pub(crate) fn inter_y_way(y: YMode) -> &'static [Step]
    ensures way { way (length inter_y_entries) inter_y_entries 0 (whole_number y) ≡ Some result.now }
    ensures places { IsTrue (are_below 4 result.now) }
{
    match y {
        YMode::V => &INTER_Y_V,
        YMode::H => &INTER_Y_H,
        YMode::TM => &INTER_Y_TM,
        YMode::B => &INTER_Y_B,
        _ => &INTER_Y_DC,
    }
}

#[rattlefmt::skip]
static CHROMA_V: [Step; 2] = [(0, true), (1, false)];

#[rattlefmt::skip]
static CHROMA_H: [Step; 3] = [(0, true), (1, true), (2, false)];

#[rattlefmt::skip]
static CHROMA_TM: [Step; 3] = [(0, true), (1, true), (2, true)];

#[rattlefmt::skip]
static CHROMA_DC: [Step; 1] = [(0, false)];

/// The chroma mode (11.2).
#[tactic(auto, unfolding(sal_bool::specs::Pairs::way, sal_tables::specs::Trees::chroma_entries))]
pub(crate) fn chroma_way(chroma: YMode) -> &'static [Step]
    requires { is_whole chroma ≡ true }
    ensures way { way (length chroma_entries) chroma_entries 0 (whole_number chroma) ≡ Some result.now }
    ensures places { IsTrue (are_below 3 result.now) }
{
    match chroma {
        YMode::V => &CHROMA_V,
        YMode::H => &CHROMA_H,
        YMode::TM => &CHROMA_TM,
        _ => &CHROMA_DC,
    }
}

#[rattlefmt::skip]
static SUB_BDC: [Step; 1] = [(0, false)];

#[rattlefmt::skip]
static SUB_BTM: [Step; 2] = [(0, true), (1, false)];

#[rattlefmt::skip]
static SUB_BVE: [Step; 3] = [(0, true), (1, true), (2, false)];

#[rattlefmt::skip]
static SUB_BHE: [Step; 5] = [(0, true), (1, true), (2, true), (3, false), (4, false)];

#[rattlefmt::skip]
static SUB_BLD: [Step; 5] = [(0, true), (1, true), (2, true), (3, true), (6, false)];

#[rattlefmt::skip]
static SUB_BRD: [Step; 6] = [(0, true), (1, true), (2, true), (3, false), (4, true), (5, false)];

#[rattlefmt::skip]
static SUB_BVR: [Step; 6] = [(0, true), (1, true), (2, true), (3, false), (4, true), (5, true)];

#[rattlefmt::skip]
static SUB_BVL: [Step; 6] = [(0, true), (1, true), (2, true), (3, true), (6, true), (7, false)];

#[rattlefmt::skip]
static SUB_BHD: [Step; 7] = [(0, true), (1, true), (2, true), (3, true), (6, true), (7, true), (8, false)];

#[rattlefmt::skip]
static SUB_BHU: [Step; 7] = [(0, true), (1, true), (2, true), (3, true), (6, true), (7, true), (8, true)];

/// A subblock's mode (11.2).
#[tactic(auto, unfolding(sal_bool::specs::Pairs::way, sal_tables::specs::Trees::subblock_entries))]
pub(crate) fn sub_way(mode: SubMode) -> &'static [Step]
    ensures way { way (length subblock_entries) subblock_entries 0 (sub_number mode) ≡ Some result.now }
    ensures places { IsTrue (are_below 9 result.now) }
{
    match mode {
        SubMode::BDC => &SUB_BDC,
        SubMode::BTM => &SUB_BTM,
        SubMode::BVE => &SUB_BVE,
        SubMode::BHE => &SUB_BHE,
        SubMode::BLD => &SUB_BLD,
        SubMode::BRD => &SUB_BRD,
        SubMode::BVR => &SUB_BVR,
        SubMode::BVL => &SUB_BVL,
        SubMode::BHD => &SUB_BHD,
        SubMode::BHU => &SUB_BHU,
    }
}

#[rattlefmt::skip]
static VECTOR_MODE_NEAREST: [Step; 2] = [(0, true), (1, false)];

#[rattlefmt::skip]
static VECTOR_MODE_NEAR: [Step; 3] = [(0, true), (1, true), (2, false)];

#[rattlefmt::skip]
static VECTOR_MODE_NEW: [Step; 4] = [(0, true), (1, true), (2, true), (3, false)];

#[rattlefmt::skip]
static VECTOR_MODE_SPLIT: [Step; 4] = [(0, true), (1, true), (2, true), (3, true)];

#[rattlefmt::skip]
static VECTOR_MODE_ZERO: [Step; 1] = [(0, false)];

/// The vector mode of an inter macroblock (16.3); a mode of intra macroblocks counts as ZERO.
#[tactic(auto, unfolding(sal_bool::specs::Pairs::way, sal_tables::specs::Trees::vector_mode_entries))]
pub(crate) fn vector_mode_way(y: YMode) -> &'static [Step]
    ensures way { way (length vector_mode_entries) vector_mode_entries 0 (vector_number y) ≡ Some result.now }
    ensures places { IsTrue (are_below 4 result.now) }
{
    match y {
        YMode::NEAREST => &VECTOR_MODE_NEAREST,
        YMode::NEAR => &VECTOR_MODE_NEAR,
        YMode::NEW => &VECTOR_MODE_NEW,
        YMode::SPLIT => &VECTOR_MODE_SPLIT,
        _ => &VECTOR_MODE_ZERO,
    }
}

#[rattlefmt::skip]
static SHORT: [[Step; 3]; 8] = [
    [(0, false), (1, false), (2, false)],
    [(0, false), (1, false), (2, true)],
    [(0, false), (1, true), (3, false)],
    [(0, false), (1, true), (3, true)],
    [(0, true), (4, false), (5, false)],
    [(0, true), (4, false), (5, true)],
    [(0, true), (4, true), (6, false)],
    [(0, true), (4, true), (6, true)],
];

/// A size below 8 of a vector's component (17.2).
#[tactic(auto, unfolding(sal_bool::specs::Pairs::way, sal_tables::specs::Trees::short_vector_entries))]
pub(crate) fn short_way(size: u8) -> &'static [Step]
    requires { size < 8 }
    ensures way { way (length short_vector_entries) short_vector_entries 0 size ≡ Some result.now }
    ensures places { IsTrue (are_below 7 result.now) }
{
    match size {
        0 => &SHORT[0],
        1 => &SHORT[1],
        2 => &SHORT[2],
        3 => &SHORT[3],
        4 => &SHORT[4],
        5 => &SHORT[5],
        6 => &SHORT[6],
        _ => &SHORT[7],
    }
}
