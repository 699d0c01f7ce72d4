//! How strongly a macroblock's edges are filtered (RFC 6386, sections 9.3, 9.4, 15.1 and 15.2).

ghost use Rattle.std.specs.Prelude.{◌≡◌, ◌≤◌, ℤ, pos, ◌+ℤ◌, ◌≤ℤ◌, negsuc};
ghost use Rattle.sal_filter.specs.Limits.{level_in, entry, segment_level, reference_number, mode_delta, with_deltas, level_of, interior_of, threshold_of, limits_of};
ghost use Rattle.sal_macroblock.specs.Sizes.{Within};

use crate::head::FilterHead;
use sal_base::YMode;
use sal_macroblock::{MbMode, RefKind};

/// What decides at each place of an edge whether it is filtered, and how.
#[derive(Clone, Copy, Debug, PartialEq, Eq)]
pub struct Limits {
    /// The largest step across an edge between macroblocks.
    pub outer: u16,
    /// The largest step across an edge within a macroblock.
    pub inner: u16,
    /// The largest difference of neighbours on one side.
    pub interior: u16,
    /// Differences next to the edge above this are high variance.
    pub threshold: u16,
}

fn level_in(level: i16) -> u16
    requires { Within 1000 level }
    ensures value { result ≡ level_in level }
    ensures small { result ≤ 63 }
{
    if level < 0 {
        return 0;
    }
    level.cast_unsigned().min(63)
}

fn segment_level(segments: &Option<(bool, [i8; 4])>, segment: u8, level: u8) -> u16
    requires { segment ≤ 3 }
    ensures value { result ≡ segment_level segments.now segment level }
    ensures small { result ≤ 255 }
{
    let Some(data) = segments else {
        return level as u16;
    };
    let own = data.1[segment as usize] as i16;
    if data.0 {
        level_in(own)
    } else {
        level_in(level as i16 + own)
    }
}

fn reference_delta(deltas: &[i8; 4], reference: RefKind) -> i16
    ensures value { result ≡ entry deltas.now (reference_number reference) }
    ensures small { Within 128 result }
{
    match reference {
        RefKind::Intra => deltas[0] as i16,
        RefKind::Last => deltas[1] as i16,
        RefKind::Golden => deltas[2] as i16,
        RefKind::Alt => deltas[3] as i16,
    }
}

fn mode_delta(deltas: &[i8; 4], mode: YMode) -> i16
    ensures value { result ≡ mode_delta deltas.now mode }
    ensures small { Within 128 result }
{
    match mode {
        YMode::B => deltas[0] as i16,
        YMode::ZERO => deltas[1] as i16,
        YMode::NEAREST | YMode::NEAR | YMode::NEW => deltas[2] as i16,
        YMode::SPLIT => deltas[3] as i16,
        YMode::DC | YMode::V | YMode::H | YMode::TM => 0,
    }
}

/// The level of a macroblock: its segment's, with the deltas of its reference and of its mode.
#[tactic(auto, unfolding(crate::specs::Limits::level_of))]
pub fn macroblock_level(head: &FilterHead, mode: &MbMode) -> u16
    requires { mode.now.segment ≤ 3 }
    ensures value { result ≡ level_of head.now mode.now }
    ensures small { result ≤ 255 }
{
    let level = segment_level(&head.segments, mode.segment, head.level);
    let Some(deltas) = &head.deltas else {
        return level;
    };
    let reference = reference_delta(&deltas.0, mode.reference);
    level_in(level as i16 + reference + mode_delta(&deltas.1, mode.y))
}

#[tactic(auto, unfolding(crate::specs::Limits::interior_of))]
fn interior(sharpness: u8, level: u16) -> u16
    requires { level ≤ 255 }
    ensures value { result ≡ interior_of sharpness level }
    ensures small { result ≤ 255 }
{
    if sharpness == 0 {
        return level.max(1);
    }
    let shifted = if sharpness > 4 { level / 4 } else { level / 2 };
    shifted.min(9u16.saturating_sub(sharpness as u16)).max(1)
}

#[tactic(auto, unfolding(crate::specs::Limits::threshold_of))]
fn threshold(key: bool, level: u16) -> u16
    ensures { result ≡ threshold_of key level }
{
    if level < 15 {
        0
    } else if level < 20 {
        1
    } else if level < 40 {
        if key { 1 } else { 2 }
    } else if key {
        2
    } else {
        3
    }
}

/// The limits of a macroblock of this level.
#[tactic(auto, unfolding(crate::specs::Limits::limits_of))]
pub fn limits_at(key: bool, sharpness: u8, level: u16) -> Limits
    requires { level ≤ 255 }
    ensures { result ≡ limits_of key sharpness level }
{
    let interior = interior(sharpness, level);
    Limits {
        outer: 2 * (level + 2) + interior,
        inner: 2 * level + interior,
        interior,
        threshold: threshold(key, level),
    }
}
