//! The vectors that neighbours suggest (RFC 6386, section 16.3).

ghost use Rattle.std.specs.Prelude.{◌≡◌, ◌+◌, ◌-◌, ◌<◌, ◌≤◌, All, length, slice_index, FitsSigned};
ghost use Rattle.std.specs.Int.{w16};
ghost use Rattle.sal_macroblock.specs.Macroblocks.{is_intra, is_split, own_vector};
ghost use Rattle.sal_modes.specs.Vectors.{between};
ghost use Rattle.sal_modes.specs.Near.{equal, motion_of, bias_of, negated, counted, put_motion, noted, joined, with_splits, split_weight, ordered, best, clamped_to, near_from, near_of};

use crate::around::{Bias, Bounds, Near};
use sal_base::{Vector, YMode};
use sal_macroblock::{MbMode, RefKind};

/// Four vectors with their counts, the first being the zero vector, and which was filled last. Rows and columns are wide
/// enough to turn any vector round.
#[derive(Clone, Copy)]
struct Slots {
    filled: usize,
    motions: [(i32, i32); 4],
    counts: [u8; 4],
}

fn equal(a: (i32, i32), b: (i32, i32)) -> bool
    ensures { result ≡ equal a b }
{
    a.0 == b.0 && a.1 == b.1
}

fn is_intra(kind: RefKind) -> bool
    ensures { result ≡ is_intra kind }
{
    match kind {
        RefKind::Intra => true,
        RefKind::Last | RefKind::Golden | RefKind::Alt => false,
    }
}

fn motion_of(mode: &MbMode) -> (i32, i32)
    ensures value { result ≡ motion_of (own_vector mode.now) }
    ensures row { FitsSigned w16 result.0 }
    ensures column { FitsSigned w16 result.1 }
{
    let vector = mode.vectors[15];
    (vector.row as i32, vector.column as i32)
}

fn bias_of(bias: &Bias, kind: RefKind) -> bool
    ensures { result ≡ bias_of bias.now kind }
{
    match kind {
        RefKind::Intra | RefKind::Last => false,
        RefKind::Golden => bias.golden,
        RefKind::Alt => bias.alt,
    }
}

fn weight_of(mode: &MbMode, weight: u8) -> u8
    ensures { result ≡ split_weight mode.now weight }
{
    if let YMode::SPLIT = mode.y { weight } else { 0 }
}

fn negated(bias: &Bias, kind: RefKind, motion: (i32, i32)) -> (i32, i32)
    requires row { FitsSigned w16 motion.0 }
    requires column { FitsSigned w16 motion.1 }
    ensures { result ≡ negated bias.now kind motion }
{
    if bias_of(bias, kind) != bias.own {
        (-motion.0, -motion.1)
    } else {
        motion
    }
}

fn counted(slots: Slots, at: usize, weight: u8) -> Slots
    requires place { at < 4 }
    requires small { slice_index slots.counts at + weight < 256 }
    ensures { result ≡ counted at weight slots }
{
    let mut slots = slots;
    slots.counts[at] += weight;
    slots
}

#[tactic(auto, unfolding(crate::specs::Near::put_motion))]
fn put_motion(slots: Slots, motion: (i32, i32), weight: u8) -> Slots
    requires place { slots.filled < 3 }
    requires small { All (λ c. c ≤ 200) slots.counts }
    requires weight { weight ≤ 2 }
    ensures { result ≡ put_motion motion weight slots }
{
    let mut slots = slots;
    if equal(motion, slots.motions[slots.filled]) {
        counted(slots, slots.filled, weight)
    } else {
        slots.filled += 1;
        slots.motions[slots.filled] = motion;
        counted(slots, slots.filled, weight)
    }
}

#[tactic(auto, unfolding(crate::specs::Near::noted))]
fn noted(slots: Slots, bias: &Bias, mode: &MbMode, weight: u8) -> Slots
    requires place { slots.filled < 3 }
    requires small { All (λ c. c ≤ 200) slots.counts }
    requires weight { weight ≤ 2 }
    ensures { result ≡ noted bias.now mode.now weight slots }
{
    if is_intra(mode.reference) {
        return slots;
    }
    let motion = motion_of(mode);
    if equal(motion, (0, 0)) {
        counted(slots, 0, weight)
    } else {
        put_motion(slots, negated(bias, mode.reference, motion), weight)
    }
}

fn joined(slots: Slots) -> Slots
    requires { All (λ c. c ≤ 200) slots.counts }
    ensures { result ≡ joined slots }
{
    if slots.filled == 3 && equal(slots.motions[3], slots.motions[1]) {
        counted(slots, 1, 1)
    } else {
        slots
    }
}

fn with_splits(slots: Slots, above: &MbMode, left: &MbMode, corner: &MbMode) -> Slots
    ensures { result ≡ with_splits above.now left.now corner.now slots }
{
    let mut slots = slots;
    slots.counts[3] = weight_of(above, 2) + weight_of(left, 2) + weight_of(corner, 1);
    slots
}

fn ordered(slots: Slots) -> Slots
    ensures { result ≡ ordered slots }
{
    let mut slots = slots;
    if slots.counts[2] > slots.counts[1] {
        let (count, motion) = (slots.counts[1], slots.motions[1]);
        slots.counts[1] = slots.counts[2];
        slots.counts[2] = count;
        slots.motions[1] = slots.motions[2];
        slots.motions[2] = motion;
    }
    slots
}

fn best(slots: &Slots) -> (i32, i32)
    ensures { result ≡ best slots.now }
{
    if slots.counts[1] >= slots.counts[0] {
        slots.motions[1]
    } else {
        (0, 0)
    }
}

fn between(low: i16, high: i16, x: i32) -> i16
    ensures { result ≡ between low high x }
{
    let x = if x < low as i32 { low as i32 } else { x };
    if x < high as i32 { x as i16 } else { high }
}

fn clamped_to(bounds: &Bounds, motion: (i32, i32)) -> Vector
    ensures { result ≡ clamped_to bounds.now motion }
{
    Vector {
        row: between(bounds.least.row, bounds.greatest.row, motion.0),
        column: between(bounds.least.column, bounds.greatest.column, motion.1),
    }
}

fn near_from(bounds: &Bounds, slots: &Slots) -> Near
    ensures { result ≡ near_from bounds.now slots.now }
{
    Near {
        best: clamped_to(bounds, best(slots)),
        nearest: clamped_to(bounds, slots.motions[1]),
        near: clamped_to(bounds, slots.motions[2]),
        counts: slots.counts,
    }
}

/// The vectors that the macroblocks above, left and above-left suggest, and their counts. It has no condition: where the
/// least bound is above the greatest it gives the greatest.
#[tactic(auto, unfolding(crate::specs::Near::near_of))]
pub fn near_vectors(
    above: &MbMode,
    left: &MbMode,
    corner: &MbMode,
    bias: &Bias,
    bounds: &Bounds,
) -> Near
    ensures { result ≡ near_of above.now left.now corner.now bias.now bounds.now }
{
    let none = Slots {
        filled: 0,
        motions: [(0, 0); 4],
        counts: [0; 4],
    };
    let one = noted(none, bias, above, 2);
    let two = noted(one, bias, left, 2);
    let three = noted(two, bias, corner, 1);
    let slots = ordered(with_splits(joined(three), above, left, corner));
    near_from(bounds, &slots)
}
