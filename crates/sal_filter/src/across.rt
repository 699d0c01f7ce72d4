//! The filters of one place of an edge (RFC 6386, sections 15.2 and 15.3).

ghost use Rattle.std.specs.Prelude.{◌≡◌, ◌+◌, ◌*◌, ◌≤◌, ◌<◌, ℤ, pos, neg_ℤ, ◌+ℤ◌, ◌-ℤ◌, ◌*ℤ◌, ◌≤ℤ◌, if◌then◌else◌};
ghost use Rattle.std.specs.Int.{int_shr};
ghost use Rattle.sal_macroblock.specs.Sizes.{Within};
ghost use Rattle.sal_filter.specs.Edges.{AreSigned, signed_clamp, q0_adjustment, p0_adjustment, common, step, simple, q1_adjustment, inner, part, outer};

/// Samples less 128, by their distance from the edge: p before it, q after it.
#[derive(Clone, Copy, Debug, PartialEq, Eq)]
pub struct Across {
    pub p3: i16,
    pub p2: i16,
    pub p1: i16,
    pub p0: i16,
    pub q0: i16,
    pub q1: i16,
    pub q2: i16,
    pub q3: i16,
}

#[inline(always)]
fn signed_clamp(x: i16) -> i16
    ensures value { result ≡ signed_clamp x }
    ensures small { Within 128 result }
{
    let low = if x < -128 { -128 } else { x };
    if low < 127 { low } else { 127 }
}

#[tactic(auto, unfolding(crate::specs::Edges::q0_adjustment))]
#[inline(always)]
fn q0_adjustment(x: i16) -> i16
    requires { Within 128 x }
    ensures value { result ≡ q0_adjustment x }
    ensures small { Within 16 result }
{
    signed_clamp(x + 4) >> 3
}

#[tactic(auto, unfolding(crate::specs::Edges::p0_adjustment))]
#[inline(always)]
fn p0_adjustment(x: i16) -> i16
    requires { Within 128 x }
    ensures value { result ≡ p0_adjustment x }
    ensures small { Within 16 result }
{
    signed_clamp(x + 3) >> 3
}

#[inline(always)]
fn moved(x: i16, by: i16) -> i16
    requires x { Within 128 x }
    requires by { Within 128 by }
    ensures value { result ≡ signed_clamp (x +ℤ by) }
    ensures small { Within 128 result }
{
    signed_clamp(x + by)
}

#[inline(always)]
fn moved_back(x: i16, by: i16) -> i16
    requires x { Within 128 x }
    requires by { Within 128 by }
    ensures value { result ≡ signed_clamp (x -ℤ by) }
    ensures small { Within 128 result }
{
    signed_clamp(x - by)
}

#[inline(always)]
fn step(outer: i16, p0: i16, q0: i16) -> i16
    requires outer { Within 128 outer }
    requires p0 { Within 128 p0 }
    requires q0 { Within 128 q0 }
    ensures value { result ≡ signed_clamp (outer +ℤ pos 3 *ℤ (q0 -ℤ p0)) }
    ensures small { Within 128 result }
{
    signed_clamp(outer + 3 * (q0 - p0))
}

#[tactic(auto, unfolding(crate::specs::Edges::q1_adjustment))]
#[inline(always)]
fn q1_adjustment(x: i16) -> i16
    requires { Within 128 x }
    ensures value { result ≡ q1_adjustment x }
    ensures small { Within 16 result }
{
    (q0_adjustment(x) + 1) >> 1
}

#[inline(always)]
fn rounded_7(x: i16) -> i16
    requires { Within 4096 x }
    ensures value { result ≡ int_shr (x +ℤ pos 63) 7 }
    ensures small { Within 128 result }
{
    (x + 63) >> 7
}

#[tactic(auto, unfolding(crate::specs::Edges::part))]
#[inline(always)]
fn part_27(w: i16) -> i16
    requires { Within 128 w }
    ensures value { result ≡ part 27 w }
    ensures small { Within 128 result }
{
    signed_clamp(rounded_7(27 * w))
}

#[tactic(auto, unfolding(crate::specs::Edges::part))]
#[inline(always)]
fn part_18(w: i16) -> i16
    requires { Within 128 w }
    ensures value { result ≡ part 18 w }
    ensures small { Within 128 result }
{
    signed_clamp(rounded_7(18 * w))
}

#[tactic(auto, unfolding(crate::specs::Edges::part))]
#[inline(always)]
fn part_9(w: i16) -> i16
    requires { Within 128 w }
    ensures value { result ≡ part 9 w }
    ensures small { Within 128 result }
{
    signed_clamp(rounded_7(9 * w))
}

// The two nearest samples moved.
#[inline(always)]
fn common(x: i16, a: Across) -> Across
    requires x { Within 128 x }
    requires signed { AreSigned a }
    ensures value { result ≡ common x a }
{
    let mut a = a;
    a.q0 = moved_back(a.q0, q0_adjustment(x));
    a.p0 = moved(a.p0, p0_adjustment(x));
    a
}

/// The simple filter, which moves the two nearest samples.
#[inline(always)]
pub fn simple(a: Across) -> Across
    requires signed { AreSigned a }
    ensures value { result ≡ simple a }
{
    let w = step(moved_back(a.p1, a.q1), a.p0, a.q0);
    common(w, a)
}

// One of two numbers, without a branch.
#[inline(always)]
fn choose(which: bool, x: i16, y: i16) -> i16
    requires x { Within 128 x }
    requires y { Within 128 y }
    ensures value { result ≡ (if which then x else y) }
    ensures small { Within 128 result }
{
    if which { x } else { y }
}

/// The filter within a macroblock, where it moves anything; without high variance it also moves the next two samples by
/// half as much. It has no branches, so that the compiler filters many places by one instruction.
#[inline(always)]
pub fn inner_where(moves: bool, high_variance: bool, a: Across) -> Across
    requires signed { AreSigned a }
    ensures value { result ≡ (if moves then inner high_variance a else a) }
{
    let across = choose(high_variance, moved_back(a.p1, a.q1), 0);
    let w = choose(moves, step(across, a.p0, a.q0), 0);
    let half = choose(high_variance, 0, q1_adjustment(w));
    let (up, down) = (p0_adjustment(w), q0_adjustment(w));
    Across {
        p3: a.p3,
        p2: a.p2,
        p1: moved(a.p1, half),
        p0: moved(a.p0, up),
        q0: moved_back(a.q0, down),
        q1: moved_back(a.q1, half),
        q2: a.q2,
        q3: a.q3,
    }
}

/// The filter between macroblocks, where it moves anything; without high variance it moves three samples on each side.
#[inline(always)]
pub fn outer_where(moves: bool, high_variance: bool, a: Across) -> Across
    requires signed { AreSigned a }
    ensures value { result ≡ (if moves then outer high_variance a else a) }
{
    let w = choose(moves, step(moved_back(a.p1, a.q1), a.p0, a.q0), 0);
    let near = part_27(w);
    let up = choose(high_variance, p0_adjustment(w), near);
    let down = choose(high_variance, q0_adjustment(w), near);
    let middle = choose(high_variance, 0, part_18(w));
    let far = choose(high_variance, 0, part_9(w));
    Across {
        p3: a.p3,
        p2: moved(a.p2, far),
        p1: moved(a.p1, middle),
        p0: moved(a.p0, up),
        q0: moved_back(a.q0, down),
        q1: moved_back(a.q1, middle),
        q2: moved_back(a.q2, far),
        q3: a.q3,
    }
}
