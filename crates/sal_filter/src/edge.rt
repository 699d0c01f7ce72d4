//! Edges of blocks, place by place (RFC 6386, sections 15.2 and 15.3).

ghost use Rattle.std.specs.Prelude.{◌≡◌, ℕ, ◌+◌, ◌*◌, ◌<◌, ◌≤◌, ◌&&◌, ◌-ℤ◌, pos, length};
ghost use Rattle.sal_filter.specs.Edges.{AreSigned, IsSigned, is_near, is_even, is_smooth, has_high_variance};
ghost use Rattle.sal_filter.specs.Filtered.{plus_128, across, across_put, place_put, edge_filtered, edge_of};
ghost use Rattle.sal_filter.specs.Lanes.{edge_place};

use crate::across::{Across, inner_where, outer_where, simple};
use crate::limits::Limits;

/// The three filters.
#[derive(Clone, Copy, Debug, PartialEq, Eq)]
pub enum Sort {
    /// The simple filter, between macroblocks and within them.
    Simple,
    /// The normal filter within a macroblock.
    Inner,
    /// The normal filter between macroblocks.
    Outer,
}

/// How an edge is filtered.
#[derive(Clone, Copy, Debug, PartialEq, Eq)]
pub struct Edge {
    pub sort: Sort,
    /// The largest step across it.
    pub limit: u16,
    /// The largest difference of neighbours on one side.
    pub interior: u16,
    /// Differences next to it above this are high variance.
    pub threshold: u16,
}

/// How the edges between macroblocks or those within one are filtered.
pub fn edge_of(is_simple: bool, is_outer: bool, limits: &Limits) -> Edge
    ensures { result ≡ edge_of is_simple is_outer limits.now }
{
    let sort = if is_simple {
        Sort::Simple
    } else if is_outer {
        Sort::Outer
    } else {
        Sort::Inner
    };
    Edge {
        sort,
        limit: if is_outer { limits.outer } else { limits.inner },
        interior: limits.interior,
        threshold: limits.threshold,
    }
}

#[inline(always)]
fn is_near(limit: u16, a: &Across) -> bool
    requires { AreSigned a.now }
    ensures { result ≡ is_near limit a.now }
{
    2 * a.p0.abs_diff(a.q0) + a.p1.abs_diff(a.q1) / 2 <= limit
}

// Whether the samples before the edge differ little from one to the next.
#[inline(always)]
fn is_even_before(limit: u16, a: &Across) -> bool
    requires { AreSigned a.now }
    ensures { result ≡ is_even limit a.now.p3 a.now.p2 a.now.p1 a.now.p0 }
{
    (a.p3.abs_diff(a.p2) <= limit) & (a.p2.abs_diff(a.p1) <= limit) & (a.p1.abs_diff(a.p0) <= limit)
}

#[inline(always)]
fn is_even_after(limit: u16, a: &Across) -> bool
    requires { AreSigned a.now }
    ensures { result ≡ is_even limit a.now.q3 a.now.q2 a.now.q1 a.now.q0 }
{
    (a.q3.abs_diff(a.q2) <= limit) & (a.q2.abs_diff(a.q1) <= limit) & (a.q1.abs_diff(a.q0) <= limit)
}

#[inline(always)]
fn is_smooth(limit: u16, a: &Across) -> bool
    requires { AreSigned a.now }
    ensures { result ≡ is_smooth limit a.now }
{
    is_even_before(limit, a) & is_even_after(limit, a)
}

#[inline(always)]
fn has_high_variance(threshold: u16, a: &Across) -> bool
    requires { AreSigned a.now }
    ensures { result ≡ has_high_variance threshold a.now }
{
    (a.p1.abs_diff(a.p0) > threshold) | (a.q1.abs_diff(a.q0) > threshold)
}

// Whether the normal filter moves anything.
#[inline(always)]
fn is_filtered(edge: &Edge, a: &Across) -> bool
    requires { AreSigned a.now }
    ensures { result ≡ (is_near edge.now.limit a.now && is_smooth edge.now.interior a.now) }
{
    is_near(edge.limit, a) & is_smooth(edge.interior, a)
}

#[inline(always)]
fn less_128(sample: u8) -> i16
    ensures value { result ≡ pos sample -ℤ pos 128 }
    ensures signed { IsSigned result }
{
    sample as i16 - 128
}

#[inline(always)]
fn plus_128(x: i16) -> u8
    requires { IsSigned x }
    ensures { result ≡ plus_128 x }
{
    (x + 128) as u8
}

// The samples around the edge before place `at`.
#[inline(always)]
fn around(samples: &[u8], at: usize, step: usize) -> Across
    requires before { 4 * step ≤ at }
    requires after { at + 3 * step < length samples.now }
    ensures value { result ≡ across samples.now at step }
    ensures signed { AreSigned result }
{
    Across {
        p3: less_128(samples[at - 4 * step]),
        p2: less_128(samples[at - 3 * step]),
        p1: less_128(samples[at - 2 * step]),
        p0: less_128(samples[at - step]),
        q0: less_128(samples[at]),
        q1: less_128(samples[at + step]),
        q2: less_128(samples[at + 2 * step]),
        q3: less_128(samples[at + 3 * step]),
    }
}

#[inline(always)]
fn put(samples: &mut [u8], at: usize, step: usize, a: &Across)
    requires before { 4 * step ≤ at }
    requires after { at + 3 * step < length samples.old }
    requires signed { AreSigned a.now }
    ensures { samples.new ≡ across_put at step a.now samples.old }
{
    samples[at - 3 * step] = plus_128(a.p2);
    samples[at - 2 * step] = plus_128(a.p1);
    samples[at - step] = plus_128(a.p0);
    samples[at] = plus_128(a.q0);
    samples[at + step] = plus_128(a.q1);
    samples[at + 2 * step] = plus_128(a.q2);
}

// One place by the simple filter.
#[inline(always)]
fn simple_moved(edge: &Edge, a: Across) -> Across
    requires sort { edge.now.sort ≡ Sort.Simple }
    requires signed { AreSigned a }
    ensures value { result ≡ edge_place edge.now a }
    ensures signed { AreSigned result }
{
    if is_near(edge.limit, &a) {
        simple(a)
    } else {
        a
    }
}

// One place within a macroblock.
#[inline(always)]
fn inner_moved(edge: &Edge, a: Across) -> Across
    requires sort { edge.now.sort ≡ Sort.Inner }
    requires signed { AreSigned a }
    ensures value { result ≡ edge_place edge.now a }
    ensures signed { AreSigned result }
{
    inner_where(
        is_filtered(edge, &a),
        has_high_variance(edge.threshold, &a),
        a,
    )
}

// One place between macroblocks.
#[inline(always)]
fn outer_moved(edge: &Edge, a: Across) -> Across
    requires sort { edge.now.sort ≡ Sort.Outer }
    requires signed { AreSigned a }
    ensures value { result ≡ edge_place edge.now a }
    ensures signed { AreSigned result }
{
    outer_where(
        is_filtered(edge, &a),
        has_high_variance(edge.threshold, &a),
        a,
    )
}

// One place by the filter of a sort.
#[inline(always)]
fn place_moved(sort: Sort, edge: &Edge, a: Across) -> Across
    requires sort { edge.now.sort ≡ sort }
    requires signed { AreSigned a }
    ensures value { result ≡ edge_place edge.now a }
    ensures signed { AreSigned result }
{
    match sort {
        Sort::Simple => simple_moved(edge, a),
        Sort::Inner => inner_moved(edge, a),
        Sort::Outer => outer_moved(edge, a),
    }
}

#[inline(always)]
fn filter_place(sort: Sort, edge: &Edge, samples: &mut [u8], at: usize, step: usize)
    requires sort { edge.now.sort ≡ sort }
    requires before { 4 * step ≤ at }
    requires after { at + 3 * step < length samples.old }
    ensures { samples.new ≡ place_put edge.now at step samples.old }
{
    let moved = place_moved(sort, edge, around(samples, at, step));
    put(samples, at, step, &moved);
}

/// Filters `count` places of an edge from `at` on, `along` apart; the samples across it are `step` apart. The edge's sort is passed
/// beside it, so that where the caller names it the loop has no branch left.
#[inline(always)]
pub fn filter_places(
    sort: Sort,
    edge: &Edge,
    samples: &mut [u8],
    at: usize,
    step: usize,
    along: usize,
    count: usize,
)
    requires sort { edge.now.sort ≡ sort }
    requires before { 4 * step ≤ at }
    requires after { (n : ℕ) → n < count → at + n * along + 3 * step < length samples.old }
    ensures { samples.new ≡ edge_filtered edge.now at step along count samples.old }
{
    let limits = *edge;
    for n in 0..count {
        filter_place(sort, &limits, samples, at + n * along, step);
    }
}
