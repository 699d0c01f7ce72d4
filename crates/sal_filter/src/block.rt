//! The edges of a macroblock in one plane (RFC 6386, section 15).

ghost use Rattle.std.specs.Prelude.{◌≡◌, ◌+◌, ◌-◌, ◌*◌, ◌/◌, ◌≤◌, ◌<◌, length, nat_lt, if◌then◌else◌};
ghost use Rattle.sal_filter.specs.Blocks.{Fits, vertical_edge, horizontal_edge, fourths, vertical_edges, horizontal_edges, square_filtered};

use crate::edge::Edge;
use crate::lanes::filter_edge;

/// The samples of a macroblock in one plane, in samples.
#[derive(Clone, Copy, Debug, PartialEq, Eq)]
pub struct Square {
    /// Of the plane.
    pub width: usize,
    /// Of the square: 16 for luma, 8 for chroma.
    pub side: usize,
    /// The column of its first sample.
    pub x: usize,
    /// The row of its first sample.
    pub y: usize,
}

// Its vertical edge this far from its left side.
fn filter_vertical(samples: &mut [u8], square: &Square, edge: &Edge, offset: usize)
    requires fits { Fits square.now samples.old }
    requires offset { offset + 4 ≤ square.now.side }
    requires before { 4 ≤ square.now.x + offset }
    ensures { samples.new ≡ vertical_edge edge.now square.now offset samples.old }
{
    let at = square.y * square.width + square.x + offset;
    filter_edge(edge, samples, at, 1, square.width, square.side / 8);
}

// Its horizontal edge this far down.
fn filter_horizontal(samples: &mut [u8], square: &Square, edge: &Edge, offset: usize)
    requires fits { Fits square.now samples.old }
    requires offset { offset + 4 ≤ square.now.side }
    requires before { 4 ≤ square.now.y + offset }
    ensures { samples.new ≡ horizontal_edge edge.now square.now offset samples.old }
{
    let at = (square.y + offset) * square.width + square.x;
    filter_edge(edge, samples, at, square.width, 1, square.side / 8);
}

fn filter_left(samples: &mut [u8], square: &Square, edge: &Edge)
    requires { Fits square.now samples.old }
    ensures { samples.new ≡ (if nat_lt 0 square.now.x then vertical_edge edge.now square.now 0 samples.old else samples.old) }
{
    if square.x > 0 {
        filter_vertical(samples, square, edge, 0);
    }
}

fn filter_top(samples: &mut [u8], square: &Square, edge: &Edge)
    requires { Fits square.now samples.old }
    ensures { samples.new ≡ (if nat_lt 0 square.now.y then horizontal_edge edge.now square.now 0 samples.old else samples.old) }
{
    if square.y > 0 {
        filter_horizontal(samples, square, edge, 0);
    }
}

fn filter_inner_verticals(samples: &mut [u8], square: &Square, edge: &Edge)
    requires { Fits square.now samples.old }
    ensures { samples.new ≡ fourths (vertical_edge edge.now square.now) (square.now.side / 4 - 1) samples.old }
{
    for k in 0..square.side / 4 - 1 {
        filter_vertical(samples, square, edge, 4 * (k + 1));
    }
}

fn filter_inner_horizontals(samples: &mut [u8], square: &Square, edge: &Edge)
    requires { Fits square.now samples.old }
    ensures { samples.new ≡ fourths (horizontal_edge edge.now square.now) (square.now.side / 4 - 1) samples.old }
{
    for k in 0..square.side / 4 - 1 {
        filter_horizontal(samples, square, edge, 4 * (k + 1));
    }
}

fn filter_verticals(samples: &mut [u8], square: &Square, outer: &Edge, inner: &Edge, within: bool)
    requires { Fits square.now samples.old }
    ensures { samples.new ≡ vertical_edges outer.now inner.now within square.now samples.old }
{
    filter_left(samples, square, outer);
    if within {
        filter_inner_verticals(samples, square, inner);
    }
}

fn filter_horizontals(samples: &mut [u8], square: &Square, outer: &Edge, inner: &Edge, within: bool)
    requires { Fits square.now samples.old }
    ensures { samples.new ≡ horizontal_edges outer.now inner.now within square.now samples.old }
{
    filter_top(samples, square, outer);
    if within {
        filter_inner_horizontals(samples, square, inner);
    }
}

/// Filters the left edge of a square, its inner vertical edges, its top edge and its inner horizontal edges.
#[tactic(auto, unfolding(crate::specs::Blocks::square_filtered))]
pub fn filter_square(samples: &mut [u8], square: &Square, outer: &Edge, inner: &Edge, within: bool)
    requires { Fits square.now samples.old }
    ensures { samples.new ≡ square_filtered outer.now inner.now within square.now samples.old }
{
    filter_verticals(samples, square, outer, inner, within);
    filter_horizontals(samples, square, outer, inner, within);
}
