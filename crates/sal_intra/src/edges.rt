//! The samples around a macroblock and around its subblocks, read where they lie (RFC 6386, sections 12.2 and 12.3).

ghost use Rattle.std.specs.Prelude.{◌≡◌, ◌<◌, ◌≤◌, ◌+◌, ◌*◌, ℕ, length, slice_index};
ghost use Rattle.sal_base.specs.Samples.{listed};
ghost use Rattle.sal_intra.specs.Edges.{above_at, left_at, corner_at, luma_edge_of, chroma_edge_of, inner_above, inner_left, inner_corner, sub_edge_of};

use crate::edge::{ChromaEdge, LumaEdge, SubEdge};
use sal_base::Plane;

// The samples above column x, row y and to the right; beyond the plane the last one counts again.
fn fill_above(above: &mut [u8], samples: &[u8], width: usize, x: usize, y: usize)
    requires column { x < width }
    requires row { y * width ≤ length samples.now }
    requires few { length above.old ≤ 20 }
    ensures { (i : ℕ) → i < length above.old → slice_index above.new i ≡ above_at width samples.now (x + i) y }
{
    if y == 0 {
        above.fill(127);
        return;
    }
    for (i, sample) in above.iter_mut().enumerate() {
        *sample = samples[(y - 1) * width + (x + i).min(width - 1)];
    }
}

// The samples left of column x, from row y down.
fn fill_left(left: &mut [u8], samples: &[u8], width: usize, x: usize, y: usize)
    requires column { x < width }
    requires rows { (y + length left.old) * width ≤ length samples.now }
    ensures { (i : ℕ) → i < length left.old → slice_index left.new i ≡ left_at width samples.now x (y + i) }
{
    if x == 0 {
        left.fill(129);
        return;
    }
    for (i, sample) in left.iter_mut().enumerate() {
        *sample = samples[(y + i) * width + (x - 1)];
    }
}

// The sample above and to the left.
fn corner(samples: &[u8], width: usize, x: usize, y: usize) -> u8
    requires column { x < width }
    requires row { y * width ≤ length samples.now }
    ensures { result ≡ corner_at width samples.now x y }
{
    if y == 0 {
        127
    } else if x == 0 {
        129
    } else {
        samples[(y - 1) * width + (x - 1)]
    }
}

/// The samples around the luma macroblock at column x, row y.
pub fn luma_edge(plane: &Plane, x: usize, y: usize) -> LumaEdge
    requires column { x < plane.now.width }
    requires rows { (y + 16) * plane.now.width ≤ length plane.now.samples }
    ensures { result ≡ luma_edge_of plane.now.width plane.now.samples x y }
{
    let width = plane.width as usize;
    let samples = plane.samples.as_slice();
    let mut above = [0; 20];
    fill_above(&mut above, samples, width, x, y);
    let mut left = [0; 16];
    fill_left(&mut left, samples, width, x, y);
    LumaEdge {
        above,
        left,
        corner: corner(samples, width, x, y),
        has_above: y != 0,
        has_left: x != 0,
    }
}

/// The samples around the macroblock at column x, row y of a chroma plane.
pub fn chroma_edge(plane: &Plane, x: usize, y: usize) -> ChromaEdge
    requires column { x < plane.now.width }
    requires rows { (y + 8) * plane.now.width ≤ length plane.now.samples }
    ensures { result ≡ chroma_edge_of plane.now.width plane.now.samples x y }
{
    let width = plane.width as usize;
    let samples = plane.samples.as_slice();
    let mut above = [0; 8];
    fill_above(&mut above, samples, width, x, y);
    let mut left = [0; 8];
    fill_left(&mut left, samples, width, x, y);
    ChromaEdge {
        above,
        left,
        corner: corner(samples, width, x, y),
        has_above: y != 0,
        has_left: x != 0,
    }
}

// The sample above column x, row y of a macroblock; right of it all rows see the samples above it.
#[inline]
fn above_of(edge: &LumaEdge, built: &[u8; 256], x: usize, y: usize) -> u8
    requires column { x < 20 }
    requires row { y < 16 }
    ensures { result ≡ inner_above edge.now built.now x y }
{
    if y == 0 || x >= 16 {
        edge.above[x]
    } else {
        built[(y - 1) * 16 + x]
    }
}

#[inline]
fn left_of(edge: &LumaEdge, built: &[u8; 256], x: usize, y: usize) -> u8
    requires column { x < 16 }
    requires row { y < 16 }
    ensures { result ≡ inner_left edge.now built.now x y }
{
    if x == 0 {
        edge.left[y]
    } else {
        built[y * 16 + (x - 1)]
    }
}

fn corner_of(edge: &LumaEdge, built: &[u8; 256], x: usize, y: usize) -> u8
    requires column { x < 16 }
    requires row { y < 16 }
    ensures { result ≡ inner_corner edge.now built.now x y }
{
    if y == 0 {
        if x == 0 {
            edge.corner
        } else {
            edge.above[x - 1]
        }
    } else if x == 0 {
        edge.left[y - 1]
    } else {
        built[(y - 1) * 16 + (x - 1)]
    }
}

fn sub_above(edge: &LumaEdge, built: &[u8; 256], x: usize, y: usize) -> [u8; 8]
    requires column { x ≤ 12 }
    requires row { y ≤ 12 }
    ensures { result ≡ listed 8 (λ i. inner_above edge.now built.now (x + i) y) }
{
    let mut above = [0; 8];
    for (i, sample) in above.iter_mut().enumerate() {
        *sample = above_of(edge, built, x + i, y);
    }
    above
}

fn sub_left(edge: &LumaEdge, built: &[u8; 256], x: usize, y: usize) -> [u8; 4]
    requires column { x ≤ 12 }
    requires row { y ≤ 12 }
    ensures { result ≡ listed 4 (λ i. inner_left edge.now built.now x (y + i)) }
{
    let mut left = [0; 4];
    for (i, sample) in left.iter_mut().enumerate() {
        *sample = left_of(edge, built, x, y + i);
    }
    left
}

/// The samples around the subblock at column x, row y of a macroblock that is built so far.
#[tactic(auto, unfolding(crate::specs::Edges::sub_edge_of))]
pub fn sub_edge(edge: &LumaEdge, built: &[u8; 256], x: usize, y: usize) -> SubEdge
    requires column { x ≤ 12 }
    requires row { y ≤ 12 }
    ensures { result ≡ sub_edge_of edge.now built.now x y }
{
    SubEdge {
        above: sub_above(edge, built, x, y),
        left: sub_left(edge, built, x, y),
        corner: corner_of(edge, built, x, y),
    }
}
