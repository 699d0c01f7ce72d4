//! Whole pictures, macroblock by macroblock (RFC 6386, section 15).

ghost use Rattle.std.specs.Prelude.{◌≡◌, ◌+◌, ◌*◌, ◌/◌, ◌%◌, ◌≤◌, ◌<◌, All, length};
ghost use Rattle.sal_base.specs.Picture.{IsPlane};
ghost use Rattle.sal_filter.specs.Filtered.{mb_filtered, info_filtered, all_filtered, filtered};
ghost use Rattle.sal_filter.specs.Blocks.{HasSides, square_at, square_filtered};

use crate::block::{Square, filter_square};
use crate::edge::{Edge, edge_of};
use crate::head::{FilterHead, MbInfo};
use crate::limits::{Limits, limits_at, macroblock_level};
use sal_base::{Plane, Planes};

// One plane's part of a macroblock.
fn filter_plane(plane: &mut Plane, square: &Square, outer: &Edge, inner: &Edge, within: bool)
    requires plane { IsPlane plane.old.width plane.old.height plane.old }
    requires width { square.now.width ≡ plane.old.width }
    requires columns { square.now.x + square.now.side ≤ plane.old.width }
    requires rows { square.now.y + square.now.side ≤ plane.old.height }
    requires left { 0 < square.now.x → 4 ≤ square.now.x }
    requires top { 0 < square.now.y → 4 ≤ square.now.y }
    requires side { (0 < square.now.side) × (square.now.side % 8 ≡ 0) }
    ensures value { plane.new ≡ record plane.old { samples = square_filtered outer.now inner.now within square.now plane.old.samples } }
    ensures plane { IsPlane plane.old.width plane.old.height plane.new }
{
    filter_square(plane.samples.as_mut_slice(), square, outer, inner, within);
}

fn filter_macroblock(
    planes: &mut Planes,
    is_simple: bool,
    limits: &Limits,
    within: bool,
    column: usize,
    row: usize,
)
    requires sides { HasSides planes.old.y.width planes.old.y.height planes.old }
    requires column { 16 * column + 16 ≤ planes.old.y.width }
    requires row { 16 * row + 16 ≤ planes.old.y.height }
    ensures value { planes.new ≡ mb_filtered is_simple limits.now within column row planes.old }
    ensures sides { HasSides planes.old.y.width planes.old.y.height planes.new }
{
    // Read, so that it is known to fit.
    let _height = planes.y.height;
    let outer = edge_of(is_simple, true, limits);
    let inner = edge_of(is_simple, false, limits);
    let luma = Square {
        width: planes.y.width as usize,
        side: 16,
        x: 16 * column,
        y: 16 * row,
    };
    filter_plane(&mut planes.y, &luma, &outer, &inner, within);
    if is_simple {
        return;
    }
    let chroma = Square {
        width: planes.u.width as usize,
        side: 8,
        x: 8 * column,
        y: 8 * row,
    };
    filter_plane(&mut planes.u, &chroma, &outer, &inner, within);
    filter_plane(&mut planes.v, &chroma, &outer, &inner, within);
}

fn filter_info(planes: &mut Planes, head: &FilterHead, info: &MbInfo, column: usize, row: usize)
    requires sides { HasSides planes.old.y.width planes.old.y.height planes.old }
    requires column { 16 * column + 16 ≤ planes.old.y.width }
    requires row { 16 * row + 16 ≤ planes.old.y.height }
    requires segment { info.now.mode.segment ≤ 3 }
    ensures value { planes.new ≡ info_filtered head.now column row info.now planes.old }
    ensures sides { HasSides planes.old.y.width planes.old.y.height planes.new }
{
    let level = macroblock_level(head, &info.mode);
    if level == 0 {
        return;
    }
    let limits = limits_at(head.key, head.sharpness, level);
    filter_macroblock(planes, head.simple, &limits, info.inner, column, row);
}

// Filters the macroblocks of one row.
fn filter_row(planes: &mut Planes, info: &[MbInfo], head: &FilterHead, row: usize)
    requires sides { HasSides planes.old.y.width planes.old.y.height planes.old }
    requires columns { planes.old.y.width ≡ 16 * length info.now }
    requires row { 16 * row + 16 ≤ planes.old.y.height }
    requires segments { All (λ m. m.mode.segment ≤ 3) info.now }
    ensures value { planes.new ≡ all_filtered head.now (length info.now) (row * length info.now) info.now planes.old }
    ensures sides { HasSides planes.old.y.width planes.old.y.height planes.new }
{
    for (column, one) in info.iter().enumerate() {
        filter_info(planes, head, one, column, row);
    }
}

/// Filters a picture of whole macroblocks, whose `info` stands in raster order.
pub fn filter_picture(planes: &mut Planes, info: &[MbInfo], head: &FilterHead)
    requires sides { HasSides planes.old.y.width planes.old.y.height planes.old }
    requires columns { planes.old.y.width % 16 ≡ 0 }
    requires rows { planes.old.y.height % 16 ≡ 0 }
    requires info { length info.now ≡ planes.old.y.width / 16 * (planes.old.y.height / 16) }
    requires segments { All (λ m. m.mode.segment ≤ 3) info.now }
    ensures value { planes.new ≡ filtered head.now info.now planes.old }
    ensures sides { HasSides planes.old.y.width planes.old.y.height planes.new }
{
    if head.level == 0 {
        return;
    }
    let columns = planes.y.width as usize / 16;
    for row in 0..planes.y.height as usize / 16 {
        filter_row(
            planes,
            &info[row * columns..row * columns + columns],
            head,
            row,
        );
    }
}
