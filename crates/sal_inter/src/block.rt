//! Blocks predicted from a reference (RFC 6386, section 18.3).

ghost use Rattle.std.specs.Prelude.{◌≡◌, ℕ, ◌+◌, ◌*◌, ◌<◌, ◌≤◌, pos, ◌+ℤ◌, length, slice_index, drop};
ghost use Rattle.sal_base.specs.Samples.{IsBlockOf};
ghost use Rattle.sal_inter.specs.Inter.{inter_sample, HasSamples};
ghost use Rattle.sal_inter.specs.Windows.{Reads, IsInside, IsPlace, IsFirst, IsWindow, AreBytes, window_sample};

use crate::gather::{gather, samples_of};
use crate::interpolate::interpolate;
use crate::span::Span;
use sal_base::{Plane, Vector};

// Where the first sample of a window in the plane stands.
#[inline]
fn first_in(plane: &Plane, across: Span, down: Span) -> usize
    requires plane { HasSamples plane.now }
    requires some { (1 ≤ across.count) × (1 ≤ down.count) }
    requires columns { IsInside across plane.now.width }
    requires rows { IsInside down plane.now.height }
    requires left { IsPlace across.start }
    requires top { IsPlace down.start }
    ensures first { IsFirst plane.now.width across down result }
    ensures inside { result ≤ plane.now.width * plane.now.height }
{
    down.start as usize * plane.width as usize + across.start as usize
}

// The samples from the first one of a window in the plane on.
#[inline]
fn window_in(plane: &Plane, across: Span, down: Span) -> &[u8]
    requires plane { HasSamples plane.now }
    requires some { (1 ≤ across.count) × (1 ≤ down.count) }
    requires columns { IsInside across plane.now.width }
    requires rows { IsInside down plane.now.height }
    requires left { IsPlace across.start }
    requires top { IsPlace down.start }
    ensures long { down.count * plane.now.width + across.count ≤ length result.now + plane.now.width }
    ensures window { IsWindow plane.now across down result.now plane.now.width }
    ensures bytes { AreBytes plane.now.samples }
{
    &samples_of(plane)[first_in(plane, across, down)..]
}

// A block whose window lies in the plane, read where it is.
#[inline]
fn predict_inside(
    plane: &Plane,
    across: Span,
    down: Span,
    width: usize,
    height: usize,
    out: &mut [u8],
)
    requires plane { HasSamples plane.now }
    requires across { Reads width across }
    requires down { Reads height down }
    requires width { (1 ≤ width) × (width ≤ 16) }
    requires height { (1 ≤ height) × (height ≤ 16) }
    requires columns { IsInside across plane.now.width }
    requires rows { IsInside down plane.now.height }
    requires out { length out.old ≡ width * height }
    ensures samples { IsBlockOf width (width * height) out.new (window_sample plane.now across down) }
    ensures bytes { AreBytes plane.now.samples }
{
    interpolate(
        window_in(plane, across, down),
        plane.width as usize,
        across.fraction,
        down.fraction,
        width,
        height,
        out,
    );
}

// A block whose window reaches past an edge of the plane, gathered first.
fn predict_gathered(
    plane: &Plane,
    across: Span,
    down: Span,
    width: usize,
    height: usize,
    out: &mut [u8],
)
    requires plane { HasSamples plane.now }
    requires across { Reads width across }
    requires down { Reads height down }
    requires width { (1 ≤ width) × (width ≤ 16) }
    requires height { (1 ≤ height) × (height ≤ 16) }
    requires out { length out.old ≡ width * height }
    ensures samples { IsBlockOf width (width * height) out.new (window_sample plane.now across down) }
    ensures bytes { AreBytes plane.now.samples }
{
    let mut window = [0u8; 441];
    let window = &mut window[..across.count * down.count];
    gather(
        plane,
        across.start,
        down.start,
        across.count,
        down.count,
        window,
    );
    interpolate(
        window,
        across.count,
        across.fraction,
        down.fraction,
        width,
        height,
        out,
    );
}

// A block by the windows that it reads along both sides.
fn predict(plane: &Plane, across: Span, down: Span, width: usize, height: usize, out: &mut [u8])
    requires plane { HasSamples plane.now }
    requires across { Reads width across }
    requires down { Reads height down }
    requires width { (1 ≤ width) × (width ≤ 16) }
    requires height { (1 ≤ height) × (height ≤ 16) }
    requires out { length out.old ≡ width * height }
    ensures samples { IsBlockOf width (width * height) out.new (window_sample plane.now across down) }
    ensures bytes { AreBytes plane.now.samples }
    ensures long { length out.new ≡ width * height }
{
    if across.is_inside(plane.width) && down.is_inside(plane.height) {
        predict_inside(plane, across, down, width, height, out);
    } else {
        predict_gathered(plane, across, down, width, height, out);
    }
}

/// The prediction of a block whose first sample is at column `x`, row `y`, by a vector into `reference`: its samples row by
/// row in front of `out`, of which the rest stays. `eighths` is set for chroma, whose vectors are in eighths of a sample;
/// those of luma are in quarters. Any place and any vector will do: outside the reference its nearest samples are read.
pub fn predict_block(
    reference: &Plane,
    vector: Vector,
    eighths: bool,
    x: i32,
    y: i32,
    width: usize,
    height: usize,
    out: &mut [u8; 256],
)
    requires reference { HasSamples reference.now }
    requires width { (1 ≤ width) × (width ≤ 16) }
    requires height { (1 ≤ height) × (height ≤ 16) }
    ensures block { IsBlockOf width (width * height) out.new (λ row column. inter_sample reference.now vector eighths (x +ℤ pos column) (y +ℤ pos row)) }
    ensures rest { drop (width * height) out.new ≡ drop (width * height) out.old }
{
    let across = Span::of(x, width, eighths, vector.column);
    let down = Span::of(y, height, eighths, vector.row);
    predict(
        reference,
        across,
        down,
        width,
        height,
        &mut out[..width * height],
    );
}
