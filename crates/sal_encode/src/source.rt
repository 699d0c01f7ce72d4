//! The samples of a picture that is to be encoded, by macroblock.

ghost use Rattle.std.specs.Prelude.{◌≡◌, ◌≤◌, ◌*◌, length};
ghost use Rattle.sal_base.specs.Picture.{IsPicture};
ghost use Rattle.sal_encode.specs.Source.{nearest, square_at, source_at};
ghost use Rattle.sal_encode.specs.Standing.{HasSample};

use sal_base::{Picture, Plane};
use sal_search::MbSource;

// The sample of a plane that is nearest to column x, row y.
#[inline]
fn nearest(plane: &Plane, x: usize, y: usize) -> u8
    requires { HasSample plane.now }
    ensures { result ≡ nearest plane.now x y }
{
    let width = plane.width as usize;
    let column = x.min(width - 1);
    let row = y.min(plane.height as usize - 1);
    plane.samples.as_slice()[row * width + column]
}

// The luma square at column x, row y.
fn luma_square(plane: &Plane, x: usize, y: usize) -> [u8; 256]
    requires plane { HasSample plane.now }
    requires column { x ≤ 65536 }
    requires row { y ≤ 65536 }
    ensures { result ≡ square_at 16 plane.now x y }
{
    let mut square = [0; 256];
    for (k, sample) in square.iter_mut().enumerate() {
        *sample = nearest(plane, x + k % 16, y + k / 16);
    }
    square
}

// The chroma square at column x, row y.
fn chroma_square(plane: &Plane, x: usize, y: usize) -> [u8; 64]
    requires plane { HasSample plane.now }
    requires column { x ≤ 65536 }
    requires row { y ≤ 65536 }
    ensures { result ≡ square_at 8 plane.now x y }
{
    let mut square = [0; 64];
    for (k, sample) in square.iter_mut().enumerate() {
        *sample = nearest(plane, x + k % 8, y + k / 8);
    }
    square
}

/// The samples of the macroblock at a column and row of macroblocks; beyond the picture's sides those that are nearest.
#[tactic(auto, unfolding(crate::specs::Source::source_at))]
pub(crate) fn source_at(picture: &Picture, column: usize, row: usize) -> MbSource
    requires picture { IsPicture picture.now }
    requires column { column ≤ 80 }
    requires row { row ≤ 45 }
    ensures { result ≡ source_at picture.now column row }
{
    MbSource {
        y: luma_square(&picture.y, 16 * column, 16 * row),
        u: chroma_square(&picture.u, 8 * column, 8 * row),
        v: chroma_square(&picture.v, 8 * column, 8 * row),
    }
}
