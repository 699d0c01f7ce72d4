//! Squares of samples that are written into flat planes.

ghost use Rattle.std.specs.Prelude.{◌≡◌, ◌+◌, ◌*◌, ◌≤◌, ℕ, length, slice_index};
ghost use Rattle.sal_base.specs.Samples.{square_put};
ghost use Rattle.sal_frame.specs.Built.{put_square};

use sal_base::Plane;

/// Writes a square of this side, row by row, at column x, row y of samples in rows of this width.
#[inline]
pub(crate) fn put_rows(
    samples: &mut [u8],
    width: usize,
    x: usize,
    y: usize,
    side: usize,
    block: &[u8],
)
    requires block { length block.now ≡ side * side }
    requires column { x + side ≤ width }
    requires row { (y + side) * width ≤ length samples.old }
    ensures { samples.new ≡ square_put width x y side block.now samples.old }
{
    for row in 0..side {
        let at = (y + row) * width + x;
        samples[at..at + side].copy_from_slice(&block[side * row..side * row + side]);
    }
}

/// Writes a square of this side into a plane, at column x, row y.
#[inline]
pub(crate) fn put_square(plane: &mut Plane, x: usize, y: usize, side: usize, block: &[u8])
    requires block { length block.now ≡ side * side }
    requires column { x + side ≤ plane.old.width }
    requires row { (y + side) * plane.old.width ≤ length plane.old.samples }
    ensures { plane.new ≡ put_square side x y block.now plane.old }
{
    put_rows(
        plane.samples.as_mut_slice(),
        plane.width as usize,
        x,
        y,
        side,
        block,
    );
}

/// Samples are bytes. It does nothing: it lends their range to a proof.
#[inline]
pub(crate) fn are_bytes(samples: &[u8])
    ensures { (k : ℕ) → slice_index samples.now k ≤ 255 }
{
    let _ = samples;
}
