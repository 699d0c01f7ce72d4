//! Windows that reach past the edge of a plane (RFC 6386, section 18.3).

ghost use Rattle.std.specs.Prelude.{◌≡◌, ℕ, ◌+◌, ◌*◌, ◌<◌, ◌≤◌, pos, ◌+ℤ◌, ◌≤ℤ◌, length};
ghost use Rattle.sal_base.specs.Samples.{IsBlockOf};
ghost use Rattle.sal_inter.specs.Inter.{place_in, sample, HasSamples};
ghost use Rattle.sal_inter.specs.Windows.{IsPlace, AreBytes, IsNearestRow};

use sal_base::Plane;

// A slice as it is, of which it is told that it has bytes.
#[inline]
fn told_bytes(samples: &[u8]) -> &[u8]
    ensures same { result.now ≡ samples.now }
    ensures bytes { AreBytes result.now }
{
    samples
}

/// The samples of a plane.
#[inline]
pub(crate) fn samples_of(plane: &Plane) -> &[u8]
    ensures samples { result.now ≡ plane.now.samples }
    ensures bytes { AreBytes plane.now.samples }
{
    told_bytes(plane.samples.as_slice())
}

// A place cut off at 0 and at the last one of a side.
fn place_in(side: usize, place: i64) -> usize
    requires side { (1 ≤ side) × (side < 65536) }
    ensures value { result ≡ place_in side place }
    ensures inside { result < side }
{
    place.clamp(0, side as i64 - 1) as usize
}

// Samples of a row from a column on, past its ends the nearest.
fn nearest_row(samples: &[u8], left: i64, out: &mut [u8])
    requires samples { (1 ≤ length samples.now) × (length samples.now < 65536) }
    requires left { IsPlace left }
    requires out { length out.old ≤ 21 }
    ensures { IsNearestRow samples.now left out.new }
{
    for (k, sample) in out.iter_mut().enumerate() {
        *sample = samples[place_in(samples.len(), left + k as i64)];
    }
}

// The same of a row that has them all.
fn copy_row(samples: &[u8], left: i64, out: &mut [u8])
    requires samples { length samples.now < 65536 }
    requires left { IsPlace left }
    requires out { length out.old ≤ 21 }
    requires inside { (pos 0 ≤ℤ left) × ((left +ℤ pos (length out.old)) ≤ℤ pos (length samples.now)) }
    ensures { IsNearestRow samples.now left out.new }
{
    let left = left as usize;
    out.copy_from_slice(&samples[left..left + out.len()]);
}

// The same of any row.
fn gather_row(samples: &[u8], left: i64, out: &mut [u8])
    requires samples { (1 ≤ length samples.now) × (length samples.now < 65536) }
    requires left { IsPlace left }
    requires out { length out.old ≤ 21 }
    ensures { IsNearestRow samples.now left out.new }
{
    if left >= 0 && left + out.len() as i64 <= samples.len() as i64 {
        copy_row(samples, left, out);
    } else {
        nearest_row(samples, left, out);
    }
}

/// The samples of a plane from a column and a row on, outside it the nearest at its edge.
pub(crate) fn gather(
    plane: &Plane,
    left: i64,
    top: i64,
    width: usize,
    height: usize,
    out: &mut [u8],
)
    requires plane { HasSamples plane.now }
    requires left { IsPlace left }
    requires top { IsPlace top }
    requires width { (1 ≤ width) × (width ≤ 21) }
    requires height { height ≤ 21 }
    requires out { length out.old ≡ width * height }
    ensures bytes { AreBytes plane.now.samples }
    ensures long { length out.new ≡ width * height }
    ensures samples { IsBlockOf width (width * height) out.new (λ row column. sample plane.now (left +ℤ pos column) (top +ℤ pos row)) }
{
    let (samples, side) = (samples_of(plane), plane.width as usize);
    for row in 0..height {
        let (at, from) = (
            row * width,
            side * place_in(plane.height as usize, top + row as i64),
        );
        gather_row(&samples[from..from + side], left, &mut out[at..at + width]);
    }
}
