//! Blocks between the samples of a window (RFC 6386, section 18.3).

ghost use Rattle.std.specs.Prelude.{◌≡◌, ◌+◌, ◌*◌, ◌<◌, ◌≤◌, length};
ghost use Rattle.sal_base.specs.Samples.{IsBlockOf};
ghost use Rattle.sal_inter.specs.Taps.{placed};
ghost use Rattle.sal_inter.specs.Windows.{reach, taken_both, filtered_both};

use crate::filter::{filter_row, taps_of};
use crate::rows::{copy_rows, filter_rows};
use crate::taps::Taps;

// Rows through one filter, then the columns of their results through the other.
#[inline(always)]
fn filter_both(
    across: Taps,
    down: Taps,
    samples: &[u8],
    stride: usize,
    width: usize,
    height: usize,
    out: &mut [u8],
)
    requires stride { stride < 65536 }
    requires width { (1 ≤ width) × (width ≤ 16) }
    requires height { height ≤ 16 }
    requires samples { (height + 5) * stride + width + 5 ≤ length samples.now + stride }
    requires out { length out.old ≡ width * height }
    ensures { IsBlockOf width (width * height) out.new (filtered_both across down samples.now stride) }
{
    let mut rows = [0u8; 336];
    let rows = &mut rows[..width * (height + 5)];
    filter_rows(across, samples, stride, 1, width, height + 5, rows);
    filter_row(down, rows, width, out);
}

// A block by the fractions of its vector.
#[inline(always)]
fn by_fractions(
    samples: &[u8],
    stride: usize,
    across: usize,
    down: usize,
    width: usize,
    height: usize,
    out: &mut [u8],
)
    requires stride { stride < 65536 }
    requires across { across < 8 }
    requires down { down < 8 }
    requires width { (1 ≤ width) × (width ≤ 16) }
    requires height { height ≤ 16 }
    requires samples { (height + reach down) * stride + width + reach across ≤ length samples.now + stride }
    requires out { length out.old ≡ width * height }
    ensures { IsBlockOf width (width * height) out.new (taken_both across down (placed samples.now stride)) }
{
    match (across, down) {
        (0, 0) => copy_rows(samples, stride, width, height, out),
        (0, _) => filter_rows(taps_of(down), samples, stride, stride, width, height, out),
        (_, 0) => filter_rows(taps_of(across), samples, stride, 1, width, height, out),
        _ => filter_both(
            taps_of(across),
            taps_of(down),
            samples,
            stride,
            width,
            height,
            out,
        ),
    }
}

/// A block out of the window that it reads, by the fractions of its vector. The sides that blocks have stand as numbers, so
/// that the loops over a row are of a fixed length.
pub(crate) fn interpolate(
    samples: &[u8],
    stride: usize,
    across: usize,
    down: usize,
    width: usize,
    height: usize,
    out: &mut [u8],
)
    requires stride { stride < 65536 }
    requires across { across < 8 }
    requires down { down < 8 }
    requires width { (1 ≤ width) × (width ≤ 16) }
    requires height { height ≤ 16 }
    requires samples { (height + reach down) * stride + width + reach across ≤ length samples.now + stride }
    requires out { length out.old ≡ width * height }
    ensures { IsBlockOf width (width * height) out.new (taken_both across down (placed samples.now stride)) }
{
    match width {
        16 => by_fractions(samples, stride, across, down, 16, height, out),
        8 => by_fractions(samples, stride, across, down, 8, height, out),
        4 => by_fractions(samples, stride, across, down, 4, height, out),
        _ => by_fractions(samples, stride, across, down, width, height, out),
    }
}
