//! Blocks out of rows that lie a stride apart.

ghost use Rattle.std.specs.Prelude.{◌≡◌, ◌+◌, ◌*◌, ◌<◌, ◌≤◌, length};
ghost use Rattle.sal_base.specs.Samples.{IsBlockOf};
ghost use Rattle.sal_inter.specs.Taps.{filtered, placed};

use crate::filter::filter_row;
use crate::taps::Taps;

/// A block of samples as they are.
#[inline(always)]
#[tactic(auto, using(std::proofs::lemmas::Nat::row_fits))]
pub(crate) fn copy_rows(samples: &[u8], stride: usize, width: usize, height: usize, out: &mut [u8])
    requires stride { stride < 65536 }
    requires width { (1 ≤ width) × (width ≤ 16) }
    requires height { height ≤ 21 }
    requires samples { height * stride + width ≤ length samples.now + stride }
    requires out { length out.old ≡ width * height }
    ensures { IsBlockOf width (width * height) out.new (placed samples.now stride) }
{
    for row in 0..height {
        let (at, from) = (row * width, row * stride);
        out[at..at + width].copy_from_slice(&samples[from..from + width]);
    }
}

/// A block of samples through a filter, each with the five that follow it a step apart. A row is filtered by itself and then
/// copied, since it could be that `out` and `samples` share memory as far as the compiler knows.
#[inline(always)]
#[tactic(auto, using(std::proofs::lemmas::Nat::row_fits))]
pub(crate) fn filter_rows(
    taps: Taps,
    samples: &[u8],
    stride: usize,
    step: usize,
    width: usize,
    height: usize,
    out: &mut [u8],
)
    requires stride { stride < 65536 }
    requires step { step < 65536 }
    requires width { (1 ≤ width) × (width ≤ 16) }
    requires height { height ≤ 21 }
    requires samples { height * stride + width + 5 * step ≤ length samples.now + stride }
    requires out { length out.old ≡ width * height }
    ensures { IsBlockOf width (width * height) out.new (filtered taps samples.now stride step) }
{
    for row in 0..height {
        let at = row * width;
        let mut line = [0u8; 16];
        let line = &mut line[..width];
        filter_row(taps, &samples[row * stride..], step, line);
        out[at..at + width].copy_from_slice(line);
    }
}
