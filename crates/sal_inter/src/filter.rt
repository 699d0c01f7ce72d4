//! Samples through six-tap filters (RFC 6386, section 18.3).

ghost use Rattle.std.specs.Prelude.{◌≡◌, ◌+◌, ◌*◌, ◌<◌, ◌≤◌, length};
ghost use Rattle.sal_inter.specs.Taps.{weighed, IsFilter, IsFilteredRow};

use crate::taps::Taps;
use sal_tables::six_taps;

/// The filter of a fraction in eighths.
pub(crate) fn taps_of(fraction: usize) -> Taps
    requires { fraction < 8 }
    ensures { IsFilter fraction result }
{
    let taps = &six_taps()[fraction];
    Taps {
        first: taps[0].unsigned_abs(),
        second: taps[1].unsigned_abs(),
        third: taps[2].unsigned_abs(),
        fourth: taps[3].unsigned_abs(),
        fifth: taps[4].unsigned_abs(),
        sixth: taps[5].unsigned_abs(),
    }
}

/// Six samples through a filter.
#[inline]
#[tactic(auto, using(crate::proofs::Weighing::at_most_255), unfolding(crate::specs::Taps::weighed))]
pub(crate) fn weighed(taps: Taps, a: u8, b: u8, c: u8, d: u8, e: u8, f: u8) -> u8
    ensures { result ≡ weighed taps a b c d e f }
{
    let added = 64
        + taps.first * a as u16
        + taps.third * c as u16
        + taps.fourth * d as u16
        + taps.sixth * f as u16;
    let taken = taps.second * b as u16 + taps.fifth * e as u16;
    (added.saturating_sub(taken) / 128).min(255) as u8
}

/// Samples that lie `step` apart through a filter, at each place of `out`.
#[inline]
pub(crate) fn filter_row(taps: Taps, samples: &[u8], step: usize, out: &mut [u8])
    requires small { step < 65536 }
    requires long { length out.old + 5 * step ≤ length samples.now }
    ensures { IsFilteredRow taps samples.now step out.new }
{
    for (k, sample) in out.iter_mut().enumerate() {
        *sample = weighed(
            taps,
            samples[k],
            samples[k + step],
            samples[k + 2 * step],
            samples[k + 3 * step],
            samples[k + 4 * step],
            samples[k + 5 * step],
        );
    }
}
