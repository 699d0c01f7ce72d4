//! Sums of absolute differences.

ghost use Rattle.std.specs.Prelude.{◌≡◌, ◌≤◌, IfSome, Some, None, if◌then◌else◌, nat_lt, length};
ghost use Rattle.sal_search.specs.Costs.{sad};

/// The sum over sixteen samples.
#[inline]
pub(crate) fn sad_16(xs: &[u8], ys: &[u8]) -> u32
    requires xs { length xs.now ≡ 16 }
    requires ys { length ys.now ≡ 16 }
    ensures value { result ≡ sad xs.now ys.now }
    ensures small { result ≤ 4080 }
{
    let mut total: u32 = 0;
    for k in 0..16usize {
        total += xs[k].abs_diff(ys[k]) as u32;
    }
    total
}

/// The sum over 64 samples.
pub(crate) fn sad_64(xs: &[u8], ys: &[u8]) -> u32
    requires xs { length xs.now ≡ 64 }
    requires ys { length ys.now ≡ 64 }
    ensures value { result ≡ sad xs.now ys.now }
    ensures small { result ≤ 16320 }
{
    let mut total: u32 = 0;
    for row in 0..4usize {
        let at = 16 * row;
        total += sad_16(&xs[at..at + 16], &ys[at..at + 16]);
    }
    total
}

/// The sum over 256 samples.
pub(crate) fn sad_256(xs: &[u8; 256], ys: &[u8; 256]) -> u32
    ensures value { result ≡ sad xs.now ys.now }
    ensures small { result ≤ 65280 }
{
    let mut total: u32 = 0;
    for part in 0..4usize {
        let at = 64 * part;
        total += sad_64(&xs[at..at + 64], &ys[at..at + 64]);
    }
    total
}

/// The sum over 256 samples, where it is below a limit.
pub(crate) fn sad_below(xs: &[u8; 256], ys: &[u8; 256], limit: u32) -> Option<u32>
    ensures value { result ≡ (if nat_lt (sad xs.now ys.now) limit then Some (sad xs.now ys.now) else None) }
    ensures small { IfSome result (λ n. n ≤ 65280) }
{
    let mut total: u32 = 0;
    for part in 0..4usize {
        let at = 64 * part;
        total += sad_64(&xs[at..at + 64], &ys[at..at + 64]);
        if total >= limit {
            return None;
        }
    }
    Some(total)
}
