//! The subblocks of a macroblock in mode B.

ghost use Rattle.std.specs.Prelude.{◌≡◌, ◌≤◌, All, length, Some, None, if◌then◌else◌, nat_lt, IfSome};
ghost use Rattle.sal_base.specs.Samples.{square_put};
ghost use Rattle.sal_macroblock.specs.Sizes.{Within};
ghost use Rattle.sal_search.specs.Subblocks.{subblocks};

use crate::sub::choose_sub;
use sal_base::SubMode;
use sal_intra::LumaEdge;
use sal_transform::Factors;

/// The sixteen subblocks of a macroblock in mode B, in raster order.
#[derive(Clone, Copy, Debug, PartialEq, Eq)]
pub struct Subblocks {
    /// The samples that a decoder makes of them, row by row.
    pub built: [u8; 256],
    pub modes: [SubMode; 16],
    /// The coefficients of each, in zigzag order; where a search gives them each is at most 2,047 in size.
    pub coefficients: [[i32; 16]; 16],
    /// The sum of their costs.
    pub cost: u32,
}

// Writes a subblock at column x, row y of a macroblock.
fn put_sub(samples: &mut [u8], x: usize, y: usize, sub: &[u8; 16])
    requires samples { length samples.old ≡ 256 }
    requires column { x ≤ 12 }
    requires row { y ≤ 12 }
    ensures { samples.new ≡ square_put 16 x y 4 sub.now samples.old }
{
    for row in 0..4usize {
        let at = (y + row) * 16 + x;
        samples[at..at + 4].copy_from_slice(&sub[4 * row..4 * row + 4]);
    }
}

/// The subblocks of a macroblock of these samples, where their costs together are below a limit.
pub(crate) fn subblocks_below(
    samples: &[u8; 256],
    edge: &LumaEdge,
    factors: &Factors,
    limit: u32,
) -> Option<Subblocks>
    ensures value { result ≡ (if nat_lt (subblocks samples.now edge.now factors.now 16).cost limit then Some (subblocks samples.now edge.now factors.now 16) else None) }
    ensures few { IfSome result (λ s. All (λ zs. All (Within 2047) zs) s.coefficients) }
    ensures small { IfSome result (λ s. s.cost ≤ 65280) }
{
    let mut built = [0; 256];
    let mut modes = [SubMode::BDC; 16];
    let mut coefficients = [[0; 16]; 16];
    let mut cost: u32 = 0;
    for n in 0..16usize {
        let sub = choose_sub(samples, edge, factors, &built, n);
        cost += sub.cost;
        if cost >= limit {
            return None;
        }
        put_sub(&mut built, 4 * (n % 4), 4 * (n / 4), &sub.samples);
        modes[n] = sub.mode;
        coefficients[n] = sub.coefficients.0;
    }
    Some(Subblocks {
        built,
        modes,
        coefficients,
        cost,
    })
}
