//! One subblock: its mode, its coefficients, and the samples that they lead to.

ghost use Rattle.std.specs.Prelude.{◌≡◌, ◌<◌, ◌≤◌, ◌+◌, ◌*◌, ◌/◌, ◌%◌, pos, ◌+ℤ◌, ◌-ℤ◌, All};
ghost use Rattle.sal_base.specs.Samples.{clamped};
ghost use Rattle.sal_macroblock.specs.Sizes.{Within};
ghost use Rattle.sal_intra.specs.Edges.{sub_edge_of};
ghost use Rattle.sal_search.specs.Costs.{candidate, better};
ghost use Rattle.sal_search.specs.Subblocks.{sub_square, sub_predicted, sub_candidate, best_sub, differences, sums, sub_coefficients, sub_rebuilt};

use crate::sad::sad_16;
use sal_base::SubMode;
use sal_intra::{LumaEdge, SubEdge, predict_sub, sub_edge};
use sal_macroblock::Block;
use sal_transform::{Factors, block_residue, forward, quant};

// The subblock of a macroblock's samples at column x, row y.
fn sub_square(samples: &[u8; 256], x: usize, y: usize) -> [u8; 16]
    requires column { x ≤ 12 }
    requires row { y ≤ 12 }
    ensures { result ≡ sub_square samples.now x y }
{
    let mut square = [0; 16];
    for (k, sample) in square.iter_mut().enumerate() {
        *sample = samples[(y + k / 4) * 16 + (x + k % 4)];
    }
    square
}

// A mode, the samples that it predicts, and their sum of differences.
#[derive(Clone, Copy)]
struct Predicted {
    mode: SubMode,
    samples: [u8; 16],
    cost: u32,
}

fn of_mode(mode: SubMode, wanted: &[u8; 16], around: &SubEdge) -> Predicted
    ensures candidate { candidate result.mode result.cost ≡ sub_candidate wanted.now around.now mode }
    ensures samples { result.samples ≡ sub_predicted result.mode around.now }
    ensures small { result.cost ≤ 4080 }
{
    let samples = predict_sub(mode, around);
    let cost = sad_16(wanted, &samples);
    Predicted {
        mode,
        samples,
        cost,
    }
}

// The best so far, or another mode where it costs less.
fn better(best: Predicted, mode: SubMode, wanted: &[u8; 16], around: &SubEdge) -> Predicted
    requires samples { best.samples ≡ sub_predicted best.mode around.now }
    requires small { best.cost ≤ 4080 }
    ensures candidate { candidate result.mode result.cost ≡ better (candidate best.mode best.cost) (sub_candidate wanted.now around.now mode) }
    ensures samples { result.samples ≡ sub_predicted result.mode around.now }
    ensures small { result.cost ≤ 4080 }
{
    let other = of_mode(mode, wanted, around);
    if other.cost < best.cost { other } else { best }
}

// The first mode of least cost.
fn best_sub(wanted: &[u8; 16], around: &SubEdge) -> Predicted
    ensures candidate { candidate result.mode result.cost ≡ best_sub wanted.now around.now }
    ensures samples { result.samples ≡ sub_predicted result.mode around.now }
    ensures small { result.cost ≤ 4080 }
{
    let best = of_mode(SubMode::BDC, wanted, around);
    let best = better(best, SubMode::BTM, wanted, around);
    let best = better(best, SubMode::BVE, wanted, around);
    let best = better(best, SubMode::BHE, wanted, around);
    let best = better(best, SubMode::BLD, wanted, around);
    let best = better(best, SubMode::BRD, wanted, around);
    let best = better(best, SubMode::BVR, wanted, around);
    let best = better(best, SubMode::BVL, wanted, around);
    let best = better(best, SubMode::BHD, wanted, around);
    better(best, SubMode::BHU, wanted, around)
}

fn difference(wanted: u8, predicted: u8) -> i32
    ensures value { result ≡ pos wanted -ℤ pos predicted }
    ensures small { Within 255 result }
{
    wanted as i32 - predicted as i32
}

// Samples less their prediction.
fn differences(wanted: &[u8; 16], predicted: &[u8; 16]) -> [i32; 16]
    ensures value { result ≡ differences wanted.now predicted.now }
    ensures small { All (Within 255) result }
{
    let mut values = [0; 16];
    for k in 0..16usize {
        values[k] = difference(wanted[k], predicted[k]);
    }
    values
}

// A prediction and a residue, cut off at 0 and at 255.
fn sum(predicted: u8, residue: i32) -> u8
    ensures { result ≡ clamped (pos predicted +ℤ residue) }
{
    // Residues beyond these lead to the same samples.
    (predicted as i32 + residue.clamp(-255, 255)).clamp(0, 255) as u8
}

fn sums(predicted: &[u8; 16], residues: &[i32; 16]) -> [u8; 16]
    ensures { result ≡ sums predicted.now residues.now }
{
    let mut samples = [0; 16];
    for (k, sample) in samples.iter_mut().enumerate() {
        *sample = sum(predicted[k], residues[k]);
    }
    samples
}

fn coefficients(factors: &Factors, wanted: &[u8; 16], predicted: &[u8; 16]) -> Block
    ensures value { result.0 ≡ sub_coefficients factors.now wanted.now predicted.now }
    ensures small { All (Within 2047) result.0 }
{
    let values = forward(&differences(wanted, predicted));
    quant(&values, factors.y_dc as i32, factors.y_ac as i32)
}

/// What a subblock is coded as.
#[derive(Clone, Copy)]
pub(crate) struct Sub {
    pub(crate) mode: SubMode,
    pub(crate) coefficients: Block,
    /// The samples that a decoder makes of it.
    pub(crate) samples: [u8; 16],
    pub(crate) cost: u32,
}

/// Subblock n of a macroblock, after those before it are built.
pub(crate) fn choose_sub(
    samples: &[u8; 256],
    edge: &LumaEdge,
    factors: &Factors,
    built: &[u8; 256],
    n: usize,
) -> Sub
    requires { n < 16 }
    ensures candidate { candidate result.mode result.cost ≡ best_sub (sub_square samples.now (4 * (n % 4)) (4 * (n / 4))) (sub_edge_of edge.now built.now (4 * (n % 4)) (4 * (n / 4))) }
    ensures coefficients { result.coefficients.0 ≡ sub_coefficients factors.now (sub_square samples.now (4 * (n % 4)) (4 * (n / 4))) (sub_predicted result.mode (sub_edge_of edge.now built.now (4 * (n % 4)) (4 * (n / 4)))) }
    ensures few { All (Within 2047) result.coefficients.0 }
    ensures samples { result.samples ≡ sub_rebuilt factors.now (sub_square samples.now (4 * (n % 4)) (4 * (n / 4))) (sub_predicted result.mode (sub_edge_of edge.now built.now (4 * (n % 4)) (4 * (n / 4)))) }
    ensures small { result.cost ≤ 4080 }
{
    let x = 4 * (n % 4);
    let y = 4 * (n / 4);
    let wanted = sub_square(samples, x, y);
    let around = sub_edge(edge, built, x, y);
    let best = best_sub(&wanted, &around);
    let coefficients = coefficients(factors, &wanted, &best.samples);
    let residues = block_residue(&coefficients, factors.y_dc, factors.y_ac);
    Sub {
        mode: best.mode,
        coefficients,
        samples: sums(&best.samples, &residues),
        cost: best.cost,
    }
}
