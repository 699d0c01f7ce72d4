//! Subblocks of 4 by 4 samples (RFC 6386, section 12.3).

ghost use Rattle.std.specs.Prelude.{◌≡◌, ◌+◌, ◌<◌, ◌≤◌, IsTrue, length};
ghost use Rattle.sal_base.specs.Samples.{IsBlockOf};
ghost use Rattle.sal_intra.specs.Intra.{true_motion};
ghost use Rattle.sal_intra.specs.Sub.{average_of_two, average_of_three, sample_above, sample_left, edge_sample, averages_of_two, averages_of_three, edge_average_of_three, edge_average_of_two, sub_average, is_by_formula, right_rows, left_rows, down_rows, up_rows, sub_sample};

use crate::edge::SubEdge;
use crate::whole::{total, true_motion};
use sal_base::SubMode;

// The mean of two samples, rounded up.
fn average_of_two(x: u8, y: u8) -> u8
    ensures { result ≡ average_of_two x y }
{
    ((x as u16 + y as u16 + 1) / 2) as u8
}

// The mean of three samples of which the middle one counts twice.
fn average_of_three(x: u8, y: u8, z: u8) -> u8
    ensures { result ≡ average_of_three x y z }
{
    ((x as u16 + 2 * y as u16 + z as u16 + 2) / 4) as u8
}

fn sample_above(edge: &SubEdge, i: usize) -> u8
    ensures { result ≡ sample_above edge.now i }
{
    edge.above[i.min(7)]
}

fn sample_left(edge: &SubEdge, i: usize) -> u8
    ensures { result ≡ sample_left edge.now i }
{
    edge.left[i.min(3)]
}

// From the lowest sample left up to the corner, then to the right.
fn edge_sample(edge: &SubEdge, i: usize) -> u8
    ensures { result ≡ edge_sample edge.now i }
{
    if i < 4 {
        sample_left(edge, 3 - i)
    } else if i == 4 {
        edge.corner
    } else {
        sample_above(edge, i - 5)
    }
}

fn edge_average_of_three(edge: &SubEdge, i: usize) -> u8
    requires { (1 ≤ i) × (i ≤ 12) }
    ensures { result ≡ edge_average_of_three edge.now i }
{
    average_of_three(
        edge_sample(edge, i - 1),
        edge_sample(edge, i),
        edge_sample(edge, i + 1),
    )
}

fn edge_average_of_two(edge: &SubEdge, i: usize) -> u8
    requires { i ≤ 12 }
    ensures { result ≡ edge_average_of_two edge.now i }
{
    average_of_two(edge_sample(edge, i), edge_sample(edge, i + 1))
}

fn above_average_of_two(edge: &SubEdge, i: usize) -> u8
    requires { i ≤ 12 }
    ensures { result ≡ averages_of_two (sample_above edge.now) i }
{
    average_of_two(sample_above(edge, i), sample_above(edge, i + 1))
}

fn above_average_of_three(edge: &SubEdge, i: usize) -> u8
    requires { i ≤ 12 }
    ensures { result ≡ averages_of_three (sample_above edge.now) i }
{
    average_of_three(
        sample_above(edge, i),
        sample_above(edge, i + 1),
        sample_above(edge, i + 2),
    )
}

fn left_average_of_two(edge: &SubEdge, i: usize) -> u8
    requires { i ≤ 12 }
    ensures { result ≡ averages_of_two (sample_left edge.now) i }
{
    average_of_two(sample_left(edge, i), sample_left(edge, i + 1))
}

fn left_average_of_three(edge: &SubEdge, i: usize) -> u8
    requires { i ≤ 12 }
    ensures { result ≡ averages_of_three (sample_left edge.now) i }
{
    average_of_three(
        sample_left(edge, i),
        sample_left(edge, i + 1),
        sample_left(edge, i + 2),
    )
}

fn right_rows(edge: &SubEdge) -> [u8; 16]
    ensures { result ≡ right_rows edge.now }
{
    let d4 = edge_average_of_two(edge, 4);
    let d5 = edge_average_of_two(edge, 5);
    let d6 = edge_average_of_two(edge, 6);
    let d7 = edge_average_of_two(edge, 7);
    let e4 = edge_average_of_three(edge, 4);
    let e5 = edge_average_of_three(edge, 5);
    let e6 = edge_average_of_three(edge, 6);
    let e7 = edge_average_of_three(edge, 7);
    let e3 = edge_average_of_three(edge, 3);
    let e2 = edge_average_of_three(edge, 2);
    [
        d4, d5, d6, d7, e4, e5, e6, e7, e3, d4, d5, d6, e2, e4, e5, e6,
    ]
}

fn left_rows(edge: &SubEdge) -> [u8; 16]
    ensures { result ≡ left_rows edge.now }
{
    let a0 = above_average_of_two(edge, 0);
    let a1 = above_average_of_two(edge, 1);
    let a2 = above_average_of_two(edge, 2);
    let a3 = above_average_of_two(edge, 3);
    let b0 = above_average_of_three(edge, 0);
    let b1 = above_average_of_three(edge, 1);
    let b2 = above_average_of_three(edge, 2);
    let b3 = above_average_of_three(edge, 3);
    let b4 = above_average_of_three(edge, 4);
    let b5 = above_average_of_three(edge, 5);
    [
        a0, a1, a2, a3, b0, b1, b2, b3, a1, a2, a3, b4, b1, b2, b3, b5,
    ]
}

fn down_rows(edge: &SubEdge) -> [u8; 16]
    ensures { result ≡ down_rows edge.now }
{
    let d3 = edge_average_of_two(edge, 3);
    let e4 = edge_average_of_three(edge, 4);
    let e5 = edge_average_of_three(edge, 5);
    let e6 = edge_average_of_three(edge, 6);
    let d2 = edge_average_of_two(edge, 2);
    let e3 = edge_average_of_three(edge, 3);
    let d1 = edge_average_of_two(edge, 1);
    let e2 = edge_average_of_three(edge, 2);
    let d0 = edge_average_of_two(edge, 0);
    let e1 = edge_average_of_three(edge, 1);
    [
        d3, e4, e5, e6, d2, e3, d3, e4, d1, e2, d2, e3, d0, e1, d1, e2,
    ]
}

fn up_rows(edge: &SubEdge) -> [u8; 16]
    ensures { result ≡ up_rows edge.now }
{
    let u0 = left_average_of_two(edge, 0);
    let w0 = left_average_of_three(edge, 0);
    let u1 = left_average_of_two(edge, 1);
    let w1 = left_average_of_three(edge, 1);
    let u2 = left_average_of_two(edge, 2);
    let w2 = left_average_of_three(edge, 2);
    let l3 = sample_left(edge, 3);
    [
        u0, w0, u1, w1, u1, w1, u2, w2, u2, w2, l3, l3, l3, l3, l3, l3,
    ]
}

fn sub_average(edge: &SubEdge) -> u8
    ensures { result ≡ sub_average edge.now }
{
    ((total(&edge.above[..4]) + total(&edge.left) + 4) / 8) as u8
}

// A sample of a mode that is one formula of row and column.
#[tactic(auto, unfolding(crate::specs::Sub::sub_sample))]
fn sample(mode: SubMode, edge: &SubEdge, average: u8, row: usize, column: usize) -> u8
    requires formula { IsTrue (is_by_formula mode) }
    requires average { average ≡ sub_average edge.now }
    requires row { row < 4 }
    requires column { column < 4 }
    ensures { result ≡ sub_sample mode edge.now row column }
{
    match mode {
        SubMode::BTM => true_motion(
            sample_left(edge, row),
            sample_above(edge, column),
            edge.corner,
        ),
        SubMode::BVE => edge_average_of_three(edge, 5 + column),
        SubMode::BHE => average_of_three(
            edge_sample(edge, 4 - row),
            sample_left(edge, row),
            sample_left(edge, row + 1),
        ),
        SubMode::BLD => above_average_of_three(edge, row + column),
        SubMode::BRD => edge_average_of_three(edge, 4 - row + column),
        _ => average,
    }
}

fn by_formula(mode: SubMode, edge: &SubEdge) -> [u8; 16]
    requires formula { IsTrue (is_by_formula mode) }
    ensures { IsBlockOf 4 16 result (sub_sample mode edge.now) }
{
    let average = sub_average(edge);
    let mut out = [0u8; 16];
    for (k, x) in out.iter_mut().enumerate() {
        *x = sample(mode, edge, average, k / 4, k % 4);
    }
    out
}

/// The samples of a subblock, row by row.
pub fn predict_sub(mode: SubMode, edge: &SubEdge) -> [u8; 16]
    ensures { IsBlockOf 4 16 result (sub_sample mode edge.now) }
{
    match mode {
        SubMode::BVR => right_rows(edge),
        SubMode::BVL => left_rows(edge),
        SubMode::BHD => down_rows(edge),
        SubMode::BHU => up_rows(edge),
        _ => by_formula(mode, edge),
    }
}
