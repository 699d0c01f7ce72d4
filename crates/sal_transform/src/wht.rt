//! The inverse Walsh-Hadamard transform (RFC 6386, section 14.3).

ghost use Rattle.std.specs.Prelude.{◌≡◌, ℤ, pos, ◌+ℤ◌, ◌-ℤ◌, ◌≤ℤ◌, ◌<◌, All};
ghost use Rattle.sal_macroblock.specs.Sizes.{Within};
ghost use Rattle.sal_transform.specs.Inverse.{down};
ghost use Rattle.sal_transform.specs.Hadamard.{sum_0, sum_1, sum_2, sum_3, eighth, inverse_y2_of};

// One column.
fn first_pass(x0: i32, x1: i32, x2: i32, x3: i32) -> (i32, i32, i32, i32)
    requires x0 { Within 1048576 x0 }
    requires x1 { Within 1048576 x1 }
    requires x2 { Within 1048576 x2 }
    requires x3 { Within 1048576 x3 }
    ensures y0 { (result.0 ≡ sum_0 x0 x1 x2 x3) × Within 4194304 result.0 }
    ensures y1 { (result.1 ≡ sum_1 x0 x1 x2 x3) × Within 4194304 result.1 }
    ensures y2 { (result.2 ≡ sum_2 x0 x1 x2 x3) × Within 4194304 result.2 }
    ensures y3 { (result.3 ≡ sum_3 x0 x1 x2 x3) × Within 4194304 result.3 }
{
    let a = x0 + x3;
    let b = x1 + x2;
    let c = x1 - x2;
    let d = x0 - x3;
    (a + b, c + d, a - b, d - c)
}

#[tactic(auto, unfolding(crate::specs::Hadamard::eighth))]
fn eighth(x: i32) -> i32
    requires { Within 16777216 x }
    ensures value { result ≡ eighth x }
    ensures small { Within 2097152 result }
{
    (x + 3) >> 3
}

// One row, rounded.
fn second_pass(x0: i32, x1: i32, x2: i32, x3: i32) -> (i32, i32, i32, i32)
    requires x0 { Within 4194304 x0 }
    requires x1 { Within 4194304 x1 }
    requires x2 { Within 4194304 x2 }
    requires x3 { Within 4194304 x3 }
    ensures y0 { (result.0 ≡ eighth (sum_0 x0 x1 x2 x3)) × Within 2097152 result.0 }
    ensures y1 { (result.1 ≡ eighth (sum_1 x0 x1 x2 x3)) × Within 2097152 result.1 }
    ensures y2 { (result.2 ≡ eighth (sum_2 x0 x1 x2 x3)) × Within 2097152 result.2 }
    ensures y3 { (result.3 ≡ eighth (sum_3 x0 x1 x2 x3)) × Within 2097152 result.3 }
{
    let a = x0 + x3;
    let b = x1 + x2;
    let c = x1 - x2;
    let d = x0 - x3;
    (eighth(a + b), eighth(c + d), eighth(a - b), eighth(d - c))
}

// Column c of the first pass.
fn column(block: &[i32; 16], c: usize) -> (i32, i32, i32, i32)
    requires small { All (Within 1048576) block.now }
    requires column { c < 4 }
    ensures y0 { (result.0 ≡ down sum_0 block.now c) × Within 4194304 result.0 }
    ensures y1 { (result.1 ≡ down sum_1 block.now c) × Within 4194304 result.1 }
    ensures y2 { (result.2 ≡ down sum_2 block.now c) × Within 4194304 result.2 }
    ensures y3 { (result.3 ≡ down sum_3 block.now c) × Within 4194304 result.3 }
{
    first_pass(block[c], block[c + 4], block[c + 8], block[c + 12])
}

/// The inverse Walsh-Hadamard transform of a macroblock's Y2 block in raster order: columns, then rows, each result an
/// eighth, rounded. Its results are the first values of the sixteen luma blocks (RFC 6386, section 14.3).
pub fn inverse_y2(block: &[i32; 16]) -> [i32; 16]
    requires { All (Within 1048576) block.now }
    ensures value { result ≡ inverse_y2_of block.now }
    ensures small { All (Within 2097152) result }
{
    let (a0, a1, a2, a3) = column(block, 0);
    let (b0, b1, b2, b3) = column(block, 1);
    let (c0, c1, c2, c3) = column(block, 2);
    let (d0, d1, d2, d3) = column(block, 3);
    let (p0, p1, p2, p3) = second_pass(a0, b0, c0, d0);
    let (q0, q1, q2, q3) = second_pass(a1, b1, c1, d1);
    let (r0, r1, r2, r3) = second_pass(a2, b2, c2, d2);
    let (s0, s1, s2, s3) = second_pass(a3, b3, c3, d3);
    [
        p0, p1, p2, p3, q0, q1, q2, q3, r0, r1, r2, r3, s0, s1, s2, s3,
    ]
}
