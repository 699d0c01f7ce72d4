//! The forward Walsh-Hadamard transform, columns first.

ghost use Rattle.std.specs.Prelude.{◌≡◌, ℕ, ℤ, pos, ◌+ℤ◌, ◌-ℤ◌, ◌≤ℤ◌, ◌*◌, ◌+◌, ◌<◌, All};
ghost use Rattle.sal_macroblock.specs.Sizes.{Within};
ghost use Rattle.sal_transform.specs.Inverse.{down};
ghost use Rattle.sal_transform.specs.Hadamard.{sum_0, sum_1, sum_2, sum_3};
ghost use Rattle.sal_transform.specs.Forward.{half, forward_y2_of};

#[tactic(auto, unfolding(crate::specs::Forward::half))]
fn half(x: i32) -> i32
    requires { Within 32640 x }
    ensures value { result ≡ half x }
    ensures small { Within 16320 result }
{
    (x + 1) >> 1
}

// One column.
fn sums(x0: i32, x1: i32, x2: i32, x3: i32) -> (i32, i32, i32, i32)
    requires x0 { Within 2040 x0 }
    requires x1 { Within 2040 x1 }
    requires x2 { Within 2040 x2 }
    requires x3 { Within 2040 x3 }
    ensures y0 { (result.0 ≡ sum_0 x0 x1 x2 x3) × Within 8160 result.0 }
    ensures y1 { (result.1 ≡ sum_1 x0 x1 x2 x3) × Within 8160 result.1 }
    ensures y2 { (result.2 ≡ sum_2 x0 x1 x2 x3) × Within 8160 result.2 }
    ensures y3 { (result.3 ≡ sum_3 x0 x1 x2 x3) × Within 8160 result.3 }
{
    let a = x0 + x3;
    let b = x1 + x2;
    let c = x1 - x2;
    let d = x0 - x3;
    (a + b, c + d, a - b, d - c)
}

// One row, halved.
fn half_row(x0: i32, x1: i32, x2: i32, x3: i32) -> (i32, i32, i32, i32)
    requires x0 { Within 8160 x0 }
    requires x1 { Within 8160 x1 }
    requires x2 { Within 8160 x2 }
    requires x3 { Within 8160 x3 }
    ensures y0 { (result.0 ≡ half (sum_0 x0 x1 x2 x3)) × Within 16320 result.0 }
    ensures y1 { (result.1 ≡ half (sum_1 x0 x1 x2 x3)) × Within 16320 result.1 }
    ensures y2 { (result.2 ≡ half (sum_2 x0 x1 x2 x3)) × Within 16320 result.2 }
    ensures y3 { (result.3 ≡ half (sum_3 x0 x1 x2 x3)) × Within 16320 result.3 }
{
    let a = x0 + x3;
    let b = x1 + x2;
    let c = x1 - x2;
    let d = x0 - x3;
    (half(a + b), half(c + d), half(a - b), half(d - c))
}

// The sums of column c.
fn column(block: &[i32; 16], c: usize) -> (i32, i32, i32, i32)
    requires small { All (Within 2040) block.now }
    requires column { c < 4 }
    ensures y0 { (result.0 ≡ down sum_0 block.now c) × Within 8160 result.0 }
    ensures y1 { (result.1 ≡ down sum_1 block.now c) × Within 8160 result.1 }
    ensures y2 { (result.2 ≡ down sum_2 block.now c) × Within 8160 result.2 }
    ensures y3 { (result.3 ≡ down sum_3 block.now c) × Within 8160 result.3 }
{
    sums(block[c], block[c + 4], block[c + 8], block[c + 12])
}

/// The forward Walsh-Hadamard transform of the first values of a macroblock's sixteen luma blocks in raster order: columns, then rows,
/// each result a half, rounded up.
pub fn forward_y2(block: &[i32; 16]) -> [i32; 16]
    requires { All (Within 2040) block.now }
    ensures value { result ≡ forward_y2_of block.now }
    ensures small { All (Within 16320) result }
{
    let (a0, a1, a2, a3) = column(block, 0);
    let (b0, b1, b2, b3) = column(block, 1);
    let (c0, c1, c2, c3) = column(block, 2);
    let (d0, d1, d2, d3) = column(block, 3);
    let (p0, p1, p2, p3) = half_row(a0, b0, c0, d0);
    let (q0, q1, q2, q3) = half_row(a1, b1, c1, d1);
    let (r0, r1, r2, r3) = half_row(a2, b2, c2, d2);
    let (s0, s1, s2, s3) = half_row(a3, b3, c3, d3);
    [
        p0, p1, p2, p3, q0, q1, q2, q3, r0, r1, r2, r3, s0, s1, s2, s3,
    ]
}
