//! The inverse transform of a block (RFC 6386, section 14.3).

ghost use Rattle.std.specs.Prelude.{◌≡◌, ℤ, pos, negsuc, ◌+ℤ◌, ◌-ℤ◌, ◌*ℤ◌, ◌≤ℤ◌, ◌*◌, ◌<◌, All};
ghost use Rattle.sal_macroblock.specs.Sizes.{Within};
ghost use Rattle.sal_transform.specs.Inverse.{scaled, c_of, d_of, out_0, out_1, out_2, out_3, down, rounded, inverse_of};

#[tactic(auto, unfolding(crate::specs::Inverse::scaled))]
fn by_35468(x: i32) -> i32
    requires { Within 16777216 x }
    ensures value { result ≡ scaled 35468 x }
    ensures small { Within 16777216 result }
    ensures smaller { Within 2097152 x → Within 2097152 result }
{
    ((x as i64 * 35468) >> 16) as i32
}

#[tactic(auto, unfolding(crate::specs::Inverse::scaled))]
fn by_20091(x: i32) -> i32
    requires { Within 16777216 x }
    ensures value { result ≡ scaled 20091 x }
    ensures small { Within 16777216 result }
    ensures smaller { Within 2097152 x → Within 2097152 result }
{
    ((x as i64 * 20091) >> 16) as i32
}

fn c(x1: i32, x3: i32) -> i32
    requires x1 { Within 16777216 x1 }
    requires x3 { Within 16777216 x3 }
    ensures value { result ≡ c_of x1 x3 }
    ensures small { Within (3 * 16777216) result }
    ensures smaller { Within 2097152 x1 → Within 2097152 x3 → Within (3 * 2097152) result }
{
    by_35468(x1) - x3 - by_20091(x3)
}

fn d(x1: i32, x3: i32) -> i32
    requires x1 { Within 16777216 x1 }
    requires x3 { Within 16777216 x3 }
    ensures value { result ≡ d_of x1 x3 }
    ensures small { Within (3 * 16777216) result }
    ensures smaller { Within 2097152 x1 → Within 2097152 x3 → Within (3 * 2097152) result }
{
    x1 + by_20091(x1) + by_35468(x3)
}

// One column.
fn first_pass(x0: i32, x1: i32, x2: i32, x3: i32) -> (i32, i32, i32, i32)
    requires x0 { Within 2097152 x0 }
    requires x1 { Within 2097152 x1 }
    requires x2 { Within 2097152 x2 }
    requires x3 { Within 2097152 x3 }
    ensures y0 { (result.0 ≡ out_0 x0 x1 x2 x3) × Within 16777216 result.0 }
    ensures y1 { (result.1 ≡ out_1 x0 x1 x2 x3) × Within 16777216 result.1 }
    ensures y2 { (result.2 ≡ out_2 x0 x1 x2 x3) × Within 16777216 result.2 }
    ensures y3 { (result.3 ≡ out_3 x0 x1 x2 x3) × Within 16777216 result.3 }
{
    let a = x0 + x2;
    let b = x0 - x2;
    let c = c(x1, x3);
    let d = d(x1, x3);
    (a + d, b + c, b - c, a - d)
}

#[tactic(auto, unfolding(crate::specs::Inverse::rounded))]
fn round3(x: i32) -> i32
    requires { Within 134217728 x }
    ensures value { result ≡ rounded x }
    ensures small { Within 134217728 result }
{
    (x + 4) >> 3
}

// One row, rounded.
fn second_pass(x0: i32, x1: i32, x2: i32, x3: i32) -> (i32, i32, i32, i32)
    requires x0 { Within 16777216 x0 }
    requires x1 { Within 16777216 x1 }
    requires x2 { Within 16777216 x2 }
    requires x3 { Within 16777216 x3 }
    ensures y0 { (result.0 ≡ rounded (out_0 x0 x1 x2 x3)) × Within 134217728 result.0 }
    ensures y1 { (result.1 ≡ rounded (out_1 x0 x1 x2 x3)) × Within 134217728 result.1 }
    ensures y2 { (result.2 ≡ rounded (out_2 x0 x1 x2 x3)) × Within 134217728 result.2 }
    ensures y3 { (result.3 ≡ rounded (out_3 x0 x1 x2 x3)) × Within 134217728 result.3 }
{
    let a = x0 + x2;
    let b = x0 - x2;
    let c = c(x1, x3);
    let d = d(x1, x3);
    (round3(a + d), round3(b + c), round3(b - c), round3(a - d))
}

// Column c of the first pass.
fn column(block: &[i32; 16], c: usize) -> (i32, i32, i32, i32)
    requires small { All (Within 2097152) block.now }
    requires column { c < 4 }
    ensures y0 { (result.0 ≡ down out_0 block.now c) × Within 16777216 result.0 }
    ensures y1 { (result.1 ≡ down out_1 block.now c) × Within 16777216 result.1 }
    ensures y2 { (result.2 ≡ down out_2 block.now c) × Within 16777216 result.2 }
    ensures y3 { (result.3 ≡ down out_3 block.now c) × Within 16777216 result.3 }
{
    first_pass(block[c], block[c + 4], block[c + 8], block[c + 12])
}

/// The inverse transform of a block in raster order: columns, then rows, each result an eighth, rounded (RFC 6386, section
/// 14.3).
pub fn inverse(block: &[i32; 16]) -> [i32; 16]
    requires { All (Within 2097152) block.now }
    ensures { result ≡ inverse_of block.now }
{
    let (a0, a1, a2, a3) = column(block, 0);
    let (b0, b1, b2, b3) = column(block, 1);
    let (c0, c1, c2, c3) = column(block, 2);
    let (d0, d1, d2, d3) = column(block, 3);
    let (p0, p1, p2, p3) = second_pass(a0, b0, c0, d0);
    let (q0, q1, q2, q3) = second_pass(a1, b1, c1, d1);
    let (r0, r1, r2, r3) = second_pass(a2, b2, c2, d2);
    let (s0, s1, s2, s3) = second_pass(a3, b3, c3, d3);
    [
        p0, p1, p2, p3, q0, q1, q2, q3, r0, r1, r2, r3, s0, s1, s2, s3,
    ]
}
