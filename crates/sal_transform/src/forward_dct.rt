//! The forward transform of a block, rows first.

ghost use Rattle.std.specs.Prelude.{◌≡◌, ℕ, ℤ, pos, ◌+ℤ◌, ◌-ℤ◌, ◌*ℤ◌, ◌≤ℤ◌, ◌*◌, ◌+◌, ◌<◌, All, slice_index_or};
ghost use Rattle.sal_macroblock.specs.Sizes.{Within};
ghost use Rattle.sal_transform.specs.Forward.{part_4, part_12, part_16, turned, turned_back, row_0, row_1, row_2, row_3, column_0, column_1, column_2, column_3, across, forward_of};

#[tactic(auto, unfolding(crate::specs::Forward::part_4))]
fn part_4(x: i32) -> i32
    requires { Within 1073741824 x }
    ensures value { result ≡ part_4 x }
    ensures small { (n : ℕ) → Within (16 * n) x → Within n result }
{
    (x + 8) >> 4
}

#[tactic(auto, unfolding(crate::specs::Forward::part_12))]
fn part_12(x: i32) -> i32
    requires { Within 1073741824 x }
    ensures value { result ≡ part_12 x }
    ensures small { (n : ℕ) → Within (4096 * n) x → Within n result }
{
    (x + 2048) >> 12
}

#[tactic(auto, unfolding(crate::specs::Forward::part_16))]
fn part_16(x: i32) -> i32
    requires { Within 1073741824 x }
    ensures value { result ≡ part_16 x }
    ensures small { (n : ℕ) → Within (65536 * n) x → Within n result }
{
    (x + 32768) >> 16
}

// The inner differences c and the outer ones d, turned.
fn turned(c: i32, d: i32) -> i32
    requires c { Within 130560 c }
    requires d { Within 130560 d }
    ensures value { result ≡ turned c d }
    ensures small { Within 988208640 result }
    ensures smaller { Within 32640 c → Within 32640 d → Within 247052160 result }
{
    2217 * c + 5352 * d
}

fn turned_back(c: i32, d: i32) -> i32
    requires c { Within 130560 c }
    requires d { Within 130560 d }
    ensures value { result ≡ turned_back c d }
    ensures small { Within 988208640 result }
    ensures smaller { Within 32640 c → Within 32640 d → Within 247052160 result }
{
    2217 * d - 5352 * c
}

fn eightfold(x: i32) -> i32
    requires { Within 4080 x }
    ensures value { result ≡ pos 8 *ℤ x }
    ensures small { Within 32640 result }
{
    8 * x
}

// One row.
fn row_pass(x0: i32, x1: i32, x2: i32, x3: i32) -> (i32, i32, i32, i32)
    requires x0 { Within 2040 x0 }
    requires x1 { Within 2040 x1 }
    requires x2 { Within 2040 x2 }
    requires x3 { Within 2040 x3 }
    ensures y0 { (result.0 ≡ row_0 x0 x1 x2 x3) × Within 65280 result.0 }
    ensures y1 { (result.1 ≡ row_1 x0 x1 x2 x3) × Within 65280 result.1 }
    ensures y2 { (result.2 ≡ row_2 x0 x1 x2 x3) × Within 65280 result.2 }
    ensures y3 { (result.3 ≡ row_3 x0 x1 x2 x3) × Within 65280 result.3 }
    ensures first { Within 255 x0 → Within 255 x1 → Within 255 x2 → Within 255 x3 → Within 8160 result.0 }
{
    let a = eightfold(x0 + x3);
    let b = eightfold(x1 + x2);
    let c = eightfold(x1 - x2);
    let d = eightfold(x0 - x3);
    (
        a + b,
        part_12(turned(c, d)),
        a - b,
        part_12(turned_back(c, d)),
    )
}

// One column.
fn column_pass(x0: i32, x1: i32, x2: i32, x3: i32) -> (i32, i32, i32, i32)
    requires x0 { Within 65280 x0 }
    requires x1 { Within 65280 x1 }
    requires x2 { Within 65280 x2 }
    requires x3 { Within 65280 x3 }
    ensures y0 { (result.0 ≡ column_0 x0 x1 x2 x3) × Within 16320 result.0 }
    ensures y1 { (result.1 ≡ column_1 x0 x1 x2 x3) × Within 16320 result.1 }
    ensures y2 { (result.2 ≡ column_2 x0 x1 x2 x3) × Within 16320 result.2 }
    ensures y3 { (result.3 ≡ column_3 x0 x1 x2 x3) × Within 16320 result.3 }
    ensures first { Within 8160 x0 → Within 8160 x1 → Within 8160 x2 → Within 8160 x3 → Within 2040 result.0 }
{
    let a = x0 + x3;
    let b = x1 + x2;
    let c = x1 - x2;
    let d = x0 - x3;
    (
        part_4(a + b),
        part_16(turned(c, d)),
        part_4(a - b),
        part_16(turned_back(c, d)),
    )
}

// Row r of the first pass.
fn row(block: &[i32; 16], r: usize) -> (i32, i32, i32, i32)
    requires small { All (Within 2040) block.now }
    requires row { r < 4 }
    ensures y0 { (result.0 ≡ across row_0 block.now r) × Within 65280 result.0 }
    ensures y1 { (result.1 ≡ across row_1 block.now r) × Within 65280 result.1 }
    ensures y2 { (result.2 ≡ across row_2 block.now r) × Within 65280 result.2 }
    ensures y3 { (result.3 ≡ across row_3 block.now r) × Within 65280 result.3 }
    ensures first { All (Within 255) block.now → Within 8160 result.0 }
{
    let at = 4 * r;
    row_pass(block[at], block[at + 1], block[at + 2], block[at + 3])
}

/// The forward transform of a block in raster order: rows, then columns. The first value of a block of differences of samples is small
/// enough for `forward_y2`.
pub fn forward(block: &[i32; 16]) -> [i32; 16]
    requires { All (Within 2040) block.now }
    ensures value { result ≡ forward_of block.now }
    ensures small { All (Within 16320) result }
    ensures first { All (Within 255) block.now → Within 2040 (slice_index_or result 0 (pos 0)) }
{
    let (a0, a1, a2, a3) = row(block, 0);
    let (b0, b1, b2, b3) = row(block, 1);
    let (c0, c1, c2, c3) = row(block, 2);
    let (d0, d1, d2, d3) = row(block, 3);
    let (p0, p1, p2, p3) = column_pass(a0, b0, c0, d0);
    let (q0, q1, q2, q3) = column_pass(a1, b1, c1, d1);
    let (r0, r1, r2, r3) = column_pass(a2, b2, c2, d2);
    let (s0, s1, s2, s3) = column_pass(a3, b3, c3, d3);
    [
        p0, q0, r0, s0, p1, q1, r1, s1, p2, q2, r2, s2, p3, q3, r3, s3,
    ]
}
