//! Inter macroblocks: predicted from a reference by their vectors, with their residues added (RFC 6386, sections 14.5 and 18).

ghost use Rattle.std.specs.Prelude.{◌≡◌, ◌≤◌, ◌<◌, ◌+◌, ◌*◌, ◌/◌, ◌%◌, ◌+ℤ◌, ◌≤ℤ◌, ℕ, pos, neg_ℤ, true, false, IsTrue, slice_index};
ghost use Rattle.sal_base.specs.Samples.{IsBlockOf};
ghost use Rattle.sal_macroblock.specs.Macroblocks.{vector_at};
ghost use Rattle.sal_inter.specs.Inter.{HasSamples, inter_sample, quarter, mean_vector};
ghost use Rattle.sal_frame.specs.Built.{added, luma_vector, chroma_vector, quarter_vector};
ghost use Rattle.sal_frame.specs.Residues.{luma_residues, chroma_residues, residue_at};

use crate::macroblock::Macroblock;
use crate::residues::{finish_chroma, finish_luma};
use crate::square::put_rows;
use sal_base::{Plane, Vector, YMode};
use sal_inter::predict_block;
use sal_macroblock::MbMode;
use sal_transform::Factors;

// Whether all sixteen vectors are the same.
fn are_one(vectors: &[Vector; 16]) -> bool
    ensures { IsTrue result → (k : ℕ) → k < 16 → vector_at vectors.now k ≡ vector_at vectors.now 0 }
{
    let first = vectors[0];
    for k in 1..16usize {
        if vectors[k].row != first.row || vectors[k].column != first.column {
            return false;
        }
    }
    true
}

fn pair(a: i16, b: i16) -> i32
    ensures value { result ≡ a +ℤ b }
    ensures low { neg_ℤ (pos 65536) ≤ℤ result }
    ensures high { result ≤ℤ pos 65534 }
{
    a as i32 + b as i32
}

// The mean of four components, rounded half away from 0.
fn mean(a: i16, b: i16, c: i16, d: i16) -> i16
    ensures { result ≡ quarter (((a +ℤ b) +ℤ c) +ℤ d) }
{
    quarter(pair(a, b) + pair(c, d))
}

// A quarter, rounded half away from 0.
fn quarter(sum: i32) -> i16
    requires low { neg_ℤ (pos 131072) ≤ℤ sum }
    requires high { sum ≤ℤ pos 131068 }
    ensures { result ≡ quarter sum }
{
    if sum >= 0 {
        ((sum + 2) / 4) as i16
    } else {
        -((2 - sum) / 4) as i16
    }
}

// The vector of a chroma block out of those of its four luma blocks.
fn mean_vector(a: Vector, b: Vector, c: Vector, d: Vector) -> Vector
    ensures { result ≡ mean_vector a b c d }
{
    Vector {
        row: mean(a.row, b.row, c.row, d.row),
        column: mean(a.column, b.column, c.column, d.column),
    }
}

// The first samples of a buffer.
fn first_16(samples: &[u8; 256]) -> [u8; 16]
    ensures { (k : ℕ) → k < 16 → slice_index result k ≡ slice_index samples.now k }
{
    let mut first = [0; 16];
    for (k, sample) in first.iter_mut().enumerate() {
        *sample = samples[k];
    }
    first
}

fn first_64(samples: &[u8; 256]) -> [u8; 64]
    ensures { (k : ℕ) → k < 64 → slice_index result k ≡ slice_index samples.now k }
{
    let mut first = [0; 64];
    for (k, sample) in first.iter_mut().enumerate() {
        *sample = samples[k];
    }
    first
}

// A block of 4 by 4 samples.
fn part(reference: &Plane, vector: Vector, eighths: bool, x: usize, y: usize) -> [u8; 16]
    requires reference { HasSamples reference.now }
    requires x { x < 2097152 }
    requires y { y < 2097152 }
    ensures { IsBlockOf 4 16 result (λ row column. inter_sample reference.now vector eighths (pos (x + column)) (pos (y + row))) }
{
    let mut samples = [0; 256];
    predict_block(
        reference,
        vector,
        eighths,
        x as i32,
        y as i32,
        4,
        4,
        &mut samples,
    );
    first_16(&samples)
}

// All luma samples by one vector.
fn luma_by_one(reference: &Plane, vector: Vector, x: usize, y: usize) -> [u8; 256]
    requires reference { HasSamples reference.now }
    requires x { x < 1048576 }
    requires y { y < 1048576 }
    ensures { IsBlockOf 16 256 result (λ row column. inter_sample reference.now vector false (pos (x + column)) (pos (y + row))) }
{
    let mut samples = [0; 256];
    predict_block(
        reference,
        vector,
        false,
        x as i32,
        y as i32,
        16,
        16,
        &mut samples,
    );
    samples
}

// Luma samples with a vector for each block of 4 by 4.
fn luma_by_parts(reference: &Plane, vectors: &[Vector; 16], x: usize, y: usize) -> [u8; 256]
    requires reference { HasSamples reference.now }
    requires x { x < 1048576 }
    requires y { y < 1048576 }
    ensures { IsBlockOf 16 256 result (λ row column. inter_sample reference.now (vector_at vectors.now (4 * (row / 4) + column / 4)) false (pos (x + column)) (pos (y + row))) }
{
    let mut samples = [0; 256];
    for n in 0..16usize {
        let part = part(
            reference,
            vectors[n],
            false,
            x + 4 * (n % 4),
            y + 4 * (n / 4),
        );
        put_rows(&mut samples, 16, 4 * (n % 4), 4 * (n / 4), 4, &part);
    }
    samples
}

fn luma_predicted(reference: &Plane, vectors: &[Vector; 16], x: usize, y: usize) -> [u8; 256]
    requires reference { HasSamples reference.now }
    requires x { x < 1048576 }
    requires y { y < 1048576 }
    ensures { IsBlockOf 16 256 result (λ row column. inter_sample reference.now (vector_at vectors.now (4 * (row / 4) + column / 4)) false (pos (x + column)) (pos (y + row))) }
{
    if are_one(vectors) {
        luma_by_one(reference, vectors[0], x, y)
    } else {
        luma_by_parts(reference, vectors, x, y)
    }
}

// All samples of a macroblock in a chroma plane by one vector.
fn chroma_by_one(reference: &Plane, vector: Vector, x: usize, y: usize) -> [u8; 64]
    requires reference { HasSamples reference.now }
    requires x { x < 1048576 }
    requires y { y < 1048576 }
    ensures { IsBlockOf 8 64 result (λ row column. inter_sample reference.now vector true (pos (x + column)) (pos (y + row))) }
{
    let mut samples = [0; 256];
    predict_block(
        reference,
        vector,
        true,
        x as i32,
        y as i32,
        8,
        8,
        &mut samples,
    );
    first_64(&samples)
}

// The samples of a macroblock in a chroma plane, with a vector for each block of 4 by 4.
fn chroma_by_parts(reference: &Plane, vectors: &[Vector; 16], x: usize, y: usize) -> [u8; 64]
    requires reference { HasSamples reference.now }
    requires x { x < 1048576 }
    requires y { y < 1048576 }
    ensures { IsBlockOf 8 64 result (λ row column. inter_sample reference.now (quarter_vector vectors.now (8 * (row / 4) + 2 * (column / 4))) true (pos (x + column)) (pos (y + row))) }
{
    let mut samples = [0; 64];
    for n in 0..4usize {
        let first = 8 * (n / 2) + 2 * (n % 2);
        let vector = mean_vector(
            vectors[first],
            vectors[first + 1],
            vectors[first + 4],
            vectors[first + 5],
        );
        let part = part(reference, vector, true, x + 4 * (n % 2), y + 4 * (n / 2));
        put_rows(&mut samples, 8, 4 * (n % 2), 4 * (n / 2), 4, &part);
    }
    samples
}

fn chroma_predicted(reference: &Plane, mode: &MbMode, x: usize, y: usize) -> [u8; 64]
    requires reference { HasSamples reference.now }
    requires x { x < 1048576 }
    requires y { y < 1048576 }
    ensures { IsBlockOf 8 64 result (λ row column. inter_sample reference.now (chroma_vector mode.now row column) true (pos (x + column)) (pos (y + row))) }
{
    match mode.y {
        YMode::SPLIT => chroma_by_parts(reference, &mode.vectors, x, y),
        _ => chroma_by_one(reference, mode.vector(), x, y),
    }
}

/// The luma samples of an inter macroblock at column x, row y.
pub(crate) fn inter_luma(
    reference: &Plane,
    block: &Macroblock<'_>,
    factors: &Factors,
    x: usize,
    y: usize,
) -> [u8; 256]
    requires reference { HasSamples reference.now }
    requires x { x < 1048576 }
    requires y { y < 1048576 }
    ensures { result ≡ added 16 256 (λ row column. inter_sample reference.now (luma_vector block.now.mode row column) false (pos (x + column)) (pos (y + row))) (residue_at 4 (luma_residues factors.now block.now)) }
{
    let mut samples = luma_predicted(reference, &block.mode.vectors, x, y);
    finish_luma(&mut samples, block, factors);
    samples
}

/// The samples of an inter macroblock at column x, row y of a chroma plane, whose blocks are those from the first on.
pub(crate) fn inter_chroma(
    reference: &Plane,
    block: &Macroblock<'_>,
    first: usize,
    factors: &Factors,
    x: usize,
    y: usize,
) -> [u8; 64]
    requires reference { HasSamples reference.now }
    requires first { first ≤ 20 }
    requires x { x < 1048576 }
    requires y { y < 1048576 }
    ensures { result ≡ added 8 64 (λ row column. inter_sample reference.now (chroma_vector block.now.mode row column) true (pos (x + column)) (pos (y + row))) (residue_at 2 (chroma_residues factors.now block.now first)) }
{
    let mut samples = chroma_predicted(reference, block.mode, x, y);
    finish_chroma(&mut samples, block, first, factors);
    samples
}
