//! Reads the vectors of a macroblock in parts (RFC 6386, section 16.3).

ghost use Rattle.std.specs.Prelude.{◌≡◌, ◌<◌, ◌≤◌, length};
ghost use Rattle.sal_bool.specs.Syntax.{run};
ghost use Rattle.sal_macroblock.specs.Sizes.{Within};
ghost use Rattle.sal_macroblock.specs.Macroblocks.{zero_vector};
ghost use Rattle.sal_modes.specs.Around.{above_of, left_of};
ghost use Rattle.sal_modes.specs.Vectors.{same};
ghost use Rattle.sal_modes.specs.SplitVectors.{part_count, part_of, first_block, part_put, sub_context, sub_vector_of, sub_vector, split_vectors};

use crate::neighbours::Neighbours;
use crate::vectors::{ZERO, plus, read_vector};
use sal_base::Vector;
use sal_bool::Decoder;
use sal_tables::{split_probabilities, split_tree, sub_vector_probabilities, sub_vector_tree};

fn same(a: Vector, b: Vector) -> bool
    ensures { result ≡ same a b }
{
    a.row == b.row && a.column == b.column
}

// How many parts a partition has.
fn part_count(partition: u8) -> usize
    requires { partition < 4 }
    ensures value { result ≡ part_count partition }
    ensures few { result ≤ 16 }
{
    let counts = [2, 2, 4, 16];
    counts[partition as usize]
}

// Which part a block is in.
fn part_of(partition: u8, k: usize) -> usize
    requires { k < 16 }
    ensures { result ≡ part_of partition k }
{
    if partition == 0 {
        k / 8
    } else if partition == 1 {
        k % 4 / 2
    } else if partition == 2 {
        2 * (k / 8) + k % 4 / 2
    } else {
        k
    }
}

// The first block of a part.
fn first_block(partition: u8, part: usize) -> usize
    requires partition { partition < 4 }
    requires part { part < part_count partition }
    ensures value { result ≡ first_block partition part }
    ensures inside { result < 16 }
{
    if partition == 0 {
        8 * part
    } else if partition == 1 {
        2 * part
    } else if partition == 2 {
        8 * (part / 2) + 2 * (part % 2)
    } else {
        part
    }
}

// Gives all blocks of a part this vector.
fn put_part(partition: u8, part: usize, vector: Vector, vectors: &mut [Vector; 16])
    ensures { vectors.new ≡ part_put partition part vector vectors.old }
{
    for k in 0..16usize {
        if part_of(partition, k) == part {
            vectors[k] = vector;
        }
    }
}

// Which probabilities a part's mode has, by the vectors left and above.
fn sub_context(left: Vector, above: Vector) -> usize
    ensures value { result ≡ sub_context left above }
    ensures small { result < 5 }
{
    if same(left, above) {
        return if same(above, ZERO) { 4 } else { 3 };
    }
    if same(above, ZERO) {
        return 2;
    }
    if same(left, ZERO) { 1 } else { 0 }
}

// LEFT, ABOVE, ZERO, or NEW.
fn sub_vector_of(
    decoder: &mut Decoder<'_>,
    probabilities: &[u8],
    best: Vector,
    left: Vector,
    above: Vector,
    leaf: u8,
) -> Vector
    requires long { length probabilities.now ≡ 38 }
    requires row { Within 5120 best.row }
    requires column { Within 5120 best.column }
    ensures reads { run (sub_vector_of probabilities.now best left above leaf) decoder.old ≡ (result, decoder.new) }
{
    if leaf == 0 {
        left
    } else if leaf == 1 {
        above
    } else if leaf == 2 {
        ZERO
    } else {
        plus(best, read_vector(decoder, probabilities))
    }
}

// The vector of one part, by those left of and above its first block.
#[tactic(auto, unfolding(crate::specs::SplitVectors::sub_vector))]
fn read_sub_vector(
    decoder: &mut Decoder<'_>,
    probabilities: &[u8],
    best: Vector,
    left: Vector,
    above: Vector,
) -> Vector
    requires long { length probabilities.now ≡ 38 }
    requires row { Within 5120 best.row }
    requires column { Within 5120 best.column }
    ensures reads { run (sub_vector probabilities.now best left above) decoder.old ≡ (result, decoder.new) }
{
    let row = &sub_vector_probabilities()[sub_context(left, above)];
    let leaf = decoder.tree(sub_vector_tree(), row);
    sub_vector_of(decoder, probabilities, best, left, above, leaf)
}

// The vector left of a block.
fn left_of(around: &Neighbours<'_>, vectors: &[Vector; 16], k: usize) -> Vector
    requires { k < 16 }
    ensures { result ≡ left_of zero_vector around.now.left.vectors vectors.now k }
{
    if k % 4 == 0 {
        around.left.vectors[k + 3]
    } else {
        vectors[k - 1]
    }
}

// The vector above a block.
fn above_of(around: &Neighbours<'_>, vectors: &[Vector; 16], k: usize) -> Vector
    requires { k < 16 }
    ensures { result ≡ above_of zero_vector around.now.above.vectors vectors.now k }
{
    if k < 4 {
        around.above.vectors[k + 12]
    } else {
        vectors[k - 4]
    }
}

/// The vectors of the sixteen blocks of a macroblock in parts.
pub(crate) fn read_split(
    decoder: &mut Decoder<'_>,
    probabilities: &[u8],
    around: &Neighbours<'_>,
    best: Vector,
) -> [Vector; 16]
    requires long { length probabilities.now ≡ 38 }
    requires row { Within 5120 best.row }
    requires column { Within 5120 best.column }
    ensures reads { run (split_vectors probabilities.now around.now best) decoder.old ≡ (result, decoder.new) }
{
    let partition = decoder.tree(split_tree(), split_probabilities());
    let mut vectors = [ZERO; 16];
    for part in 0..part_count(partition) {
        let k = first_block(partition, part);
        let left = left_of(around, &vectors, k);
        let above = above_of(around, &vectors, k);
        let vector = read_sub_vector(decoder, probabilities, best, left, above);
        put_part(partition, part, vector, &mut vectors);
    }
    vectors
}
