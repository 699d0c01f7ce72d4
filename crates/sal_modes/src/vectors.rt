//! Reads vectors (RFC 6386, section 17).

ghost use Rattle.std.specs.Prelude.{◌≡◌, ◌+◌, ◌*◌, ◌^◌, ◌≤◌, ◌==◌, All, not, false, length, slice_range, if◌then◌else◌};
ghost use Rattle.sal_bool.specs.Syntax.{run, one, signed, when, leaf};
ghost use Rattle.sal_tables.specs.Trees.{short_vector_entries};
ghost use Rattle.sal_macroblock.specs.Sizes.{Within};
ghost use Rattle.sal_modes.specs.ReadVectors.{bits_at, long_size, component, read_vector};
ghost use Rattle.sal_modes.specs.Vectors.{plus};

use sal_base::Vector;
use sal_bool::Decoder;
use sal_tables::short_vector_tree;

/// No motion.
pub(crate) const ZERO: Vector = Vector { row: 0, column: 0 };

// What a bit of a number adds to it.
fn bit_value(place: u8, bit: bool) -> u32
    requires { place ≤ 9 }
    ensures value { result ≡ (if bit then 2 ^ place else 0) }
    ensures small { result ≤ 512 }
{
    if bit { 1 << place as u32 } else { 0 }
}

// A number with these of its bits, each at the probability of its place. Each adds at most 512.
fn bits_at(decoder: &mut Decoder<'_>, probabilities: &[u8], places: &[u8], start: u32) -> u32
    requires long { length probabilities.now ≡ 19 }
    requires few { length places.now ≤ 9 }
    requires places { All (λ i. i ≤ 9) places.now }
    requires start { start ≤ 4608 }
    ensures reads { run (bits_at probabilities.now places.now start) decoder.old ≡ (result, decoder.new) }
    ensures small { result ≤ start + 512 * length places.now }
{
    let mut value = start;
    for place in places {
        let bit = decoder.bit(probabilities[9 + *place as usize]);
        value += bit_value(*place, bit);
    }
    value
}

// A long size; its bit 3 is 1 unread where no higher one is set.
#[tactic(auto, unfolding(crate::specs::ReadVectors::long_size))]
fn long_size(decoder: &mut Decoder<'_>, probabilities: &[u8]) -> u32
    requires { length probabilities.now ≡ 19 }
    ensures reads { run (long_size probabilities.now) decoder.old ≡ (result, decoder.new) }
    ensures small { result ≤ 5120 }
{
    let value = bits_at(decoder, probabilities, &[0, 1, 2, 9, 8, 7, 6, 5, 4], 0);
    if value < 16 {
        value + 8
    } else {
        bits_at(decoder, probabilities, &[3], value)
    }
}

fn read_size(decoder: &mut Decoder<'_>, probabilities: &[u8], long: bool) -> u32
    requires { length probabilities.now ≡ 19 }
    ensures reads { run (if long then long_size probabilities.now else leaf short_vector_entries (slice_range probabilities.now 2 9)) decoder.old ≡ (result, decoder.new) }
    ensures small { result ≤ 5120 }
{
    if long {
        long_size(decoder, probabilities)
    } else {
        decoder.tree(short_vector_tree(), &probabilities[2..9]) as u32
    }
}

// A size other than 0 has a sign.
fn read_negative(decoder: &mut Decoder<'_>, probability: u8, size: u32) -> bool
    ensures reads { run (when (not (size == 0)) (one probability) false) decoder.old ≡ (result, decoder.new) }
{
    if size == 0 {
        false
    } else {
        decoder.bit(probability)
    }
}

fn signed(size: u32, negative: bool) -> i16
    requires { size ≤ 5120 }
    ensures value { result ≡ signed size negative }
    ensures small { Within 5120 result }
{
    if negative {
        -(size as i16)
    } else {
        size as i16
    }
}

// A component, by its nineteen probabilities.
fn read_component(decoder: &mut Decoder<'_>, probabilities: &[u8]) -> i16
    requires { length probabilities.now ≡ 19 }
    ensures reads { run (component probabilities.now) decoder.old ≡ (result, decoder.new) }
    ensures small { Within 5120 result }
{
    let long = decoder.bit(probabilities[0]);
    let size = read_size(decoder, probabilities, long);
    let negative = read_negative(decoder, probabilities[1], size);
    signed(size, negative)
}

/// A vector, row before column; far within 16 bits.
pub(crate) fn read_vector(decoder: &mut Decoder<'_>, probabilities: &[u8]) -> Vector
    requires { length probabilities.now ≡ 38 }
    ensures reads { run (read_vector probabilities.now) decoder.old ≡ (result, decoder.new) }
    ensures row { Within 5120 result.row }
    ensures column { Within 5120 result.column }
{
    let row = read_component(decoder, &probabilities[0..19]);
    let column = read_component(decoder, &probabilities[19..38]);
    Vector { row, column }
}

/// The sum of two vectors.
pub(crate) fn plus(a: Vector, b: Vector) -> Vector
    requires rows { Within 5120 a.row × Within 5120 b.row }
    requires columns { Within 5120 a.column × Within 5120 b.column }
    ensures { result ≡ plus a b }
{
    Vector {
        row: a.row + b.row,
        column: a.column + b.column,
    }
}
