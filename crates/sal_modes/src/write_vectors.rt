//! Writes vectors (RFC 6386, section 17).

ghost use Rattle.std.specs.Prelude.{◌≡◌, ◌≤◌, ◌-ℤ◌, All, length, unsigned_abs, OnOk};
ghost use Rattle.sal_bool.specs.Written.{steps};
ghost use Rattle.sal_modes.specs.Written.{bits_at_pairs, long_pairs, size_pairs, component_pairs, vector_pairs};

use crate::put::{put_bit_when, put_way};
use crate::ways::short_way;
use sal_base::{Memory, Vector};
use sal_bool::Encoder;

// These bits of a number, each at the probability of its place.
fn put_bits_at(
    encoder: &mut Encoder,
    probabilities: &[u8],
    places: &[u8],
    number: u16,
) -> Result<(), Memory>
    requires long { length probabilities.now ≡ 19 }
    requires places { All (λ i. i ≤ 9) places.now }
    ensures { OnOk result (encoder.new ≡ steps encoder.old (bits_at_pairs probabilities.now places.now number)) }
{
    for place in places {
        let bit = (number >> *place) % 2 >= 1;
        encoder.put(bit, probabilities[9 + *place as usize])?;
    }
    Ok(())
}

// A size above 7; its bit 3 isn't written where no higher one is set.
fn put_long(encoder: &mut Encoder, probabilities: &[u8], size: u16) -> Result<(), Memory>
    requires { length probabilities.now ≡ 19 }
    ensures { OnOk result (encoder.new ≡ steps encoder.old (long_pairs probabilities.now size)) }
{
    put_bits_at(encoder, probabilities, &[0, 1, 2, 9, 8, 7, 6, 5, 4], size)?;
    if size >= 16 {
        put_bits_at(encoder, probabilities, &[3], size)?;
    }
    Ok(())
}

// A size: short up to 7.
fn put_size(encoder: &mut Encoder, probabilities: &[u8], size: u16) -> Result<(), Memory>
    requires { length probabilities.now ≡ 19 }
    ensures { OnOk result (encoder.new ≡ steps encoder.old (size_pairs probabilities.now size)) }
{
    if size < 8 {
        put_way(encoder, &probabilities[2..9], short_way(size as u8))
    } else {
        put_long(encoder, probabilities, size)
    }
}

// A component: whether its size is long, its size, and its sign unless it is 0.
fn put_component(encoder: &mut Encoder, probabilities: &[u8], component: i16) -> Result<(), Memory>
    requires { length probabilities.now ≡ 19 }
    ensures { OnOk result (encoder.new ≡ steps encoder.old (component_pairs probabilities.now component)) }
{
    let size = component.unsigned_abs();
    encoder.put(size >= 8, probabilities[0])?;
    put_size(encoder, probabilities, size)?;
    put_bit_when(encoder, size != 0, component < 0, probabilities[1])?;
    Ok(())
}

/// How far a vector is from another, row before column.
pub(crate) fn put_vector(
    encoder: &mut Encoder,
    probabilities: &[u8],
    best: Vector,
    vector: Vector,
) -> Result<(), Memory>
    requires long { length probabilities.now ≡ 38 }
    requires row { unsigned_abs (vector.row -ℤ best.row) ≤ 1023 }
    requires column { unsigned_abs (vector.column -ℤ best.column) ≤ 1023 }
    ensures { OnOk result (encoder.new ≡ steps encoder.old (vector_pairs probabilities.now best vector)) }
{
    put_component(encoder, &probabilities[0..19], vector.row - best.row)?;
    put_component(encoder, &probabilities[19..38], vector.column - best.column)?;
    Ok(())
}
