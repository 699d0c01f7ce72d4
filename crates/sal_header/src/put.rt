//! Single fields of a header, written as their bits.

ghost use Rattle.std.specs.Prelude.{◌≡◌, ◌<◌, ◌≤◌, ◌^◌, ◌/◌, ℕ, ℤ, Option, length, unsigned_abs, OnOk, OnErr};
ghost use Rattle.sal_bool.specs.Written.{steps};
ghost use Rattle.sal_bool.specs.Pairs.{pair, flag_pairs, literal_pairs, signed_pairs, flagged_pairs, optional_pairs, pairs_when, all_pairs};
ghost use Rattle.sal_bool.specs.Put.{PutSome};
ghost use Rattle.sal_header.specs.Written.{map_pairs, delta_pairs, vector_pairs, coefficients_pairs, vectors_pairs};

use sal_base::Memory;
use sal_bool::Encoder;
use sal_tables::{update_coefficients, update_vectors};

// A flag.
pub(crate) fn put_flag(encoder: &mut Encoder, flag: bool) -> Result<(), Memory>
    ensures all { OnOk result (encoder.new ≡ steps encoder.old (flag_pairs flag)) }
    ensures some { OnErr result (PutSome encoder.old (flag_pairs flag) encoder.new) }
{
    encoder.put(flag, 128)
}

// A flag where there is one.
pub(crate) fn put_flag_when(encoder: &mut Encoder, there: bool, flag: bool) -> Result<(), Memory>
    ensures all { OnOk result (encoder.new ≡ steps encoder.old (pairs_when there (flag_pairs flag))) }
    ensures some { OnErr result (PutSome encoder.old (pairs_when there (flag_pairs flag)) encoder.new) }
{
    if there {
        put_flag(encoder, flag)
    } else {
        Ok(())
    }
}

// The lowest n bits of a number, highest first.
pub(crate) fn put_literal(encoder: &mut Encoder, n: u32, x: u8) -> Result<(), Memory>
    requires { n ≤ 8 }
    ensures all { OnOk result (encoder.new ≡ steps encoder.old (literal_pairs n x)) }
    ensures some { OnErr result (PutSome encoder.old (literal_pairs n x) encoder.new) }
{
    for i in 0..n {
        encoder.put((x >> (n - 1 - i)) % 2 >= 1, 128)?;
    }
    Ok(())
}

// A number where there is one.
pub(crate) fn put_literal_when(
    encoder: &mut Encoder,
    there: bool,
    n: u32,
    x: u8,
) -> Result<(), Memory>
    requires { n ≤ 8 }
    ensures all { OnOk result (encoder.new ≡ steps encoder.old (pairs_when there (literal_pairs n x))) }
    ensures some { OnErr result (PutSome encoder.old (pairs_when there (literal_pairs n x)) encoder.new) }
{
    if there {
        put_literal(encoder, n, x)
    } else {
        Ok(())
    }
}

// A size of n bits, and a sign.
pub(crate) fn put_signed(encoder: &mut Encoder, n: u32, z: i8) -> Result<(), Memory>
    requires { n ≤ 7 }
    ensures all { OnOk result (encoder.new ≡ steps encoder.old (signed_pairs n z)) }
    ensures some { OnErr result (PutSome encoder.old (signed_pairs n z) encoder.new) }
{
    put_literal(encoder, n, z.unsigned_abs())?;
    put_flag(encoder, z < 0)?;
    Ok(())
}

// A signed number, with its flag exactly where it isn't 0.
pub(crate) fn put_flagged(encoder: &mut Encoder, n: u32, z: i8) -> Result<(), Memory>
    requires { n ≤ 7 }
    ensures all { OnOk result (encoder.new ≡ steps encoder.old (flagged_pairs n z)) }
    ensures some { OnErr result (PutSome encoder.old (flagged_pairs n z) encoder.new) }
{
    if z == 0 {
        return put_flag(encoder, false);
    }
    put_flag(encoder, true)?;
    put_signed(encoder, n, z)?;
    Ok(())
}

// Four signed numbers, each with its flag exactly where it isn't 0.
pub(crate) fn put_four_flagged(
    encoder: &mut Encoder,
    n: u32,
    values: &[i8; 4],
) -> Result<(), Memory>
    requires { n ≤ 7 }
    ensures all { OnOk result (encoder.new ≡ steps encoder.old (all_pairs (flagged_pairs n) values.now)) }
    ensures some { OnErr result (PutSome encoder.old (all_pairs (flagged_pairs n) values.now) encoder.new) }
{
    for i in 0..4usize {
        put_flagged(encoder, n, values[i])?;
    }
    Ok(())
}

// A delta of the filter, with its flag.
fn put_delta(encoder: &mut Encoder, z: i8) -> Result<(), Memory>
    ensures all { OnOk result (encoder.new ≡ steps encoder.old (delta_pairs z)) }
    ensures some { OnErr result (PutSome encoder.old (delta_pairs z) encoder.new) }
{
    put_flag(encoder, true)?;
    put_signed(encoder, 6, z)?;
    Ok(())
}

// Four deltas of the filter.
pub(crate) fn put_four_deltas(encoder: &mut Encoder, values: &[i8; 4]) -> Result<(), Memory>
    ensures all { OnOk result (encoder.new ≡ steps encoder.old (all_pairs delta_pairs values.now)) }
    ensures some { OnErr result (PutSome encoder.old (all_pairs delta_pairs values.now) encoder.new) }
{
    for i in 0..4usize {
        put_delta(encoder, values[i])?;
    }
    Ok(())
}

// A probability of the segment map, with its flag exactly where it isn't 255.
fn put_map(encoder: &mut Encoder, x: u8) -> Result<(), Memory>
    ensures all { OnOk result (encoder.new ≡ steps encoder.old (map_pairs x)) }
    ensures some { OnErr result (PutSome encoder.old (map_pairs x) encoder.new) }
{
    if x == 255 {
        return put_flag(encoder, false);
    }
    put_flag(encoder, true)?;
    put_literal(encoder, 8, x)?;
    Ok(())
}

// The probabilities of the segment map.
pub(crate) fn put_three_map(encoder: &mut Encoder, values: &[u8; 3]) -> Result<(), Memory>
    ensures all { OnOk result (encoder.new ≡ steps encoder.old (all_pairs map_pairs values.now)) }
    ensures some { OnErr result (PutSome encoder.old (all_pairs map_pairs values.now) encoder.new) }
{
    for i in 0..3usize {
        put_map(encoder, values[i])?;
    }
    Ok(())
}

// Bytes, one after the other.
fn put_bytes(encoder: &mut Encoder, values: &[u8]) -> Result<(), Memory>
    ensures all { OnOk result (encoder.new ≡ steps encoder.old (all_pairs (literal_pairs 8) values.now)) }
    ensures some { OnErr result (PutSome encoder.old (all_pairs (literal_pairs 8) values.now) encoder.new) }
{
    for i in 0..values.len() {
        put_literal(encoder, 8, values[i])?;
    }
    Ok(())
}

// Four bytes under a flag.
pub(crate) fn put_optional_four(
    encoder: &mut Encoder,
    values: &Option<[u8; 4]>,
) -> Result<(), Memory>
    ensures all { OnOk result (encoder.new ≡ steps encoder.old (optional_pairs 128 (all_pairs (literal_pairs 8)) values.now)) }
    ensures some { OnErr result (PutSome encoder.old (optional_pairs 128 (all_pairs (literal_pairs 8)) values.now) encoder.new) }
{
    match values {
        Some(values) => {
            put_flag(encoder, true)?;
            put_bytes(encoder, values)?;
            Ok(())
        }
        None => put_flag(encoder, false),
    }
}

// Three bytes under a flag.
pub(crate) fn put_optional_three(
    encoder: &mut Encoder,
    values: &Option<[u8; 3]>,
) -> Result<(), Memory>
    ensures all { OnOk result (encoder.new ≡ steps encoder.old (optional_pairs 128 (all_pairs (literal_pairs 8)) values.now)) }
    ensures some { OnErr result (PutSome encoder.old (optional_pairs 128 (all_pairs (literal_pairs 8)) values.now) encoder.new) }
{
    match values {
        Some(values) => {
            put_flag(encoder, true)?;
            put_bytes(encoder, values)?;
            Ok(())
        }
        None => put_flag(encoder, false),
    }
}

// A byte under a bit at this probability.
fn put_optional_byte(
    encoder: &mut Encoder,
    probability: u8,
    value: Option<u8>,
) -> Result<(), Memory>
    ensures all { OnOk result (encoder.new ≡ steps encoder.old (optional_pairs probability (literal_pairs 8) value)) }
    ensures some { OnErr result (PutSome encoder.old (optional_pairs probability (literal_pairs 8) value) encoder.new) }
{
    match value {
        Some(x) => {
            encoder.put(true, probability)?;
            put_literal(encoder, 8, x)?;
            Ok(())
        }
        None => encoder.put(false, probability),
    }
}

// A vector probability under a bit at this probability.
fn put_optional_vector(
    encoder: &mut Encoder,
    probability: u8,
    value: Option<u8>,
) -> Result<(), Memory>
    ensures all { OnOk result (encoder.new ≡ steps encoder.old (optional_pairs probability vector_pairs value)) }
    ensures some { OnErr result (PutSome encoder.old (optional_pairs probability vector_pairs value) encoder.new) }
{
    match value {
        Some(x) => {
            encoder.put(true, probability)?;
            put_literal(encoder, 7, x / 2)?;
            Ok(())
        }
        None => encoder.put(false, probability),
    }
}

// New coefficient probabilities, by type, band, context and place.
pub(crate) fn put_coefficients(
    encoder: &mut Encoder,
    updates: &[Option<u8>; 1056],
) -> Result<(), Memory>
    ensures all { OnOk result (encoder.new ≡ steps encoder.old (coefficients_pairs updates.now)) }
    ensures some { OnErr result (PutSome encoder.old (coefficients_pairs updates.now) encoder.new) }
{
    let probabilities = update_coefficients();
    for i in 0..1056usize {
        put_optional_byte(encoder, probabilities[i], updates[i])?;
    }
    Ok(())
}

// New vector probabilities, 19 of the row and then 19 of the column.
pub(crate) fn put_vectors(encoder: &mut Encoder, updates: &[Option<u8>; 38]) -> Result<(), Memory>
    ensures all { OnOk result (encoder.new ≡ steps encoder.old (vectors_pairs updates.now)) }
    ensures some { OnErr result (PutSome encoder.old (vectors_pairs updates.now) encoder.new) }
{
    let probabilities = update_vectors();
    for i in 0..38usize {
        put_optional_vector(encoder, probabilities[i], updates[i])?;
    }
    Ok(())
}
