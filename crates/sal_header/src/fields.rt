//! Single fields of a header, read from its bits.

ghost use Rattle.std.specs.Prelude.{◌≡◌, ◌<◌, ◌≤◌, ◌^◌, pos, false, length};
ghost use Rattle.sal_bool.specs.Syntax.{run, flag, literal, signed_literal, when, flagged, optional, each, one};
ghost use Rattle.sal_header.specs.Headers.{vector_value, bytes, segment_map, coefficient_updates, vector_updates};

use sal_bool::Decoder;
use sal_tables::{update_coefficients, update_vectors};

// A number of n bits, in a byte.
pub(crate) fn small(decoder: &mut Decoder<'_>, n: u32) -> u8
    requires { n ≤ 8 }
    ensures reads { run (literal n) decoder.old ≡ (result, decoder.new) }
    ensures small { result < 2 ^ n }
{
    decoder.literal(n) as u8
}

// A flag where there is one, else false.
pub(crate) fn flag_when(decoder: &mut Decoder<'_>, there: bool) -> bool
    ensures reads { run (when there flag false) decoder.old ≡ (result, decoder.new) }
{
    if there { decoder.bit(128) } else { false }
}

// A number of n bits where there is one, else 0.
pub(crate) fn small_when(decoder: &mut Decoder<'_>, there: bool, n: u32) -> u8
    requires { n ≤ 8 }
    ensures reads { run (when there (literal n) 0) decoder.old ≡ (result, decoder.new) }
{
    if there { small(decoder, n) } else { 0 }
}

// A number of n bits and its sign.
pub(crate) fn signed(decoder: &mut Decoder<'_>, n: u32) -> i8
    requires { n ≤ 7 }
    ensures reads { run (signed_literal n) decoder.old ≡ (result, decoder.new) }
{
    let size = decoder.literal(n) as i8;
    let negative = decoder.bit(128);
    if negative { -size } else { size }
}

// A signed number of four bits where its flag says so, else 0.
pub(crate) fn index_delta(decoder: &mut Decoder<'_>) -> i8
    ensures reads { run (flagged (signed_literal 4) (pos 0)) decoder.old ≡ (result, decoder.new) }
{
    let flag = decoder.bit(128);
    if flag { signed(decoder, 4) } else { 0 }
}

// Four signed numbers of n bits, each where its flag says so, else the one that was there.
pub(crate) fn update_four(decoder: &mut Decoder<'_>, n: u32, values: &mut [i8; 4])
    requires { n ≤ 7 }
    ensures reads { run (each (flagged (signed_literal n)) values.old) decoder.old ≡ (values.new, decoder.new) }
{
    for i in 0..4usize {
        let flag = decoder.bit(128);
        if flag {
            values[i] = signed(decoder, n);
        }
    }
}

// A byte where its flag says so, else another one.
pub(crate) fn flagged_byte(decoder: &mut Decoder<'_>, otherwise: u8) -> u8
    ensures reads { run (flagged (literal 8) otherwise) decoder.old ≡ (result, decoder.new) }
{
    let flag = decoder.bit(128);
    if flag { small(decoder, 8) } else { otherwise }
}

// A byte where a bit at this probability says so.
pub(crate) fn optional_byte(decoder: &mut Decoder<'_>, probability: u8) -> Option<u8>
    ensures reads { run (optional probability (literal 8)) decoder.old ≡ (result, decoder.new) }
{
    let there = decoder.bit(probability);
    if there { Some(small(decoder, 8)) } else { None }
}

// A vector probability where a bit at this probability says so.
pub(crate) fn optional_vector(decoder: &mut Decoder<'_>, probability: u8) -> Option<u8>
    ensures reads { run (optional probability vector_value) decoder.old ≡ (result, decoder.new) }
{
    let there = decoder.bit(probability);
    if there {
        Some(vector_value(decoder))
    } else {
        None
    }
}

// A vector probability: twice seven bits, but 1 where they are 0.
fn vector_value(decoder: &mut Decoder<'_>) -> u8
    ensures reads { run vector_value decoder.old ≡ (result, decoder.new) }
{
    let x = small(decoder, 7);
    if x == 0 { 1 } else { 2 * x }
}

// Four bytes where a flag says so.
pub(crate) fn optional_four(decoder: &mut Decoder<'_>) -> Option<[u8; 4]>
    ensures reads { run (optional 128 (bytes 4)) decoder.old ≡ (result, decoder.new) }
{
    let there = decoder.bit(128);
    if there {
        Some(four_bytes(decoder))
    } else {
        None
    }
}

fn four_bytes(decoder: &mut Decoder<'_>) -> [u8; 4]
    ensures reads { run (bytes 4) decoder.old ≡ (result, decoder.new) }
{
    let first = small(decoder, 8);
    let second = small(decoder, 8);
    let third = small(decoder, 8);
    let fourth = small(decoder, 8);
    [first, second, third, fourth]
}

// Three bytes where a flag says so.
pub(crate) fn optional_three(decoder: &mut Decoder<'_>) -> Option<[u8; 3]>
    ensures reads { run (optional 128 (bytes 3)) decoder.old ≡ (result, decoder.new) }
{
    let there = decoder.bit(128);
    if there {
        Some(three_bytes(decoder))
    } else {
        None
    }
}

fn three_bytes(decoder: &mut Decoder<'_>) -> [u8; 3]
    ensures reads { run (bytes 3) decoder.old ≡ (result, decoder.new) }
{
    let first = small(decoder, 8);
    let second = small(decoder, 8);
    let third = small(decoder, 8);
    [first, second, third]
}

// Three bytes, each where its flag says so, else 255.
pub(crate) fn three_flagged(decoder: &mut Decoder<'_>) -> [u8; 3]
    ensures reads { run segment_map decoder.old ≡ (result, decoder.new) }
{
    let first = flagged_byte(decoder, 255);
    let second = flagged_byte(decoder, 255);
    let third = flagged_byte(decoder, 255);
    [first, second, third]
}

// New coefficient probabilities, by type, band, context and place.
pub(crate) fn coefficient_updates(decoder: &mut Decoder<'_>, updates: &mut [Option<u8>; 1056])
    ensures reads { run coefficient_updates decoder.old ≡ (updates.new, decoder.new) }
{
    let probabilities = update_coefficients();
    for i in 0..1056usize {
        updates[i] = optional_byte(decoder, probabilities[i]);
    }
}

// New vector probabilities, 19 of the row and then 19 of the column.
pub(crate) fn vector_updates(decoder: &mut Decoder<'_>, updates: &mut [Option<u8>; 38])
    ensures reads { run vector_updates decoder.old ≡ (updates.new, decoder.new) }
{
    let probabilities = update_vectors();
    for i in 0..38usize {
        updates[i] = optional_vector(decoder, probabilities[i]);
    }
}
