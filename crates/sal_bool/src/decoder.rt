//! Reads bits by their probabilities (RFC 6386, section 7).
ghost use Rattle.std.specs.Prelude.{◌≡◌, ℕ, List, ◌+◌, ◌*◌, ◌/◌, ◌^◌, ◌<◌, ◌≤◌, length, nat_le, replicate};
ghost use Rattle.sal_bool.specs.Bits.{Interval, start, split_of, bit_at, next};
ghost use Rattle.sal_bool.specs.Reading.{StandsFor, opened, seen, IsWithin, narrowed, next_bit, after_bit};
ghost use Rattle.sal_bool.specs.Syntax.{run, read, one, number, literal};

use crate::range::missing_doublings;
use std::marker::Model;

/// A decoder over bytes, which goes on over zero bytes past their end.
///
/// Contracts see it as a `Reading`, and tie it by `StandsFor` to the exact number that the bytes form.
#[derive(Drop)]
pub struct Decoder<'a> {
    /// How far the number lies above the interval's low end, over `count` bits to come.
    window: u32,
    /// Bits in the window that were not reached yet, at most 14.
    count: u32,
    /// The interval's range, 128 to 255.
    range: u32,
    /// The bytes that are not in the window yet.
    rest: &'a [u8],
}

impl<'a> Model for Decoder<'a> {
    ghost use Rattle.std.specs.Prelude.{◌≤◌};
    ghost use Rattle.sal_bool.specs.Reading.{Reading, seen, IsWithin};

    ghost Value = { Reading };

    ghost view = { λ d. seen d.window d.count d.range d.rest.now };

    ghost invariant = { λ d. (128 ≤ d.range) × (d.range ≤ 255) × (d.count ≤ 14) × IsWithin d.window d.count d.range d.rest.now };
}

impl<'a> Decoder<'a> {
    /// A decoder at the first bit of these bytes.
    pub fn new(bytes: &'a [u8]) -> Decoder<'a>
        ensures opened { result ≡ opened bytes.now }
        ensures exact { StandsFor bytes.now start result }
    {
        match bytes.split_first() {
            // The number lies above the interval, and no bit brings it back: over zero bytes it stays at the interval's end.
            Some((255, _)) => Decoder {
                window: 255,
                count: 0,
                range: 255,
                rest: &[],
            },
            Some((first, rest)) => Decoder {
                window: *first as u32,
                count: 0,
                range: 255,
                rest,
            },
            None => Decoder {
                window: 0,
                count: 0,
                range: 255,
                rest: bytes,
            },
        }
    }

    /// The next bit, which is 0 with this probability of 256.
    #[inline]
    pub fn bit(&mut self, probability: u8) -> bool
        ensures reads { run (one probability) self.old ≡ (result, self.new) }
        ensures exact { (bytes : List ℕ) (i : Interval) → StandsFor bytes i self.old → (result ≡ bit_at bytes i probability) × StandsFor bytes (next i probability result) self.new }
    {
        self.step(probability)
    }

    /// A number by its bits at these probabilities, highest first.
    pub fn number(&mut self, probabilities: &[u8]) -> u32
        requires { length probabilities.now ≤ 24 }
        ensures reads { run (number probabilities.now 0) self.old ≡ (result, self.new) }
        ensures exact { (bytes : List ℕ) (i : Interval) → StandsFor bytes i self.old → (result ≡ (read bytes i (number probabilities.now 0)).0) × StandsFor bytes (read bytes i (number probabilities.now 0)).1 self.new }
        ensures small { result < 2 ^ length probabilities.now }
    {
        let mut value = 0u32;
        for probability in probabilities {
            value = 2 * value + self.bit(*probability) as u32;
        }
        value
    }

    /// A number of `n` bits at probability 128, highest first.
    pub fn literal(&mut self, n: u32) -> u32
        requires { n ≤ 24 }
        ensures reads { run (literal n) self.old ≡ (result, self.new) }
        ensures exact { (bytes : List ℕ) (i : Interval) → StandsFor bytes i self.old → (result ≡ (read bytes i (literal n)).0) × StandsFor bytes (read bytes i (literal n)).1 self.new }
        ensures small { result < 2 ^ n }
    {
        let mut value = 0u32;
        for _ in 0..n {
            value = 2 * value + self.bit(128) as u32;
        }
        value
    }

    #[inline]
    fn step(&mut self, probability: u8) -> bool
        ensures bit { result ≡ next_bit self.old probability }
        ensures after { self.new ≡ after_bit self.old probability }
    {
        let (window, count, rest) = filled(self.window, self.count, self.rest);
        let (bit, window, range) = narrow(window, count, self.range, probability);
        let shift = missing_doublings(range);
        self.window = window;
        self.count = count - shift;
        self.range = range << shift;
        self.rest = rest;
        bit
    }
}

// The window with at least seven bits to come, which one bit takes at most.
#[inline]
fn filled<'a>(window: u32, count: u32, rest: &'a [u8]) -> (u32, u32, &'a [u8])
    requires many { count ≤ 14 }
    requires small { window ≤ 255 * 2 ^ count }
    ensures same { (range : ℕ) → seen result.0 result.1 range result.2.now ≡ seen window count range rest.now }
    ensures within { (range : ℕ) → IsWithin window count range rest.now → IsWithin result.0 result.1 range result.2.now }
    ensures enough { 7 ≤ result.1 }
    ensures many { result.1 ≤ 14 }
{
    if count >= 7 {
        return (window, count, rest);
    }
    match rest.split_first() {
        Some((byte, rest)) => (window * 256 + *byte as u32, count + 8, rest),
        None => (window * 256, count + 8, rest),
    }
}

// The next bit, and the window and the range that it leaves.
#[inline]
fn narrow(window: u32, count: u32, range: u32, probability: u8) -> (bool, u32, u32)
    requires low { 128 ≤ range }
    requires high { range ≤ 255 }
    requires count { count ≤ 14 }
    requires within { window ≤ range * 2 ^ count }
    ensures bit { result.0 ≡ nat_le (split_of range probability) (window / 2 ^ count) }
    ensures narrowed { (rest : List ℕ) → seen result.1 count result.2 rest ≡ narrowed (seen window count range rest) probability result.0 }
    ensures positive { 0 < result.2 }
    ensures high { result.2 ≤ 255 }
    ensures within { result.1 ≤ result.2 * 2 ^ count }
    ensures inside { window < range * 2 ^ count → result.1 < result.2 * 2 ^ count }
{
    let split = 1 + (((range - 1) * probability as u32) >> 8);
    let raised = split << count;
    if window >= raised {
        (true, window - raised, range - split)
    } else {
        (false, window, split)
    }
}
