//! Writes bits by their probabilities (RFC 6386, section 7).
ghost use Rattle.std.specs.Prelude.{◌≡◌, ℕ, List, Bool, ◌+◌, ◌*◌, ◌^◌, ◌<◌, ◌≤◌, length, slice_index, map, is_ok, if◌then◌else◌, IfOk, OnOk, OnErr};
ghost use Rattle.sal_bool.specs.Bits.{start, next, narrow, read_all};
ghost use Rattle.sal_bool.specs.Written.{standing, steps, written, value, AreFit};

use crate::carry::carry;
use crate::range::missing_doublings;
use sal_base::{Bytes, Memory};
use std::alloc::Global;
use std::marker::Model;

/// An encoder, which contracts see as the interval that its bits leave.
#[derive(Drop)]
pub struct Encoder {
    /// The bytes that are out. A carry may still go into them.
    out: Vec<u8>,
    /// The low end below those bytes, in 8 + `count` bits, with a carry that waits above them.
    bottom: u32,
    /// How many bits there are beyond the next byte, below 8.
    count: u32,
    /// The interval's range, 128 to 255.
    range: u32,
}

impl Model for Encoder {
    ghost use Rattle.std.specs.Prelude.{◌+◌, ◌^◌, ◌≤◌, ◌<◌};
    ghost use Rattle.sal_bool.specs.Bits.{Interval};
    ghost use Rattle.sal_bool.specs.Written.{standing, IsBelow};

    ghost Value = { Interval };

    ghost view = { λ e. standing e.out.items e.bottom e.count e.range };

    ghost invariant = { λ e. (128 ≤ e.range) × (e.range ≤ 255) × (e.count < 8) × (e.bottom + e.range ≤ 2 ^ (9 + e.count)) × IsBelow (standing e.out.items e.bottom e.count e.range) };
}

impl Encoder {
    /// An encoder before its first bit.
    pub fn new(alloc: Global) -> Encoder
        ensures { result ≡ start }
    {
        Encoder {
            out: Vec::new(alloc),
            bottom: 0,
            count: 0,
            range: 255,
        }
    }

    /// Writes a bit that is 0 with this probability of 256. Want of memory changes nothing.
    pub fn put(&mut self, bit: bool, probability: u8) -> Result<(), Memory>
        ensures { self.new ≡ (if is_ok result then next self.old probability bit else self.old) }
    {
        let (bottom, range) = taken(self.bottom, self.range, bit, probability);
        let shift = missing_doublings(range);
        let (bottom, count) = send(&mut self.out, bottom << shift, self.count + shift)?;
        self.bottom = bottom;
        self.count = count;
        self.range = range << shift;
        Ok(())
    }

    /// The bytes that were written: the low end's bits, with zero bits to whole bytes, at least two.
    pub fn finish(self) -> Result<Bytes, Memory>
        ensures bytes { IfOk result (λ b. b ≡ written self) }
        ensures law { IfOk result (λ b. (xs : List (ℕ × Bool)) → AreFit xs → self ≡ steps start xs → read_all b start (map (λ x. x.0) xs) ≡ map (λ x. x.1) xs) }
    {
        let last = self.bottom << (8 - self.count);
        let count = self.count;
        let mut out = self.out;
        push(&mut out, last >> 8)?;
        if count == 0 && out.len() > 1 {
            return Ok(Bytes::from_vec(out));
        }
        push(&mut out, last % 256)?;
        Ok(Bytes::from_vec(out))
    }
}

// The low end and the range that a bit leaves.
#[inline]
fn taken(bottom: u32, range: u32, bit: bool, probability: u8) -> (u32, u32)
    requires low { 128 ≤ range }
    requires high { range ≤ 255 }
    requires small { bottom < 2 ^ 16 }
    ensures taken { (out : List ℕ) (count : ℕ) → standing out result.0 count result.1 ≡ narrow (standing out bottom count range) probability bit }
    ensures sum { result.0 + result.1 ≤ bottom + range }
    ensures positive { 0 < result.1 }
    ensures high { result.1 ≤ 255 }
{
    let split = 1 + (((range - 1) * probability as u32) >> 8);
    if bit {
        (bottom + split, range - split)
    } else {
        (bottom, split)
    }
}

// Moves the low end's highest byte out where there are eight bits beyond it, and gives what stays.
#[inline]
fn send(out: &mut Vec<u8>, bottom: u32, count: u32) -> Result<(u32, u32), Memory>
    requires count { count ≤ 14 }
    requires small { bottom < 2 ^ (9 + count) }
    requires fits { value out.old.items * 2 ^ (8 + count) + bottom < 256 ^ length out.old.items * 2 ^ (8 + count) }
    ensures count { IfOk result (λ r. r.1 < 8) }
    ensures same { IfOk result (λ r. (range : ℕ) → standing out.new.items r.0 r.1 range ≡ standing out.old.items bottom count range) }
    ensures small { IfOk result (λ r. (range : ℕ) → range ≤ 255 → bottom + range ≤ 2 ^ (9 + count) → r.0 + range ≤ 2 ^ (9 + r.1)) }
    ensures unchanged { OnErr result (out.new.items ≡ out.old.items) }
{
    if count < 8 {
        return Ok((bottom, count));
    }
    push(out, bottom >> count)?;
    Ok((bottom % (1 << count), count - 8))
}

// One more byte, with the carry that it has above its eight bits.
fn push(out: &mut Vec<u8>, byte: u32) -> Result<(), Memory>
    requires small { byte < 512 }
    requires fits { 256 ≤ byte → value out.old.items + 1 < 256 ^ length out.old.items }
    ensures value { OnOk result (value out.new.items ≡ value out.old.items * 256 + byte) }
    ensures length { OnOk result (length out.new.items ≡ length out.old.items + 1) }
    ensures bytes { OnOk result ((i : ℕ) → slice_index out.new.items i < 256) }
    ensures unchanged { OnErr result (out.new.items ≡ out.old.items) }
{
    let end = out.len();
    out.push((byte % 256) as u8)?;
    if byte >= 256 {
        carry(out.as_mut_slice(), end);
    }
    Ok(())
}
