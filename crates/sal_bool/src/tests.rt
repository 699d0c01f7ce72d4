//! Single bits, bytes past their end, and round trips.

use crate::{Decoder, Encoder};
use sal_base::Bytes;
use sal_tables::{key_y_tree, token_tree};
use std::alloc::Global;

/// The bytes of one bit, or none for want of memory.
fn bytes_of(alloc: Global, bit: bool, probability: u8) -> Option<(u8, u8)> {
    let mut encoder = Encoder::new(alloc);
    encoder.put(bit, probability).ok()?;
    let bytes = encoder.finish().ok()?;
    match bytes.as_slice() {
        [first, second] => Some((*first, *second)),
        _ => None,
    }
}

#[test]
fn one_bit_in_two_bytes(rt: HostRuntime) {
    let alloc = rt.alloc();
    for (bit, probability, bytes) in [
        (false, 128, (0x00, 0x00)),
        (true, 128, (0x80, 0x00)),
        (true, 0, (0x01, 0x00)),
        (true, 255, (0xfe, 0x00)),
    ] {
        assert_eq!(rt;
            bytes_of(alloc, bit, probability),
            Some(bytes),
            "at {probability}"
        );
    }
}

#[test]
fn past_the_end_are_zero_bytes(rt: HostRuntime) {
    let mut short = Decoder::new(&[0xa7]);
    let mut long = Decoder::new(&[0xa7, 0, 0, 0, 0, 0, 0, 0]);
    for place in 0..40u32 {
        assert_eq!(rt; short.bit(117), long.bit(117), "bit {place}");
    }
    let mut none = Decoder::new(&[]);
    assert_eq!(rt; none.literal(24), 0);
    assert_eq!(rt; none.tree(token_tree(), &[128; 11]), 0);
}

#[test]
fn a_first_byte_of_255_gives_ones_for_ever(rt: HostRuntime) {
    for probability in [0u8, 1, 127, 128, 254, 255] {
        let mut decoder = Decoder::new(&[255, 0, 0x7f]);
        for _ in 0..1000u32 {
            assert!(rt; decoder.bit(probability), "at {probability}");
        }
    }
    let mut decoder = Decoder::new(&[255]);
    assert_eq!(rt; decoder.literal(24), 0xff_ffff);
    assert_eq!(rt; decoder.tree(key_y_tree(), &[145, 156, 163, 128]), 3);
}

/// A row of probabilities and bits.
#[derive(Drop)]
struct Pairs {
    pattern: u32,
    place: u32,
    half: Decoder<'static>,
}

impl Pairs {
    fn new(pattern: u32) -> Self {
        Pairs {
            pattern,
            place: 0,
            half: Decoder::new(&[0x80]),
        }
    }

    fn next(&mut self) -> (u8, bool) {
        let i = self.place;
        self.place = i.wrapping_add(1);
        let mixed = (i ^ (i >> 7)).wrapping_mul(0x9e37_79b1) >> 9;
        let probability = (mixed % 256) as u8;
        let draw = ((mixed >> 8) % 256) as u8;
        match self.pattern {
            0 => (0, false),
            1 => (0, true),
            2 => (255, false),
            3 => (255, true),
            4 => (128, i % 2 == 1),
            5 => (if i % 2 == 0 { 0 } else { 255 }, i % 3 == 0),
            6 => (probability, draw >= probability),
            7 => (probability, draw < probability),
            // The low end stays just below a half for nearly a thousand bytes, and then passes it: one carry goes through them all.
            _ if i < 9000 => (100, self.half.bit(100)),
            _ => (255, true),
        }
    }
}

fn written(alloc: Global, pattern: u32, count: u32) -> Option<Bytes> {
    let mut encoder = Encoder::new(alloc);
    let mut pairs = Pairs::new(pattern);
    for _ in 0..count {
        let (probability, bit) = pairs.next();
        encoder.put(bit, probability).ok()?;
    }
    encoder.finish().ok()
}

fn is_read_back(alloc: Global, pattern: u32, count: u32) -> bool {
    let Some(bytes) = written(alloc, pattern, count) else {
        return false;
    };
    let mut decoder = Decoder::new(bytes.as_slice());
    let mut pairs = Pairs::new(pattern);
    for _ in 0..count {
        let (probability, bit) = pairs.next();
        if decoder.bit(probability) != bit {
            return false;
        }
    }
    true
}

#[test]
fn bits_written_are_read(rt: HostRuntime) {
    let alloc = rt.alloc();
    for pattern in 0..9u32 {
        for count in [0, 1, 7, 8, 9, 100, 9020, 10_000] {
            assert!(rt;
                is_read_back(alloc, pattern, count),
                "{count} bits of pattern {pattern}"
            );
        }
    }
}

#[test]
fn a_carry_goes_through_a_thousand_bytes(rt: HostRuntime) {
    let Some(bytes) = written(rt.alloc(), 8, 9020) else {
        panic!(rt; "no bytes");
    };
    let zeros = bytes
        .as_slice()
        .iter()
        .skip(1)
        .take_while(|byte| **byte == 0)
        .count();
    assert_eq!(rt;
        (bytes.len(), bytes.as_slice().first().copied(), zeros),
        (1004, Some(0x80), 984)
    );
}
