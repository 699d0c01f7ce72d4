//! The frames of the codec without compression.

ghost use Rattle.std.specs.Prelude.{◌≡◌, ◌∷◌, length, IfOk, IfSome, OnOk};
ghost use Rattle.std.specs.Option.{option_copied};
ghost use Rattle.sal_codec.specs.Coding.{DecodesAs};
ghost use Rattle.sal_codec.specs.Raw.{IsRaw};
ghost use Rattle.sal_codec.specs.Plain.{pair, sides_of, key_bytes, differences, sums, side_fault, count_fault, sized, key_of, inter_of, raw_of_frame};

use crate::difference::{push_differences, push_sums};
use crate::raw::{RawPicture, sample_count};
use byteorder::{BigEndian, ByteOrder};
use sal_base::{Bytes, DecodeFault, Fault, MAX_HEIGHT, MAX_WIDTH, Memory};
use std::alloc::{AllocError, Global};

// The first byte of a key frame, and of an inter frame.
const KEY: u8 = 0;

const INTER: u8 = 1;

/// The width and the height, high byte first.
#[tactic(auto, unfolding(crate::specs::Plain::pair))]
pub(crate) fn sides_bytes(width: u16, height: u16) -> [u8; 4]
    ensures { result ≡ sides_of width height }
{
    let mut sides = [0u8; 4];
    BigEndian::write_u16(&mut sides, width);
    BigEndian::write_u16(&mut sides[2..], height);
    sides
}

/// The key frame of a picture.
pub(crate) fn key_bytes(alloc: Global, picture: &RawPicture) -> Result<Bytes, Memory>
    ensures { IfOk result (λ b. b ≡ key_bytes picture.now) }
{
    let samples = picture.samples.as_slice();
    let mut bytes = Vec::with_capacity(alloc, 5 + samples.len())?;
    bytes.push(KEY)?;
    bytes.extend_from_slice(&sides_bytes(picture.width, picture.height))?;
    bytes.extend_from_slice(samples)?;
    Ok(Bytes::from_vec(bytes))
}

/// The inter frame of samples, from a source of as many samples; from its differences come the samples again.
pub(crate) fn inter_bytes(alloc: Global, samples: &[u8], source: &[u8]) -> Result<Bytes, Memory>
    requires { length samples.now ≡ length source.now }
    ensures bytes { IfOk result (λ b. b ≡ 1 ∷ differences samples.now source.now) }
    ensures again { OnOk result (sums (differences samples.now source.now) source.now ≡ samples.now) }
{
    let mut bytes = Vec::with_capacity(alloc, 1 + samples.len())?;
    bytes.push(INTER)?;
    push_differences(&mut bytes, samples, source)?;
    Ok(Bytes::from_vec(bytes))
}

/// What is wrong with the sides of a key frame.
fn side_fault(width: u16, height: u16) -> Option<Fault>
    ensures { result ≡ side_fault width height }
{
    if width == 0 || height == 0 {
        Some(Fault::ZeroSize)
    } else if width > MAX_WIDTH || height > MAX_HEIGHT {
        Some(Fault::TooLarge(width, height))
    } else {
        None
    }
}

/// What is wrong with this many samples for a picture with these sides.
fn count_fault(width: u16, height: u16, samples: usize) -> Option<Fault>
    ensures { result ≡ count_fault width height samples }
{
    let wanted = sample_count(width, height);
    if samples < wanted {
        Some(Fault::Short)
    } else if samples > wanted {
        Some(Fault::Partition(0))
    } else {
        None
    }
}

/// The samples behind these sides.
fn sized(alloc: Global, width: u16, height: u16, samples: &[u8]) -> Result<RawPicture, DecodeFault>
    ensures says { DecodesAs (sized width height samples.now) result }
    ensures whole { IfOk result IsRaw }
{
    if let Some(fault) = side_fault(width, height) {
        return Err(DecodeFault::Bad(fault));
    }
    if let Some(fault) = count_fault(width, height, samples.len()) {
        return Err(DecodeFault::Bad(fault));
    }
    let samples = Bytes::from_slice(alloc, samples).map_err(|_| DecodeFault::Memory)?;
    Ok(RawPicture {
        width,
        height,
        samples,
    })
}

/// What a key frame has after its first byte.
#[tactic(auto, unfolding(crate::specs::Plain::key_of))]
fn read_key(alloc: Global, rest: &[u8]) -> Result<RawPicture, DecodeFault>
    ensures says { DecodesAs (key_of rest.now) result }
    ensures whole { IfOk result IsRaw }
{
    if rest.len() < 4 {
        return Err(DecodeFault::Bad(Fault::Short));
    }
    let width = BigEndian::read_u16(rest);
    let height = BigEndian::read_u16(&rest[2..]);
    sized(alloc, width, height, &rest[4..])
}

/// The samples that have these differences from a source.
fn moved(alloc: Global, differences: &[u8], source: &[u8]) -> Result<Bytes, AllocError>
    requires { length differences.now ≡ length source.now }
    ensures samples { IfOk result (λ b. b ≡ sums differences.now source.now) }
    ensures long { IfOk result (λ b. length b ≡ length source.now) }
{
    let mut samples = Vec::with_capacity(alloc, differences.len())?;
    push_sums(&mut samples, differences, source)?;
    Ok(Bytes::from_vec(samples))
}

/// What an inter frame has after its first byte.
#[tactic(auto, unfolding(crate::specs::Plain::inter_of))]
fn read_inter(
    alloc: Global,
    source: Option<&RawPicture>,
    rest: &[u8],
) -> Result<RawPicture, DecodeFault>
    requires { IfSome (option_copied source) IsRaw }
    ensures says { DecodesAs (inter_of (option_copied source.entry) rest.now) result }
    ensures whole { IfOk result IsRaw }
{
    let Some(source) = source else {
        return Err(DecodeFault::Bad(Fault::NoReference));
    };
    if let Some(fault) = count_fault(source.width, source.height, rest.len()) {
        return Err(DecodeFault::Bad(fault));
    }
    let samples = moved(alloc, rest, source.samples.as_slice()).map_err(|_| DecodeFault::Memory)?;
    Ok(RawPicture {
        width: source.width,
        height: source.height,
        samples,
    })
}

/// The picture that a frame leads to from a source.
#[tactic(auto, unfolding(crate::specs::Plain::raw_of_frame))]
pub(crate) fn read(
    alloc: Global,
    source: Option<&RawPicture>,
    bytes: &[u8],
) -> Result<RawPicture, DecodeFault>
    requires { IfSome (option_copied source) IsRaw }
    ensures says { DecodesAs (raw_of_frame (option_copied source.entry) bytes.now) result }
    ensures whole { IfOk result IsRaw }
{
    let Some((first, rest)) = bytes.split_first() else {
        return Err(DecodeFault::Bad(Fault::Short));
    };
    match *first {
        KEY => read_key(alloc, rest),
        INTER => read_inter(alloc, source, rest),
        _ => Err(DecodeFault::Bad(Fault::BadStart)),
    }
}
