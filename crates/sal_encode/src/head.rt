//! What stands before the partitions of a frame (RFC 6386, section 9.1).

ghost use Rattle.std.specs.Prelude.{◌≡◌, ◌<◌, ◌+◌, ◌*◌, [], ◌∷◌, ◌++◌, IfOk, OnOk, length, if◌then◌else◌};
ghost use Rattle.sal_bool.specs.Syntax.{bit_of};
ghost use Rattle.sal_encode.specs.FrameBytes.{low_bytes, head_bytes};

use sal_base::{Bytes, Memory};
use std::alloc::Global;

// The tag: three bytes, lowest first.
fn tag(key: bool, shown: bool, first: u32) -> [u8; 3]
    requires { first < 524288 }
    ensures { result ≡ low_bytes 3 ((if key then 0 else 1) + 16 * bit_of shown + 32 * first) }
{
    let kind = if key { 0 } else { 1 };
    let word = kind + 16 * shown as u32 + 32 * first;
    [
        (word % 256) as u8,
        (word / 256 % 256) as u8,
        (word / 256 / 256 % 256) as u8,
    ]
}

// The start code of a key frame, and its sides.
fn start(width: u16, height: u16) -> [u8; 7]
    ensures { result ≡ 0x9d ∷ 0x01 ∷ 0x2a ∷ (low_bytes 2 width ++ low_bytes 2 height) }
{
    [
        0x9d,
        0x01,
        0x2a,
        (width % 256) as u8,
        (width / 256 % 256) as u8,
        (height % 256) as u8,
        (height / 256 % 256) as u8,
    ]
}

// The bytes before the partitions.
fn head(
    alloc: Global,
    key: bool,
    shown: bool,
    first: u32,
    width: u16,
    height: u16,
) -> Result<Bytes, Memory>
    requires { first < 524288 }
    ensures { IfOk result (λ b. b ≡ head_bytes key shown first (width, height)) }
{
    let mut bytes = Bytes::from_slice(alloc, &tag(key, shown, first))?;
    if key {
        bytes.extend(&start(width, height))?;
    }
    Ok(bytes)
}

/// The bytes of a frame: what stands before the partitions, the first one, and that of the tokens.
#[tactic(auto, using(std::proofs::Common::append_assoc))]
pub(crate) fn frame_bytes(
    alloc: Global,
    key: bool,
    shown: bool,
    width: u16,
    height: u16,
    first: &[u8],
    tokens: &[u8],
) -> Result<Bytes, Memory>
    requires { length first.now < 524288 }
    ensures { IfOk result (λ b. b ≡ head_bytes key shown (length first.now) (width, height) ++ (first.now ++ tokens.now)) }
{
    let mut bytes = head(alloc, key, shown, first.len() as u32, width, height)?;
    bytes.extend(first)?;
    bytes.extend(tokens)?;
    Ok(bytes)
}
