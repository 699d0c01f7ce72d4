//! The codec without compression.

ghost use Rattle.std.specs.Prelude.{◌≡◌, IfOk, IfSome, OnOk, Some};
ghost use Rattle.std.specs.Option.{option_copied};
ghost use Rattle.sal_codec.specs.Raw.{IsRaw};
ghost use Rattle.sal_codec.specs.Plain.{plain, frame_of, led_to, Shows};
ghost use Rattle.sal_codec.specs.PlainLaws.{plain_lawful};

use crate::codec::Codec;
use crate::frame::{inter_bytes, key_bytes, read, sides_bytes};
use crate::raw::RawPicture;
use sal_base::{Bytes, DecodeFault, Decoded, Encoding, Kind, Memory, Picture};
use sha2::{Digest, Sha256};
use std::alloc::Global;
use std::marker::Model;

/// The codec without compression: a key frame has the samples, an inter frame their differences from the picture before.
/// It doesn't use the quantiser and is never oversize.
#[derive(Clone, Copy, Debug)]
pub struct Plain;

/// The picture shown last, or none; contracts see its sides and samples.
#[derive(Debug, Drop)]
pub struct PlainState {
    picture: Option<RawPicture>,
}

impl Model for PlainState {
    ghost use Rattle.std.specs.Prelude.{Option, IfSome};
    ghost use Rattle.sal_codec.specs.declared.raw.RawPicture.{RawPicture};
    ghost use Rattle.sal_codec.specs.Raw.{IsRaw};

    ghost Value = { Option RawPicture };

    ghost view = { λ s. s.picture };

    ghost invariant = { λ s. IfSome s.picture IsRaw };
}

impl PlainState {
    fn of(picture: RawPicture) -> PlainState
        requires { IsRaw picture }
        ensures { result ≡ Some picture }
    {
        PlainState {
            picture: Some(picture),
        }
    }
}

/// The frame of a picture, from a source for an inter frame.
fn frame_bytes(
    alloc: Global,
    target: &RawPicture,
    source: Option<&RawPicture>,
    kind: Kind,
) -> Result<Bytes, Memory>
    requires whole { IsRaw target.now }
    requires size { kind ≡ Kind.Inter → IfSome (option_copied source) (Shows target.now.width target.now.height) }
    ensures bytes { IfOk result (λ b. b ≡ frame_of target.now (option_copied source.entry) kind) }
    ensures led { OnOk result (led_to target.now (option_copied source.entry) kind ≡ target.now) }
{
    match (kind, source) {
        (Kind::Inter, Some(source)) => inter_bytes(
            alloc,
            target.samples.as_slice(),
            source.samples.as_slice(),
        ),
        _ => key_bytes(alloc, target),
    }
}

impl Codec for Plain {
    type State = PlainState;

    ghost coding = { plain };

    fn initial(&self, _alloc: Global) -> Result<PlainState, Memory> {
        Ok(PlainState { picture: None })
    }

    fn encode(
        &self,
        alloc: Global,
        state: &PlainState,
        picture: &Picture,
        _q: u8,
        kind: Kind,
    ) -> Result<Encoding<PlainState>, Memory> {
        let target = RawPicture::from_picture(alloc, picture)?;
        let bytes = frame_bytes(alloc, &target, state.picture.as_ref(), kind)?;
        let recon = target.to_picture(alloc)?;
        Ok(Encoding::Frame {
            bytes,
            target: PlainState::of(target),
            recon,
        })
    }

    fn decode(
        &self,
        alloc: Global,
        state: &PlainState,
        bytes: &[u8],
    ) -> Result<Decoded<PlainState>, DecodeFault> {
        let next = read(alloc, state.picture.as_ref(), bytes)?;
        let picture = next.to_picture(alloc).map_err(|_| DecodeFault::Memory)?;
        Ok(Decoded {
            state: PlainState::of(next),
            picture,
            shown: true,
        })
    }

    fn digest(&self, state: &PlainState) -> [u8; 32] {
        let Some(picture) = &state.picture else {
            return [0; 32];
        };
        let sides = sides_bytes(picture.width, picture.height);
        let mut hasher = Sha256::new();
        hasher.update(sides.as_slice());
        hasher.update(picture.samples.as_slice());
        hasher.finalize()
    }

    ghost lawful = { plain_lawful };
}
