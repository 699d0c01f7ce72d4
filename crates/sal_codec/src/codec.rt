//! The codec as a trait: encoding and decoding are functions of a state.

ghost use Rattle.std.specs.Prelude.{◌≡◌, ℕ, List, Result, Ok, Err, IfOk};
ghost use Rattle.sal_base.specs.Picture.{IsPicture};
ghost use Rattle.sal_codec.specs.Coding.{Coding, MayEncode, IsLawful, DecodesAs, name_of};

use sal_base::{DecodeFault, Decoded, Encoding, Kind, Memory, Name, Picture};
use std::alloc::Global;

/// The name that goes with a digest: its first 8 bytes and 8 zeros.
pub fn name_of(digest: &[u8; 32]) -> Name
    ensures { result.0 ≡ name_of digest.now }
{
    let mut name = [0u8; 16];
    name[..8].copy_from_slice(&digest[..8]);
    Name(name)
}

/// Encoding and decoding from a state to a state.
///
/// Two states are equal where contracts see the same data in them, whoever shares the memory behind it.
pub trait Codec: Copy + Send + Sync {
    /// What a frame is decoded from, and what it leads to.
    type State: Send + Sync + Drop;

    // The calls as functions of the state's data.
    ghost coding: { Coding Self.State };

    /// The state before any frame.
    fn initial(&self, alloc: Global) -> Result<Self::State, Memory>
        ensures { IfOk result (λ s. s ≡ coding.initial) };

    /// Encodes a picture from a state, at a quantiser of 0 to 127; an inter frame only from a state that takes its size.
    fn encode(
        &self,
        alloc: Global,
        state: &Self::State,
        picture: &Picture,
        q: u8,
        kind: Kind,
    ) -> Result<Encoding<Self::State>, Memory>
        requires { MayEncode coding state.now picture.now q kind }
        ensures { IfOk result (λ e. e ≡ coding.encode state.now picture.now q kind) };

    /// Decodes a frame's bytes from a state, or gives their first fault; memory may be wanting only where there is none.
    fn decode(
        &self,
        alloc: Global,
        state: &Self::State,
        bytes: &[u8],
    ) -> Result<Decoded<Self::State>, DecodeFault>
        ensures says { DecodesAs (coding.decode state.now bytes.now) result }
        ensures whole { IfOk result (λ d. IsPicture d.picture) };

    /// A digest of the state's data.
    fn digest(&self, state: &Self::State) -> [u8; 32]
        ensures { result ≡ coding.digest state.now };

    /// The state's name: the first 8 bytes of its digest and 8 zeros.
    fn name(&self, state: &Self::State) -> Name
        ensures { result.0 ≡ name_of (coding.digest state.now) }
    {
        name_of(&self.digest(state))
    }

    // What was encoded is decoded to its target and its reconstruction; the initial state's digest is zeros; sizes.
    ghost lawful: { IsLawful coding };
}

/// What every codec keeps, as a fact that a caller's proof has after this call; it does nothing.
pub fn keeps_the_law<C: Codec>()
    ensures { IsLawful C.coding }
{}
