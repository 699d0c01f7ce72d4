//! A frame that is handed out, and its decoding.

ghost use Rattle.std.specs.Prelude.{◌≡◌, ◌⊎◌, Bool, Some, IsOk};
ghost use Rattle.std.specs.Option.{option_map};
ghost use Rattle.sal_receiver.specs.Past.{Sound, NoMemory};
ghost use Rattle.sal_receiver.specs.Handed.{IsRun, handed_as};
ghost use Rattle.sal_receiver.specs.Outcome.{outcome_unshared, IsShared};
ghost use Rattle.sal_receiver.specs.Ready.{decoding_of};

use crate::pending_frame::DecodeTask;
use crate::shares::Shares;
use sal_base::{DecodeFault, Decoded, Fault, Name, Picture};
use sal_codec::Codec;
use std::alloc::Global;
use std::marker::Model;
use std::sync::Arc;

/// What came of decoding a frame.
#[derive(Drop)]
pub enum DecodeOutcome<S> {
    /// A share of the new state for each number of the window, the state's digest, and the picture.
    Frame(Shares<S>, [u8; 32], Picture),
    /// The bytes are no frame of the source, for this reason.
    Fault(Fault),
    /// The bytes are a frame of the source, and there was no memory for decoding it.
    NoMemory,
}

/// A frame that is ready to be decoded, with its own share of the state that it is decoded from.
#[derive(Drop)]
pub struct Ready<C: Codec> {
    task: DecodeTask<Arc<C::State>>,
}

impl<C: Codec> Model for Ready<C> {
    ghost use Rattle.std.specs.Arc.{arc_value};
    ghost use Rattle.sal_receiver.specs.Handed.{HandedFrame};

    ghost Value = { HandedFrame C.State };

    ghost view = { λ r. record { number = r.task.number; target = r.task.target.0; source = arc_value r.task.source; bytes = r.task.bytes } };
}

/// A frame that was handed out, and what came of decoding it. Only `Ready::run` makes one, and the outcome is the codec's
/// decoding of the frame from its source, or want of memory where the bytes are a frame of it.
#[derive(Drop)]
pub struct Decoding<C: Codec> {
    ready: Ready<C>,
    outcome: DecodeOutcome<C::State>,
}

impl<C: Codec> Model for Decoding<C> {
    ghost use Rattle.sal_receiver.specs.Handed.{DecodedFrame, IsRun};

    ghost Value = { DecodedFrame C.State };

    ghost use Rattle.sal_receiver.specs.Outcome.{outcome_unshared, IsShared};

    ghost view = { λ d. record { handed = d.ready; outcome = outcome_unshared d.outcome } };

    ghost invariant = { λ d. IsRun C.coding d.ready (outcome_unshared d.outcome) × IsShared C.coding d.outcome };
}

impl<C: Codec> Ready<C> {
    /// The frame number, from 1 to `MAX_FRAMES`.
    pub fn number(&self) -> u32
        ensures { result ≡ self.now.number }
    {
        self.task.number
    }

    /// The name of the state that decoding should give.
    pub fn target(&self) -> Name
        ensures { result.0 ≡ self.now.target }
    {
        self.task.target
    }

    /// Decodes the frame. A fault of the bytes is told as it is; memory may be wanting only where there is none.
    pub fn run(self, alloc: Global, codec: &C) -> Decoding<C>
        ensures handed { result.handed ≡ self }
        ensures run { IsRun C.coding result.handed result.outcome }
    {
        let outcome = ran(alloc, codec, &self.task.source, self.task.bytes.as_slice());
        Decoding {
            ready: self,
            outcome,
        }
    }

    /// The frame as it is kept, with its share of the source.
    pub(crate) fn into_task(self) -> DecodeTask<Arc<C::State>>
        ensures { handed_as result ≡ self }
    {
        self.task
    }
}

impl<C: Codec> Decoding<C> {
    /// The frame number, from 1 to `MAX_FRAMES`.
    pub fn number(&self) -> u32
        ensures { result ≡ self.now.handed.number }
    {
        self.ready.number()
    }

    /// What came of decoding the frame.
    pub fn outcome(&self) -> &DecodeOutcome<C::State>
        ensures outcome { outcome_unshared result.now ≡ self.now.outcome }
        ensures shared { IsShared C.coding result.now }
    {
        &self.outcome
    }

    /// The frame that was handed out, and what came of it.
    pub(crate) fn into_parts(self) -> (Ready<C>, DecodeOutcome<C::State>)
        ensures handed { result.0 ≡ self.handed }
        ensures outcome { outcome_unshared result.1 ≡ self.outcome }
        ensures run { IsRun C.coding self.handed self.outcome }
        ensures shared { IsShared C.coding result.1 }
    {
        (self.ready, self.outcome)
    }
}

/// What was handed out, as a frame that is ready.
pub(crate) fn ready_of<C: Codec>(task: Option<DecodeTask<Arc<C::State>>>) -> Option<Ready<C>>
    ensures { result ≡ option_map handed_as task }
{
    match task {
        Some(task) => Some(Ready { task }),
        None => None,
    }
}

// What comes of a decoded frame, whose state is shared.
fn framed<C: Codec>(alloc: Global, codec: &C, decoded: Decoded<C::State>) -> DecodeOutcome<C::State>
    ensures made { (outcome_unshared result ≡ Sound decoded.state decoded.picture) ⊎ (outcome_unshared result ≡ NoMemory) }
    ensures shared { IsShared C.coding result }
{
    let digest = codec.digest(&decoded.state);
    match Shares::new(alloc, decoded.state) {
        Ok(shares) => DecodeOutcome::Frame(shares, digest, decoded.picture),
        Err(_) => DecodeOutcome::NoMemory,
    }
}

// What comes of decoding a frame from a state.
fn ran<C: Codec>(
    alloc: Global,
    codec: &C,
    source: &C::State,
    bytes: &[u8],
) -> DecodeOutcome<C::State>
    ensures run { (ran : Bool) × (outcome_unshared result ≡ decoding_of C.coding (Some source.now) bytes.now ran) }
    ensures wanting { outcome_unshared result ≡ NoMemory → IsOk (C.coding.decode source.now bytes.now) }
    ensures shared { IsShared C.coding result }
{
    match codec.decode(alloc, source, bytes) {
        Ok(decoded) => framed(alloc, codec, decoded),
        Err(DecodeFault::Bad(fault)) => DecodeOutcome::Fault(fault),
        Err(DecodeFault::Memory) => DecodeOutcome::NoMemory,
    }
}
