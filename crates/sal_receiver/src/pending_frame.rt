//! A complete frame that isn't decided.

ghost use Rattle.std.specs.Prelude.{◌≡◌};
ghost use Rattle.sal_receiver.specs.Pending.{is_ready_stage, is_out_stage, is_left, handed_out, task_of};

use sal_base::{Bytes, Name};
use std::mem::replace;

/// How far a complete frame has come.
#[derive(Drop)]
pub enum Stage<T> {
    /// No state of its source's name was held since it is complete: its bytes.
    Complete(Bytes),
    /// It waits to be handed out: the state that it is decoded from, and its bytes.
    Ready(T, Bytes),
    /// It was handed out, and its decoding isn't back.
    Decoding,
}

/// A complete frame whose number isn't decided.
#[derive(Drop)]
pub struct PendingFrame<T> {
    /// Its frame number, from 1 to `MAX_FRAMES`.
    pub number: u32,
    /// The name of the state that it is decoded from.
    pub source: Name,
    /// The name of the state that decoding should give.
    pub target: Name,
    /// How far it has come.
    pub stage: Stage<T>,
}

/// A frame to be decoded from a state.
#[derive(Drop)]
pub struct DecodeTask<T> {
    /// The frame number, from 1 to `MAX_FRAMES`.
    pub number: u32,
    /// The name of the state that decoding should give.
    pub target: Name,
    /// The state that the frame is decoded from.
    pub source: T,
    /// The frame's bytes, those of its fragments joined: at most `MAX_FRAGMENTS` times `MAX_DATA`.
    pub bytes: Bytes,
}

impl<T> Stage<T> {
    /// Whether the frame waits to be handed out.
    pub(crate) fn is_ready(&self) -> bool
        ensures { result ≡ is_ready_stage self.now }
    {
        matches!(self, Stage::Ready(..))
    }

    /// Whether the frame was handed out.
    pub(crate) fn is_out(&self) -> bool
        ensures { result ≡ is_out_stage self.now }
    {
        matches!(self, Stage::Decoding)
    }
}

impl<T: Drop> PendingFrame<T> {
    /// Whether a floor leaves the frame.
    pub(crate) fn is_left(&self, floor: u32) -> bool
        ensures { result ≡ is_left floor self.now.number self.now.stage }
    {
        match &self.stage {
            Stage::Complete(_) => floor <= self.number,
            _ => true,
        }
    }

    /// Hands the frame out, where it waits.
    pub(crate) fn hand_out(&mut self) -> Option<DecodeTask<T>>
        ensures task { result ≡ task_of self.old }
        ensures out { self.new ≡ handed_out self.old }
    {
        match replace(&mut self.stage, Stage::Decoding) {
            Stage::Ready(source, bytes) => Some(DecodeTask {
                number: self.number,
                target: self.target,
                source,
                bytes,
            }),
            other => {
                self.stage = other;
                None
            }
        }
    }
}
