//! What a job gave.

ghost use Rattle.std.specs.Prelude.{◌≡◌};
ghost use Rattle.sal_sender.specs.JobWork.{gave_of};

use sal_base::{Bytes, Picture};

/// What a job gave; T is a share of a state.
#[derive(Drop)]
pub enum Outcome<T> {
    /// The frame's bytes, the state that they lead to, and the picture that a decoder of them shows.
    Frame(Bytes, T, Picture),
    /// The first partition would have this many bytes: at least 524,288, which is more than its field can say.
    Oversize(u32),
    /// There was no memory to encode it.
    NoMemory,
}

/// What a job gave, without the frame itself.
#[derive(Clone, Copy, Debug, PartialEq, Eq)]
pub enum Gave {
    /// A frame.
    Frame,
    /// No frame, since its first partition would be too long.
    Oversize,
    /// No frame, since there was no memory to encode it.
    NoMemory,
}

impl<T> Outcome<T> {
    /// What it is, without the frame itself.
    pub fn gave(&self) -> Gave
        ensures { result ≡ gave_of self.now }
    {
        match self {
            Outcome::Frame(_, _, _) => Gave::Frame,
            Outcome::Oversize(_) => Gave::Oversize,
            Outcome::NoMemory => Gave::NoMemory,
        }
    }
}
