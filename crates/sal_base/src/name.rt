//! The name of a state.

ghost use Rattle.std.specs.Prelude.{◌≡◌, replicate};

/// The name of a state, by which it is asked for: the first 8 bytes of its digest and 8 zeros.
#[derive(Clone, Copy, Debug, PartialEq, Eq)]
pub struct Name(pub [u8; 16]);

impl Name {
    /// The initial state's name.
    pub const ZERO: Name = Name([0; 16]);
}
