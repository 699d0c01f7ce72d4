//! The states that a receiver holds.

ghost use Rattle.std.specs.Prelude.{◌≡◌, ◌∷◌, ◌++◌, ◌<◌, ◌≤◌, [], length};

use crate::name::Name;
use std::marker::Model;

/// The frame numbers of the states that are held, each with the name of its state, at most 16: what a receiver says in an
/// acknowledgement. Contracts see them as a list. (An `ArrayVec` would want a `Name` to have a default.)
#[derive(Drop)]
pub struct HeldStates {
    states: [(u32, Name); 16],
    count: usize,
}

impl Model for HeldStates {
    ghost use Rattle.std.specs.Prelude.{ℕ, List, take, ◌≤◌};
    ghost use Rattle.sal_base.specs.declared.name.Name.{Name as NameData};

    ghost Value = { List (ℕ × NameData) };

    ghost view = { λ h. take h.count h.states };

    ghost invariant = { λ h. h.count ≤ 16 };
}

impl HeldStates {
    /// No states.
    pub fn new() -> Self
        ensures { result ≡ [] }
    {
        HeldStates {
            states: [(0, Name::ZERO); 16],
            count: 0,
        }
    }

    /// The frame numbers with the names of their states, lent.
    pub fn as_slice(&self) -> &[(u32, Name)]
        ensures value { result.now ≡ self.now }
        ensures fits { length result.now ≤ 16 }
    {
        &self.states[..self.count]
    }

    /// Adds a state at the end, where there is room.
    pub fn push(&mut self, number: u32, name: Name)
        requires { length self.old < 16 }
        ensures { self.new ≡ self.old ++ (number, name) ∷ [] }
    {
        self.states[self.count] = (number, name);
        self.count += 1;
    }
}
