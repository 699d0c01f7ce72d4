//! The states that are held.

ghost use Rattle.std.specs.Prelude.{◌≡◌, ◌+◌, ◌<◌, ◌≤◌, [], map, None, IfOk};
ghost use Rattle.std.specs.Option.{option_map};
ghost use Rattle.std.specs.Arc.{arc_value};
ghost use Rattle.sal_chain.specs.Held.{inserted, with_name, with_number, number_and_name};
ghost use Rattle.sal_chain.specs.Shares.{with_state, number_and_state, name_and_state};
ghost use Rattle.sal_chain.specs.StateTable.{IsStateTable, empty_table, floor_raised};

use crate::stored_state::StoredState;
use crate::stored_states::{keep_from, numbers_and_names, put, with_name, with_number};
use sal_base::{HeldStates, Memory, Name, WINDOW};
use sal_codec::Codec;
use std::alloc::Global;
use std::marker::Model;
use std::sync::Arc;

/// States of a codec by frame number: those that were added and aren't below the floor. Their numbers stand in the window
/// of 16 from the floor on.
#[derive(Drop)]
pub struct Store<C: Codec> {
    floor: u32,
    items: Vec<StoredState<Arc<C::State>>>,
}

impl<C: Codec> Model for Store<C> {
    ghost use Rattle.std.specs.Prelude.{◌≤◌, map, vec_capacity};
    ghost use Rattle.sal_chain.specs.StateTable.{StateTable, IsStateTable};
    ghost use Rattle.sal_chain.specs.Shares.{unshared};
    ghost use Rattle.sal_base.specs.declared.limits.TheConstants.{WINDOW};

    ghost Value = { StateTable C.State };

    ghost view = { λ s. record { floor = s.floor; kept = map unshared s.items.items } };

    ghost invariant = { λ s. IsStateTable s.floor (map unshared s.items.items) × (WINDOW ≤ vec_capacity s.items) };
}

impl<C: Codec> Store<C> {
    /// No states, with room for sixteen; the floor starts at 1.
    pub fn new(alloc: Global) -> Result<Store<C>, Memory>
        ensures { IfOk result (λ s. s ≡ empty_table) }
    {
        let mut items = Vec::new(alloc);
        items.reserve(WINDOW as usize)?;
        Ok(Store { floor: 1, items })
    }

    /// Keeps a state under a frame number of the window that isn't held; it takes no memory.
    pub fn add(&mut self, number: u32, name: Name, state: Arc<C::State>)
        requires floor { self.old.floor ≤ number }
        requires window { number < self.old.floor + WINDOW }
        requires fresh { with_number number self.old.kept ≡ None }
        ensures { self.new ≡ record self.old { kept = inserted (record { number = number; name = name; state = arc_value state }) self.old.kept } }
    {
        let kept = StoredState {
            number,
            name,
            state,
        };
        put(&mut self.items, kept);
    }

    /// The least frame number whose state has this name, with the state.
    pub fn find(&self, name: Name) -> Option<(u32, &Arc<C::State>)>
        ensures { option_map with_state result ≡ option_map number_and_state (with_name name.0 self.now.kept) }
    {
        match with_name(self.items.as_slice(), &name) {
            Some(kept) => Some((kept.number, &kept.state)),
            None => None,
        }
    }

    /// The name and the state of this frame number.
    pub fn get(&self, number: u32) -> Option<(Name, &Arc<C::State>)>
        ensures { option_map with_state result ≡ option_map name_and_state (with_number number self.now.kept) }
    {
        match with_number(self.items.as_slice(), number) {
            Some(kept) => Some((kept.name, &kept.state)),
            None => None,
        }
    }

    /// Raises the floor to this number, where that is higher, and lets go what stands below it.
    pub fn raise_floor(&mut self, floor: u32)
        ensures { self.new ≡ floor_raised floor self.old }
    {
        self.floor = self.floor.max(floor);
        keep_from(&mut self.items, self.floor);
    }

    /// The frame numbers held, in rising order, with the names of their states.
    pub fn held(&self) -> HeldStates
        ensures value { result ≡ map number_and_name self.now.kept }
        ensures table { IsStateTable self.now.floor self.now.kept }
    {
        numbers_and_names(self.items.as_slice())
    }
}
