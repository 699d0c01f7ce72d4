//! Stored states in rising order of their frame numbers.

ghost use Rattle.std.specs.Prelude.{◌≡◌, ◌<◌, ◌≤◌, length, map, vec_len, vec_capacity, position, nat_lt};
ghost use Rattle.std.specs.Option.{option_copied};
ghost use Rattle.sal_chain.specs.Held.{inserted, not_below, with_name, with_number, number_and_name, place_in};

use crate::stored_state::StoredState;
use sal_base::{HeldStates, Name, WINDOW};

// The place of the first one with a higher number.
fn first_above<T>(items: &[StoredState<T>], number: u32) -> Option<usize>
    ensures { result ≡ position (λ k. nat_lt number k.number) items.now }
{
    items.iter().position(|k| number < k.number)
}

// How many of these stand before the first one with a higher number.
#[tactic(auto, using(crate::proofs::TableLemmas::place_or))]
fn place_of<T>(items: &[StoredState<T>], number: u32) -> usize
    ensures { result ≡ place_in number items.now }
{
    first_above(items, number).unwrap_or(items.len())
}

/// Puts a state at its place, where there is room.
pub(crate) fn put<T: Drop>(items: &mut Vec<StoredState<T>>, k: StoredState<T>)
    requires { vec_len items.old < vec_capacity items.old }
    ensures kept { items.new.items ≡ inserted k items.old.items }
    ensures room { vec_capacity items.old ≤ vec_capacity items.new }
{
    let at = place_of(items.as_slice(), k.number);
    items.insert(at, k).unwrap();
}

/// Lets go what stands below the floor.
pub(crate) fn keep_from<T: Drop>(items: &mut Vec<StoredState<T>>, floor: u32)
    ensures kept { items.new.items ≡ not_below floor items.old.items }
    ensures room { vec_capacity items.new ≡ vec_capacity items.old }
{
    items.retain(|k| floor <= k.number);
}

/// The first one of this name.
pub(crate) fn with_name<'a, T>(
    items: &'a [StoredState<T>],
    name: &Name,
) -> Option<&'a StoredState<T>>
    ensures { option_copied result ≡ with_name name.now.0 items.now }
{
    items.iter().find(|k| k.name == *name)
}

/// The one of this number.
pub(crate) fn with_number<T>(items: &[StoredState<T>], number: u32) -> Option<&StoredState<T>>
    ensures { option_copied result ≡ with_number number items.now }
{
    items.iter().find(|k| k.number == number)
}

/// The frame numbers with the names of their states.
pub(crate) fn numbers_and_names<T>(items: &[StoredState<T>]) -> HeldStates
    requires { length items.now ≤ WINDOW }
    ensures { result ≡ map number_and_name items.now }
{
    let mut out = HeldStates::new();
    for k in items {
        out.push(k.number, k.name);
    }
    out
}
