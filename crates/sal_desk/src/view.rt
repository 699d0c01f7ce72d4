//! What the desk's rule speaks of.

use crate::history::Log;
use std::collections::LinkedList;

/// Where a seat is in a call, with its ticket.
pub enum Stage {
    Idle,
    /// It has a ticket whose turn has not come yet.
    Waiting(u64),
    /// It has the machine.
    Working(u64),
}

/// What stands at a place of a desk's history.
pub enum Item<E> {
    /// The name of the seat that made a call, and the call's entry.
    Entry(LinkedList<u64>, E),
    /// A call that was not made, since there was no memory for its entry.
    Void,
}

/// One seat's own part. No value of it is made.
pub struct Own<E> {
    /// The first seat's is empty; that of the seat that was split off another as its k-th, counted from 0, is k and then
    /// the other's.
    pub name: LinkedList<u64>,
    /// How many seats were split off it.
    pub splits: u64,
    /// The entries of its calls, in order.
    pub mine: LinkedList<E>,
}

/// What a seat knows. No value of it is made.
pub struct View<M, E> {
    pub stage: Stage,
    /// The machine as the desk was made over it. A seat that was joined into another has none.
    pub start: Option<M>,
    pub own: Own<E>,
    /// The seats that were joined into it.
    pub joined: LinkedList<Own<E>>,
    /// The history as far as it has seen it.
    pub seen: LinkedList<Item<E>>,
    /// What a seat that was joined into it had seen, until that is compared.
    pub told: LinkedList<Item<E>>,
}

/// What lies in the slot: the machine, and the history for which it stands.
#[derive(Drop)]
pub struct Kept<M, E> {
    pub machine: M,
    pub history: Log<E>,
}
