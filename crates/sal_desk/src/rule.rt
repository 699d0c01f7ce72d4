//! The rule of the desk's table, and its kinds of step.
//!
//! Word 0 counts the tickets and word 1 the calls that are finished. The one slot holds the machine and its history, and
//! lies with the seat whose ticket is the number of finished calls.

use crate::machine::Machine;
use crate::view::{Kept, View};
use atomic_table::{Join, Play, Seat, Split, TableRule};
use std::marker::PhantomData;
use std::snapshot::Snapshot;

/// The rule. Its key is the machine as the desk was made over it.
pub struct Turns<M> {
    machine: PhantomData<M>,
}

impl<M: Machine> TableRule<Option<Kept<M, M::Entry>>, View<M, M::Entry>, Snapshot<M>> for Turns<M> {
    ghost use Rattle.sal_desk.specs.Desk.{Ruled, first_view};

    ghost holds = { λ about. Ruled M.stands M.follows about.value };

    ghost first = { λ about. first_view about.value };
}

/// A ticket is drawn.
pub(crate) struct Draw<M> {
    machine: PhantomData<M>,
}

impl<M: Machine> Play<Option<Kept<M, M::Entry>>, View<M, M::Entry>> for Draw<M> {
    ghost use Rattle.sal_desk.specs.Desk.{drawn};

    ghost then = { drawn M.stands M.follows };
}

/// A seat looks whether its turn has come, and then has the slot.
pub(crate) struct Look<M> {
    machine: PhantomData<M>,
}

impl<M: Machine> Play<Option<Kept<M, M::Entry>>, View<M, M::Entry>> for Look<M> {
    ghost use Rattle.sal_desk.specs.Desk.{looked};

    ghost then = { looked M.stands M.follows };
}

/// A turn ends, and the slot is at home again.
pub(crate) struct Finish<M> {
    machine: PhantomData<M>,
}

impl<M: Machine> Play<Option<Kept<M, M::Entry>>, View<M, M::Entry>> for Finish<M> {
    ghost use Rattle.sal_desk.specs.Desk.{finished};

    ghost then = { finished M.stands M.follows };
}

/// What two seats had seen is compared.
pub(crate) struct Compare<M> {
    machine: PhantomData<M>,
}

impl<M: Machine> Play<Option<Kept<M, M::Entry>>, View<M, M::Entry>> for Compare<M> {
    ghost use Rattle.sal_desk.specs.Desk.{learned};

    ghost then = { learned M.stands M.follows };
}

/// A seat is split off.
pub(crate) struct Part;

impl<M, E> Split<View<M, E>> for Part {
    ghost use Rattle.sal_desk.specs.Desk.{parting, newcomer};

    ghost left = { parting };

    ghost right = { newcomer };
}

/// A seat is joined into another.
pub(crate) struct Merge;

impl<M, E> Join<View<M, E>> for Merge {
    ghost use Rattle.sal_desk.specs.Desk.{joining, spent_view};

    ghost both = { joining };

    ghost spent = { spent_view };
}

/// A seat of the table.
pub(crate) type Place<M, E> = Seat<Option<Kept<M, E>>, View<M, E>>;
