//! Which jobs are outstanding: handed out and not reported.

ghost use Rattle.std.specs.Prelude.{◌≡◌, ◌≤◌, ◌++◌, replicate, false, is_ok, slice_set, if◌then◌else◌};
ghost use Rattle.sal_sender.specs.Machine.{flag};

use std::alloc::AllocError;

/// Marks a job, by its id, as outstanding or not; an id that is past the list changes nothing.
#[tactic(auto, using(std::proofs::lemmas::List::set_past))]
pub(crate) fn mark(outstanding: &mut Vec<bool>, id: u32, is_outstanding: bool)
    ensures { outstanding.new.items ≡ slice_set outstanding.old.items id is_outstanding }
{
    let place = id as usize;
    if place < outstanding.len() {
        outstanding[place] = is_outstanding;
    }
}

/// Adds jobs that aren't outstanding; want of memory changes nothing.
pub(crate) fn grow(outstanding: &mut Vec<bool>, count: u32) -> Result<(), AllocError>
    requires { count ≤ 3 }
    ensures { outstanding.new.items ≡ (if is_ok result then outstanding.old.items ++ replicate count false else outstanding.old.items) }
{
    outstanding.resize(outstanding.len() + count as usize, false)
}

/// Whether the job of this id is outstanding.
pub(crate) fn is_outstanding(outstanding: &[bool], id: u32) -> bool
    ensures { result ≡ flag outstanding.now id }
{
    match outstanding.get(id as usize) {
        Some(is_outstanding) => *is_outstanding,
        None => false,
    }
}
