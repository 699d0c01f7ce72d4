//! Frames in rising order of numbers.

ghost use Rattle.std.specs.Prelude.{◌≡◌, ◌+◌, ◌<◌, ◌≤◌, true, if◌then◌else◌, map, vec_len, vec_capacity, position, nat_lt, ◌==◌};
ghost use Rattle.std.specs.Option.{option_copied};
ghost use Rattle.std.specs.Arc.{arc_value};
ghost use Rattle.sal_receiver.specs.Pending.{at, frame_inserted, place_in, without, restaged, left_from, first_ready, is_ready_stage, task_in, out_first, frame_unshared, fed, fed_one, wants, wanting, is_out_at};

use crate::pending_frame::{DecodeTask, PendingFrame, Stage};
use crate::shares::Shares;
use sal_base::Name;
use std::mem::replace;
use std::sync::Arc;

// The place of the first one with a higher number.
fn first_above<T>(items: &[PendingFrame<T>], number: u32) -> Option<usize>
    ensures { result ≡ position (λ p. nat_lt number p.number) items.now }
{
    items.iter().position(|p| number < p.number)
}

// How many of these stand before the first one with a higher number.
#[tactic(auto, using(crate::proofs::FrameLemmas::place_or))]
fn place_of<T>(items: &[PendingFrame<T>], number: u32) -> usize
    ensures { result ≡ place_in number items.now }
{
    first_above(items, number).unwrap_or(items.len())
}

/// Puts a frame at its place, where there is room.
pub(crate) fn put<T: Drop>(items: &mut Vec<PendingFrame<T>>, p: PendingFrame<T>)
    requires { vec_len items.old < vec_capacity items.old }
    ensures { items.new.items ≡ frame_inserted p items.old.items }
{
    let at = place_of(items.as_slice(), p.number);
    items.insert(at, p).unwrap();
}

// The place of the frame of this number.
fn index_of<T>(items: &[PendingFrame<T>], number: u32) -> Option<usize>
    ensures { result ≡ position (λ p. p.number == number) items.now }
{
    items.iter().position(|p| p.number == number)
}

/// Takes out the frame of this number.
pub(crate) fn remove<T: Drop>(items: &mut Vec<PendingFrame<T>>, number: u32)
    ensures { items.new.items ≡ without number items.old.items }
{
    if let Some(at) = index_of(items.as_slice(), number) {
        items.remove(at);
    }
}

/// Puts the frame of this number at another stage.
pub(crate) fn restage<T: Drop>(items: &mut Vec<PendingFrame<T>>, number: u32, stage: Stage<T>)
    ensures { items.new.items ≡ restaged number stage items.old.items }
{
    if let Some(at) = index_of(items.as_slice(), number) {
        items[at].stage = stage;
    }
}

/// Lets go the whole frames below the floor.
pub(crate) fn keep_from<T: Drop>(items: &mut Vec<PendingFrame<T>>, floor: u32)
    ensures kept { items.new.items ≡ left_from floor items.old.items }
    ensures room { vec_capacity items.new ≡ vec_capacity items.old }
    ensures fewer { vec_len items.new ≤ vec_len items.old }
{
    items.retain(|p| p.is_left(floor));
}

// The frame of this number.
fn frame_of<T>(items: &[PendingFrame<T>], number: u32) -> Option<&PendingFrame<T>>
    ensures { option_copied result ≡ at number items.now }
{
    items.iter().find(|p| p.number == number)
}

/// Whether the frame of this number was handed out.
pub(crate) fn is_out<T>(items: &[PendingFrame<T>], number: u32) -> bool
    ensures { result ≡ is_out_at (at number items.now) }
{
    match frame_of(items, number) {
        Some(p) => p.stage.is_out(),
        None => false,
    }
}

// The place of the first frame that waits.
fn first_place<T>(items: &[PendingFrame<T>]) -> Option<usize>
    ensures { result ≡ position (λ p. is_ready_stage p.stage) items.now }
{
    items.iter().position(|p| p.stage.is_ready())
}

/// Hands out the frame of the least number that waits.
pub(crate) fn take_first<T: Drop>(items: &mut Vec<PendingFrame<T>>) -> Option<DecodeTask<T>>
    ensures task { result ≡ task_in (first_ready items.old.items) }
    ensures out { items.new.items ≡ out_first items.old.items }
    ensures alone { result ≡ None → items.new.items ≡ items.old.items }
{
    match first_place(items.as_slice()) {
        Some(at) => items[at].hand_out(),
        None => None,
    }
}

// Gives a share to a whole frame of this source, which then waits.
fn feed_one<S: Drop>(p: &mut PendingFrame<Arc<S>>, name: &Name, shares: &mut Shares<S>)
    requires { wants name.now.0 p.old ≡ true → 0 < shares.old.others }
    ensures fed { frame_unshared p.new ≡ fed_one name.now.0 shares.old.state (frame_unshared p.old) }
    ensures state { shares.new.state ≡ shares.old.state }
    ensures left { shares.new.others + (if wants name.now.0 p.old then 1 else 0) ≡ shares.old.others }
{
    if *name != p.source {
        return;
    }
    match replace(&mut p.stage, Stage::Decoding) {
        Stage::Complete(bytes) => p.stage = Stage::Ready(shares.take(), bytes),
        other => p.stage = other,
    }
}

// Gives a share to each whole frame of this source, which then waits.
fn feed_each<S: Drop>(items: &mut [PendingFrame<Arc<S>>], name: &Name, shares: &mut Shares<S>)
    requires { wanting name.now.0 items.old ≤ shares.old.others }
    ensures fed { map frame_unshared items.new ≡ fed name.now.0 shares.old.state (map frame_unshared items.old) }
    ensures state { shares.new.state ≡ shares.old.state }
{
    for p in items.iter_mut() {
        feed_one(p, name, shares);
    }
}

/// Gives a share to each whole frame of this source, which then waits; the first share is left.
pub(crate) fn feed<S: Drop>(
    items: &mut Vec<PendingFrame<Arc<S>>>,
    name: &Name,
    mut shares: Shares<S>,
) -> Arc<S>
    requires { wanting name.now.0 items.old.items ≤ shares.others }
    ensures fed { map frame_unshared items.new.items ≡ fed name.now.0 shares.state (map frame_unshared items.old.items) }
    ensures share { arc_value result ≡ shares.state }
{
    feed_each(items.as_mut_slice(), name, &mut shares);
    shares.into_first()
}
