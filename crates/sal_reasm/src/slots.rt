//! Frames of which fragments came, by frame number.

ghost use Rattle.std.specs.Prelude.{◌≡◌, List, [], length, map, replicate, IfOk, true};
ghost use Rattle.sal_wire.specs.Fields.{FragmentFields, fields_of};
ghost use Rattle.sal_wire.specs.Layout.{IsFragment};
ghost use Rattle.sal_reasm.specs.Offer.{offer_answer, clash_with_taken, IsAnswer, taken_after, is_refusal};
ghost use Rattle.sal_reasm.specs.Stands.{SlotsStand};
ghost use Rattle.sal_reasm.specs.SlotTable.{frame_at};
ghost use Rattle.sal_reasm.specs.Step.{answered, unless_below, slots_raised, put_after, raised_after, slots_after};

use crate::answers::{ClashField, Offered};
use crate::slot::{Slot, clash_at, keep_from, offer_at};
use sal_base::{Memory, WINDOW};
use sal_wire::Fragment;
use std::alloc::Global;
use std::marker::Model;

/// A floor, and the frames with frame numbers from it on of which fragments came. Contracts say which fragments were taken.
#[derive(Drop)]
pub struct Slots {
    floor: u32,
    // The frame with frame number n stands at place n modulo 16.
    frames: Vec<Option<Slot>>,
}

impl Model for Slots {
    ghost use Rattle.std.specs.Prelude.{◌≡◌, length};
    ghost use Rattle.sal_base.specs.declared.limits.TheConstants.{WINDOW};
    ghost use Rattle.sal_reasm.specs.SlotTable.{SlotTable};

    ghost Value = { SlotTable };

    ghost view = { λ s. record { floor = s.floor; frames = s.frames.items } };

    ghost invariant = { λ s. length s.frames.items ≡ WINDOW };
}

// So many places without a frame.
fn no_frames(alloc: Global, count: usize) -> Result<Vec<Option<Slot>>, Memory>
    ensures { IfOk result (λ frames. frames.items ≡ replicate count None) }
{
    let mut frames = Vec::new(alloc);
    frames.reserve(count)?;
    for _ in 0..count {
        frames.push(None)?;
    }
    Ok(frames)
}

// Lets go the frames below the floor.
fn keep_all_from(frames: &mut [Option<Slot>], floor: u32)
    ensures { frames.new ≡ map (unless_below floor) frames.old }
{
    for there in frames.iter_mut() {
        keep_from(there, floor);
    }
}

impl Slots {
    /// No frames; the floor starts at 1.
    pub fn new(alloc: Global) -> Result<Slots, Memory>
        ensures { IfOk result (λ s. SlotsStand s []) }
    {
        Ok(Slots {
            floor: 1,
            frames: no_frames(alloc, WINDOW as usize)?,
        })
    }

    // Raises the floor to this number, where that is higher, and lets go the frames below it.
    fn raise_floor(&mut self, floor: u32)
        ensures { self.new ≡ slots_raised floor self.old }
    {
        if self.floor < floor {
            self.floor = floor;
            keep_all_from(self.frames.as_mut_slice(), floor);
        }
    }

    // Offers a fragment at the place of its frame.
    fn put(&mut self, alloc: Global, fragment: &Fragment) -> Result<Offered, Memory>
        requires { IsFragment (fields_of fragment.now) }
        ensures answer { IsAnswer (answered (frame_at fragment.now.number self.old.frames) (fields_of fragment.now)) result }
        ensures place { self.new ≡ put_after result (fields_of fragment.now) self.old }
    {
        let place = (fragment.number % WINDOW) as usize;
        offer_at(&mut self.frames[place], alloc, fragment)
    }

    // Raises the floor after this answer.
    fn raise_after(&mut self, answer: &Offered, floor: u32)
        ensures { self.new ≡ raised_after answer.now floor self.old }
    {
        match answer {
            Offered::Stale => {}
            Offered::Clash(..) => {}
            Offered::Repeat => self.raise_floor(floor),
            Offered::Complete(_) => self.raise_floor(floor),
            Offered::Kept => self.raise_floor(floor),
        }
    }

    // Offers a fragment whose frame number isn't below the floor.
    fn take(&mut self, alloc: Global, fragment: &Fragment) -> Result<Offered, Memory>
        requires { IsFragment (fields_of fragment.now) }
        ensures answer { IsAnswer (answered (frame_at fragment.now.number self.old.frames) (fields_of fragment.now)) result }
        ensures window { self.new ≡ slots_after result (fields_of fragment.now) self.old }
    {
        let answer = self.put(alloc, fragment)?;
        self.raise_after(&answer, fragment.floor);
        Ok(answer)
    }

    /// Where a fragment differs from what is kept of its frame: nowhere, where its frame number is below the floor.
    pub fn clash(&self, fragment: &Fragment) -> Option<(ClashField, u64, u64)>
        requires { IsFragment (fields_of fragment.now) }
        ensures { (taken : List FragmentFields) → SlotsStand self.now taken → result ≡ clash_with_taken taken (fields_of fragment.now) }
    {
        if self.floor > fragment.number {
            return None;
        }
        let place = (fragment.number % WINDOW) as usize;
        clash_at(&self.frames[place], fragment)
    }

    /// Offers a fragment. What is taken raises the floor to the fragment's, where that is higher, and lets go the frames
    /// below it; a frame is kept until then. A clash and want of memory change nothing.
    pub fn offer(&mut self, alloc: Global, fragment: &Fragment) -> Result<Offered, Memory>
        requires { IsFragment (fields_of fragment.now) }
        ensures answer { (taken : List FragmentFields) → SlotsStand self.old taken → IsAnswer (offer_answer taken (fields_of fragment.now)) result }
        ensures kept { (taken : List FragmentFields) → SlotsStand self.old taken → SlotsStand self.new (taken_after result (fields_of fragment.now) taken) }
        ensures refused { is_refusal result ≡ true → self.new ≡ self.old }
    {
        if fragment.number < self.floor {
            return Ok(Offered::Stale);
        }
        self.take(alloc, fragment)
    }
}
