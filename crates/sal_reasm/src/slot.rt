//! What is kept of one frame.

ghost use Rattle.std.specs.Prelude.{◌≡◌, ◌∷◌, ◌++◌, ◌<◌, ◌≤◌, ◌^◌, length, replicate, get_or, set, flat_map, None, Some, IfOk, OnOk};
ghost use Rattle.std.specs.Option.{option_copied};
ghost use Rattle.sal_wire.specs.Fields.{fields_of};
ghost use Rattle.sal_wire.specs.Layout.{IsFragment};
ghost use Rattle.sal_reasm.specs.Offer.{first_difference as difference_from, data_clash};
ghost use Rattle.sal_reasm.specs.Offer.{IsAnswer};
ghost use Rattle.sal_reasm.specs.SlotTable.{PartialFrame, if_number};
ghost use Rattle.sal_reasm.specs.Step.{opened, filled, data_of, clash_with_frame, clash_with_slot, answer_of, answered, place_after, filled_after, frame_after, unless_below};

use crate::answers::{CLASH_PLACE, ClashField, Offered};
use sal_base::{Bytes, Memory, Name};
use sal_wire::{Fragment, MAX_DATA, MAX_FRAGMENTS};
use std::alloc::Global;
use std::marker::Model;

/// What is kept of one frame: the fields that its fragments share, and the data that came; at most 4,096 parts of at most
/// 1,200 bytes.
#[derive(Drop)]
pub(crate) struct Slot {
    number: u32,
    source: Name,
    target: Name,
    // How many parts are missing.
    missing: usize,
    // The data of each part that came, by index.
    parts: Vec<Option<Bytes>>,
}

impl Model for Slot {
    ghost use Rattle.std.specs.Prelude.{◌≡◌, ◌≤◌, length};
    ghost use Rattle.sal_base.specs.Lists.{Each};
    ghost use Rattle.sal_wire.specs.declared.layout.TheConstants.{MAX_FRAGMENTS};
    ghost use Rattle.sal_reasm.specs.SlotTable.{PartialFrame};
    ghost use Rattle.sal_reasm.specs.Step.{gaps, IsShort};

    ghost Value = { PartialFrame };

    ghost view = { λ s. record { number = s.number; source = s.source.0; target = s.target.0; parts = s.parts.items } };

    ghost invariant = { λ s. (s.missing ≡ gaps s.parts.items) × ((length s.parts.items ≤ MAX_FRAGMENTS) × Each IsShort s.parts.items) };
}

// The first place where two lists differ, with what stands there.
fn first_difference(field: ClashField, kept: &[u8], new: &[u8]) -> Option<(ClashField, u64, u64)>
    requires { length new.now ≤ MAX_DATA }
    ensures { result ≡ difference_from field 0 kept.now new.now }
{
    for place in 0..kept.len().min(new.len()) {
        if kept[place] != new[place] {
            let at = CLASH_PLACE * place as u64;
            return Some((field, at + kept[place] as u64, at + new[place] as u64));
        }
    }
    None
}

// Where the data of one part differs.
fn data_difference(kept: &[u8], new: &[u8]) -> Option<(ClashField, u64, u64)>
    requires { length new.now ≤ MAX_DATA }
    ensures { result ≡ data_clash (Some kept.now) new.now }
{
    if kept.len() != new.len() {
        return Some((ClashField::Length, kept.len() as u64, new.len() as u64));
    }
    first_difference(ClashField::Data, kept, new)
}

// So many missing parts.
fn no_parts(alloc: Global, count: usize) -> Result<Vec<Option<Bytes>>, Memory>
    ensures { IfOk result (λ parts. parts.items ≡ replicate count None) }
{
    let mut parts = Vec::new(alloc);
    parts.reserve(count)?;
    for _ in 0..count {
        parts.push(None)?;
    }
    Ok(parts)
}

// Adds the data of these parts at the end.
fn put_parts(out: &mut Vec<u8>, parts: &[Option<Bytes>]) -> Result<(), Memory>
    ensures { OnOk result (out.new.items ≡ out.old.items ++ flat_map data_of parts.now) }
{
    for part in parts {
        if let Some(bytes) = part {
            out.extend_from_slice(bytes.as_slice())?;
        }
    }
    Ok(())
}

// The data of all parts, with this one's at its index.
fn reassembled(
    alloc: Global,
    parts: &[Option<Bytes>],
    index: usize,
    bytes: &[u8],
) -> Result<Bytes, Memory>
    requires index { index < length parts.now }
    requires count { length parts.now ≤ MAX_FRAGMENTS }
    ensures { IfOk result (λ b. b ≡ flat_map data_of (set parts.now index (Some bytes.now))) }
{
    let mut out = Vec::new(alloc);
    out.reserve(MAX_DATA * parts.len())?;
    put_parts(&mut out, &parts[..index])?;
    out.extend_from_slice(bytes)?;
    put_parts(&mut out, &parts[index + 1..])?;
    Ok(Bytes::from_vec(out))
}

impl Slot {
    // The frame of this fragment, of which nothing came yet.
    fn new(alloc: Global, fragment: &Fragment) -> Result<Slot, Memory>
        requires { IsFragment (fields_of fragment.now) }
        ensures { IfOk result (λ s. s ≡ opened (fields_of fragment.now)) }
    {
        let count = usize::from(fragment.count);
        Ok(Slot {
            number: fragment.number,
            source: fragment.source,
            target: fragment.target,
            missing: count,
            parts: no_parts(alloc, count)?,
        })
    }

    // The data of a part, where it came.
    fn part(&self, index: u16) -> Option<&Bytes>
        ensures { option_copied result ≡ get_or self.now.parts index None }
    {
        match self.parts.as_slice().get(usize::from(index)) {
            Some(Some(bytes)) => Some(bytes),
            _ => None,
        }
    }

    // Where a fragment differs from this frame.
    fn clash(&self, fragment: &Fragment) -> Option<(ClashField, u64, u64)>
        requires { IsFragment (fields_of fragment.now) }
        ensures { result ≡ clash_with_frame self.now (fields_of fragment.now) }
    {
        let source = first_difference(ClashField::Source, &self.source.0, &fragment.source.0);
        if source.is_some() {
            return source;
        }
        let target = first_difference(ClashField::Target, &self.target.0, &fragment.target.0);
        if target.is_some() {
            return target;
        }
        let count = self.parts.len();
        if count != usize::from(fragment.count) {
            return Some((ClashField::Count, count as u64, u64::from(fragment.count)));
        }
        match self.part(fragment.index) {
            Some(kept) => data_difference(kept.as_slice(), fragment.bytes),
            None => None,
        }
    }

    // What is answered to a part that is missing.
    fn answer(&self, alloc: Global, fragment: &Fragment) -> Result<Offered, Memory>
        requires fragment { IsFragment (fields_of fragment.now) }
        requires count { length self.now.parts ≡ fragment.now.count }
        requires missing { get_or self.now.parts fragment.now.index None ≡ None }
        ensures { IsAnswer (answer_of (filled self.now (fields_of fragment.now))) result }
    {
        if self.missing != 1 {
            return Ok(Offered::Kept);
        }
        let index = usize::from(fragment.index);
        let bytes = reassembled(alloc, self.parts.as_slice(), index, fragment.bytes)?;
        Ok(Offered::Complete(bytes))
    }

    // Keeps the data of a part that is missing.
    fn fill(&mut self, alloc: Global, fragment: &Fragment) -> Result<Offered, Memory>
        requires fragment { IsFragment (fields_of fragment.now) }
        requires count { length self.old.parts ≡ fragment.now.count }
        requires missing { get_or self.old.parts fragment.now.index None ≡ None }
        ensures answer { IsAnswer (answer_of (filled self.old (fields_of fragment.now))) result }
        ensures kept { self.new ≡ filled_after result self.old (fields_of fragment.now) }
    {
        let index = usize::from(fragment.index);
        let bytes = Bytes::from_slice(alloc, fragment.bytes)?;
        let answer = self.answer(alloc, fragment)?;
        self.parts[index] = Some(bytes);
        self.missing -= 1;
        Ok(answer)
    }

    // Offers a fragment of this frame.
    fn offer(&mut self, alloc: Global, fragment: &Fragment) -> Result<Offered, Memory>
        requires { IsFragment (fields_of fragment.now) }
        ensures answer { IsAnswer (answered (Some self.old) (fields_of fragment.now)) result }
        ensures kept { self.new ≡ frame_after result (fields_of fragment.now) self.old }
    {
        if let Some((field, kept, new)) = self.clash(fragment) {
            return Ok(Offered::Clash(field, kept, new));
        }
        if self.part(fragment.index).is_some() {
            return Ok(Offered::Repeat);
        }
        self.fill(alloc, fragment)
    }
}

/// Offers a fragment at its place, where another frame may stand that is let go for it.
pub(crate) fn offer_at(
    there: &mut Option<Slot>,
    alloc: Global,
    fragment: &Fragment,
) -> Result<Offered, Memory>
    requires { IsFragment (fields_of fragment.now) }
    ensures answer { IsAnswer (answered (if_number fragment.now.number there.old) (fields_of fragment.now)) result }
    ensures place { there.new ≡ place_after result (fields_of fragment.now) there.old }
{
    match there {
        Some(slot) if slot.number == fragment.number => slot.offer(alloc, fragment),
        _ => {
            let mut slot = Slot::new(alloc, fragment)?;
            let answer = slot.fill(alloc, fragment)?;
            *there = Some(slot);
            Ok(answer)
        }
    }
}

/// Where a fragment differs from its frame, if that stands here.
pub(crate) fn clash_at(there: &Option<Slot>, fragment: &Fragment) -> Option<(ClashField, u64, u64)>
    requires { IsFragment (fields_of fragment.now) }
    ensures { result ≡ clash_with_slot (if_number fragment.now.number there.now) (fields_of fragment.now) }
{
    match there {
        Some(slot) if slot.number == fragment.number => slot.clash(fragment),
        _ => None,
    }
}

/// Lets the frame go, where its number is below the floor.
pub(crate) fn keep_from(there: &mut Option<Slot>, floor: u32)
    ensures { there.new ≡ unless_below floor there.old }
{
    if let Some(slot) = there
        && slot.number < floor
    {
        *there = None;
    }
}
