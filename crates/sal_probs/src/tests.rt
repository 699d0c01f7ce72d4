//! Updates, and what a frame leaves of them.

use crate::{Probs, Updates};
use std::alloc::Global;

/// The places that the updates below change, and one of each list that they don't.
fn places(probs: &Probs) -> [u8; 8] {
    let coefficients = probs.coefficients();
    let vectors = probs.vectors();
    [
        coefficients[0],
        coefficients[1055],
        coefficients[33],
        vectors[19],
        vectors[37],
        vectors[0],
        probs.y()[3],
        probs.chroma()[2],
    ]
}

fn some_updates() -> Updates {
    let mut updates = Updates::none();
    updates.coefficients[0] = Some(7);
    updates.coefficients[1055] = Some(255);
    updates.vectors[19] = Some(2);
    updates.vectors[37] = Some(1);
    updates.y = Some([1, 2, 3, 4]);
    updates.chroma = Some([5, 6, 8]);
    updates
}

/// What is read with in a frame with these updates, and what the next state has.
fn frame(alloc: Global, refresh_entropy: bool) -> Option<([u8; 8], [u8; 8])> {
    let mut probs = Probs::initial(alloc).ok()?;
    let saved = probs
        .begin_frame(alloc, &some_updates(), refresh_entropy)
        .ok()?;
    let used = places(&probs);
    Some((used, places(&probs.end_frame(saved))))
}

const DEFAULT: [u8; 8] = [128, 128, 253, 164, 254, 162, 37, 204];

const UPDATED: [u8; 8] = [7, 255, 253, 2, 1, 162, 4, 8];

#[test]
fn updates_stay_only_where_refreshed(rt: HostRuntime) {
    let alloc = rt.alloc();
    assert_eq!(rt; frame(alloc, true), Some((UPDATED, UPDATED)));
    assert_eq!(rt; frame(alloc, false), Some((UPDATED, DEFAULT)));
}

/// What a key frame and an inter frame begin with after the updates, and a copy laid aside before them.
fn bases(alloc: Global) -> Option<([u8; 8], [u8; 8], [u8; 8])> {
    let mut probs = Probs::initial(alloc).ok()?;
    let saved = probs.saved(alloc).ok()?;
    probs.apply(&some_updates());
    let key = probs.base(alloc, true).ok()?;
    let inter = probs.base(alloc, false).ok()?;
    Some((
        places(&key),
        places(&inter),
        places(&Probs::restored(saved)),
    ))
}

#[test]
fn a_key_frame_begins_with_the_defaults(rt: HostRuntime) {
    assert_eq!(rt; bases(rt.alloc()), Some((DEFAULT, UPDATED, DEFAULT)));
}
