//! The next state (RFC 6386, sections 9.3, 9.4, 9.7 and 9.11).

ghost use Rattle.std.specs.Prelude.{◌≡◌, ◌*◌, ◌<◌, All, IfOk, IfSome, true, false, length, None};
ghost use Rattle.std.specs.Option.{option_copied};
ghost use Rattle.sal_base.specs.Picture.{AreSides};
ghost use Rattle.sal_base.specs.Pictures.{blocks_of};
ghost use Rattle.sal_probs.specs.Probabilities.{kept};
ghost use Rattle.sal_state.specs.States.{HasBlocks, AreReferences};
ghost use Rattle.sal_frame.specs.Records.{Record};
ghost use Rattle.sal_frame.specs.After.{kept_from, map_after, references_from, state_from, state_after, planes_of};

use crate::after::{references_after, refreshes, with_copies};
use sal_base::{Bytes, Memory, Planes};
use sal_header::{Header, Kept};
use sal_probs::Probs;
use sal_state::{Reference, References, State};
use std::alloc::Global;

// What later headers and macroblocks are read over.
fn kept_from(header: &Header, map: Bytes, probs: Probs) -> Kept
    ensures after { result ≡ kept_from header.now map probs }
    ensures map { result.map ≡ map }
{
    Kept {
        absolute: header.absolute,
        quantisers: header.quantisers,
        levels: header.levels,
        ref_deltas: header.ref_deltas,
        mode_deltas: header.mode_deltas,
        bias_golden: header.bias_golden,
        bias_alt: header.bias_alt,
        map,
        probs,
    }
}

// The references after a frame; planes become a reference only where the frame refreshes one.
fn next_references(
    alloc: Global,
    old: Option<&References>,
    header: &Header,
    width: u16,
    height: u16,
    planes: Planes,
) -> Result<References, Memory>
    requires first { option_copied old ≡ None → header.now.key ≡ true }
    requires size { IfSome (option_copied old) (λ r. header.now.key ≡ false → (width ≡ r.width) × (height ≡ r.height)) }
    requires old { IfSome (option_copied old) AreReferences }
    requires sides { AreSides width height }
    requires blocks { HasBlocks (blocks_of width) (blocks_of height) planes }
    ensures after { IfOk result (λ r. r ≡ references_from header.now width height planes (option_copied old.entry)) }
    ensures whole { IfOk result AreReferences }
    ensures size { IfOk result (λ r. (r.width ≡ width) × (r.height ≡ height)) }
{
    match old {
        Some(kept) if !refreshes(header) => with_copies(kept, header),
        _ => {
            let new = Reference::new(alloc, planes)?;
            references_after(old, header, width, height, &new)
        }
    }
}

/// The state after a frame: what its header, its planes after filtering, its segment map and the probabilities that are kept of it
/// lead to.
pub fn next_state(
    alloc: Global,
    old: &State,
    header: &Header,
    width: u16,
    height: u16,
    planes: Planes,
    map: Bytes,
    probs: Probs,
) -> Result<State, Memory>
    requires first { old.now.references ≡ None → header.now.key ≡ true }
    requires size { IfSome old.now.references (λ r. header.now.key ≡ false → (width ≡ r.width) × (height ≡ r.height)) }
    requires sides { AreSides width height }
    requires blocks { HasBlocks (blocks_of width) (blocks_of height) planes }
    requires map { length map ≡ blocks_of width * blocks_of height }
    requires segments { All (λ segment. segment < 4) map }
    ensures from { IfOk result (λ s. s ≡ state_from header.now width height planes map probs old.now.references) }
    ensures after { (f : Record) → f.header ≡ header.now → f.width ≡ width → f.height ≡ height → planes ≡ planes_of old.now.references f → map ≡ map_after f old.now.kept.map → probs ≡ kept header.now.key header.now.refresh_entropy old.now.kept.probs header.now.updates → IfOk result (λ s. s ≡ state_after old.now f) }
{
    let references = next_references(alloc, old.references(), header, width, height, planes)?;
    Ok(State::new(kept_from(header, map, probs), references))
}
