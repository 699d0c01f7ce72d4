//! The references after a frame (RFC 6386, sections 9.7 and 9.8).

ghost use Rattle.std.specs.Prelude.{◌≡◌, ℕ, IfOk, IfSome, false, Some, if◌then◌else◌};
ghost use Rattle.std.specs.Arc.{arc_value};
ghost use Rattle.std.specs.Option.{option_copied};
ghost use Rattle.sal_base.specs.declared.picture.Planes.{Planes as PlanesData};
ghost use Rattle.sal_base.specs.Picture.{AreSides};
ghost use Rattle.sal_base.specs.Pictures.{blocks_of};
ghost use Rattle.sal_state.specs.States.{HasBlocks, AreReferences};
ghost use Rattle.sal_frame.specs.After.{copied, all_new, with_copies, some_new, references_from};
ghost use Rattle.sal_frame.specs.Refreshing.{refreshes};

use sal_base::Memory;
use sal_header::Header;
use sal_state::{Reference, References};
use std::sync::Arc;

/// Whether a frame makes a new reference: all key frames, and inter frames that refresh one.
pub fn refreshes(header: &Header) -> bool
    ensures { result ≡ refreshes header.now }
{
    header.key || header.refresh_last || header.refresh_golden || header.refresh_alt
}

// What a copy flag says of a reference: 1 and 2 name the others, 0 and 3 leave it.
fn copied(
    flag: u8,
    old: &Arc<Reference>,
    first: &Arc<Reference>,
    second: &Arc<Reference>,
) -> Result<Arc<Reference>, Memory>
    ensures whole { (columns rows : ℕ) → HasBlocks columns rows (arc_value old.now) → HasBlocks columns rows (arc_value first.now) → HasBlocks columns rows (arc_value second.now) → IfOk result (λ r. HasBlocks columns rows (arc_value r)) }
    ensures share { IfOk result (λ r. arc_value r ≡ copied flag (arc_value old.now) (arc_value first.now) (arc_value second.now)) }
{
    let chosen = match flag {
        1 => first,
        2 => second,
        _ => old,
    };
    Ok(Arc::try_clone(chosen)?)
}

// A share of the new reference where it is refreshed, else what was kept.
fn refreshed(
    refresh: bool,
    new: &Arc<Reference>,
    kept: Arc<Reference>,
) -> Result<Arc<Reference>, Memory>
    ensures whole { (columns rows : ℕ) → HasBlocks columns rows (arc_value new.now) → HasBlocks columns rows (arc_value kept) → IfOk result (λ r. HasBlocks columns rows (arc_value r)) }
    ensures share { IfOk result (λ r. arc_value r ≡ (if refresh then arc_value new.now else arc_value kept)) }
{
    if refresh {
        Ok(Arc::try_clone(new)?)
    } else {
        Ok(kept)
    }
}

// The new reference three times, as after a key frame.
fn all_new(width: u16, height: u16, new: &Arc<Reference>) -> Result<References, Memory>
    requires sides { AreSides width height }
    requires blocks { HasBlocks (blocks_of width) (blocks_of height) (arc_value new.now) }
    ensures whole { IfOk result AreReferences }
    ensures size { IfOk result (λ r. (r.width ≡ width) × (r.height ≡ height)) }
    ensures after { IfOk result (λ r. r ≡ all_new width height (arc_value new.now)) }
{
    Ok(References {
        width,
        height,
        last: Arc::try_clone(new)?,
        golden: Arc::try_clone(new)?,
        alt: Arc::try_clone(new)?,
    })
}

// The references after an inter frame.
fn some_new(old: &References, header: &Header, new: &Arc<Reference>) -> Result<References, Memory>
    requires old { AreReferences old.now }
    requires blocks { HasBlocks (blocks_of old.now.width) (blocks_of old.now.height) (arc_value new.now) }
    ensures whole { IfOk result AreReferences }
    ensures size { IfOk result (λ r. (r.width ≡ old.now.width) × (r.height ≡ old.now.height)) }
    ensures after { IfOk result (λ r. r ≡ some_new header.now old.now.width old.now.height (arc_value new.now) old.now) }
{
    let References {
        width,
        height,
        last,
        golden,
        alt,
    } = with_copies(old, header)?;
    Ok(References {
        width,
        height,
        last: refreshed(header.refresh_last, new, last)?,
        golden: refreshed(header.refresh_golden, new, golden)?,
        alt: refreshed(header.refresh_alt, new, alt)?,
    })
}

/// The references with the copies that an inter frame makes, which are of those before it. Where it refreshes none, these are the
/// references after it, and no planes are made anew.
pub fn with_copies(old: &References, header: &Header) -> Result<References, Memory>
    requires old { AreReferences old.now }
    ensures whole { IfOk result AreReferences }
    ensures copies { IfOk result (λ r. r ≡ with_copies header.now old.now) }
    ensures after { refreshes header.now ≡ false → (p : PlanesData) → IfOk result (λ r. r ≡ references_from header.now old.now.width old.now.height p (Some old.now)) }
{
    let last = Arc::try_clone(&old.last)?;
    let golden = copied(header.copy_golden, &old.golden, &old.last, &old.alt)?;
    let alt = copied(header.copy_alt, &old.alt, &old.last, &old.golden)?;
    Ok(References {
        width: old.width,
        height: old.height,
        last,
        golden,
        alt,
    })
}

/// The references after a frame whose planes are the new reference: all of them after a key frame, else those that it
/// refreshes; copies are of the references before it.
pub fn references_after(
    old: Option<&References>,
    header: &Header,
    width: u16,
    height: u16,
    new: &Arc<Reference>,
) -> Result<References, Memory>
    requires size { IfSome (option_copied old) (λ r. header.now.key ≡ false → (width ≡ r.width) × (height ≡ r.height)) }
    requires old { IfSome (option_copied old) AreReferences }
    requires sides { AreSides width height }
    requires blocks { HasBlocks (blocks_of width) (blocks_of height) (arc_value new.now) }
    ensures after { IfOk result (λ r. r ≡ references_from header.now width height (arc_value new.now) (option_copied old.entry)) }
    ensures whole { IfOk result AreReferences }
    ensures size { IfOk result (λ r. (r.width ≡ width) × (r.height ≡ height)) }
{
    match old {
        Some(old) if !header.key => some_new(old, header, new),
        _ => all_new(width, height, new),
    }
}
