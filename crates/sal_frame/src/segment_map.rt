//! The segment map after a frame (RFC 6386, section 9.3).

ghost use Rattle.std.specs.Prelude.{◌≡◌, ◌<◌, ◌≤◌, All, IfOk, false, length, map};
ghost use Rattle.sal_filter.specs.declared.head.MbInfo.{MbInfo as Info};
ghost use Rattle.sal_frame.specs.Records.{Record, info_of};
ghost use Rattle.sal_frame.specs.After.{map_after};

use sal_base::{Bytes, Memory};
use sal_filter::MbInfo;
use sal_header::Header;
use std::alloc::Global;

/// The segment map after a frame, of whose macroblocks this is known: their own where it is updated; else zeros after a key frame,
/// and the old map after others.
pub fn map_after(
    alloc: Global,
    header: &Header,
    infos: &[MbInfo],
    old: &Bytes,
) -> Result<Bytes, Memory>
    requires old { header.now.key ≡ false → length old.now ≡ length infos.now }
    requires kept { All (λ segment. segment < 4) old.now }
    requires segments { All (λ info. info.mode.segment ≤ 3) infos.now }
    ensures after { (f : Record) → f.header ≡ header.now → infos.now ≡ map info_of f.blocks → IfOk result (λ m. m ≡ map_after f old.now) }
    ensures count { IfOk result (λ m. length m ≡ length infos.now) }
    ensures segments { IfOk result (All (λ segment. segment < 4)) }
{
    if header.update_map {
        return segments(alloc, infos);
    }
    if header.key {
        return Ok(Bytes::repeat(alloc, 0, infos.len())?);
    }
    Ok(Bytes::from_slice(alloc, old.as_slice())?)
}

// The segment of each macroblock.
fn segments(alloc: Global, infos: &[MbInfo]) -> Result<Bytes, Memory>
    ensures { IfOk result (λ m. m ≡ map (λ (info : Info). info.mode.segment) infos.now) }
{
    let mut segments = Vec::new(alloc);
    segments.reserve(infos.len())?;
    for info in infos {
        segments.push(info.mode.segment)?;
    }
    Ok(Bytes::from_vec(segments))
}
