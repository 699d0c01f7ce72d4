//! A frame's planes filtered, and what they lead to: the next state and the picture (RFC 6386, sections 9.1, 9.3 and 15).

ghost use Rattle.std.specs.Prelude.{◌≡◌, ◌*◌, ◌≤◌, All, IfOk, IfSome, None, false, true, length, map};
ghost use Rattle.sal_base.specs.Picture.{AreSides, IsPicture};
ghost use Rattle.sal_base.specs.Pictures.{blocks_of};
ghost use Rattle.sal_probs.specs.Probabilities.{kept};
ghost use Rattle.sal_filter.specs.Filtered.{filtered};
ghost use Rattle.sal_state.specs.States.{HasBlocks, IsState};
ghost use Rattle.sal_frame.specs.Records.{Record, filter_head, info_of};
ghost use Rattle.sal_frame.specs.Built.{built};
ghost use Rattle.sal_frame.specs.After.{decoded_of};

use crate::cropping::crop;
use crate::heads::filter_head;
use crate::next::next_state;
use crate::segment_map::map_after;
use sal_base::{Decoded, Memory, Planes};
use sal_filter::{MbInfo, filter_picture};
use sal_header::Header;
use sal_probs::Probs;
use sal_state::State;
use std::alloc::Global;

// Filters the planes of a frame.
fn filter(planes: &mut Planes, header: &Header, infos: &[MbInfo], width: u16, height: u16)
    requires blocks { HasBlocks (blocks_of width) (blocks_of height) planes.old }
    requires count { length infos.now ≡ blocks_of width * blocks_of height }
    requires segments { All (λ info. info.mode.segment ≤ 3) infos.now }
    ensures filtered { planes.new ≡ filtered (filter_head header.now) infos.now planes.old }
    ensures blocks { HasBlocks (blocks_of width) (blocks_of height) planes.new }
{
    filter_picture(planes, infos, &filter_head(header));
}

/// What a frame leads to, of whose unfiltered planes and macroblocks this is known.
pub fn finish(
    alloc: Global,
    state: &State,
    header: &Header,
    width: u16,
    height: u16,
    planes: Planes,
    infos: &[MbInfo],
    probs: Probs,
) -> Result<Decoded<State>, Memory>
    requires sides { AreSides width height }
    requires first { state.now.references ≡ None → header.now.key ≡ true }
    requires size { IfSome state.now.references (λ r. header.now.key ≡ false → (width ≡ r.width) × (height ≡ r.height)) }
    requires blocks { HasBlocks (blocks_of width) (blocks_of height) planes }
    requires count { length infos.now ≡ blocks_of width * blocks_of height }
    requires segments { All (λ info. info.mode.segment ≤ 3) infos.now }
    ensures decoded { (f : Record) → f.header ≡ header.now → f.width ≡ width → f.height ≡ height → planes ≡ built state.now.references f → infos.now ≡ map info_of f.blocks → probs ≡ kept header.now.key header.now.refresh_entropy state.now.kept.probs header.now.updates → IfOk result (λ d. d ≡ decoded_of state.now f) }
    ensures picture { IfOk result (λ d. IsPicture d.picture) }
    ensures state { IfOk result (λ d. IsState d.state) }
{
    let mut planes = planes;
    filter(&mut planes, header, infos, width, height);
    let picture = crop(alloc, &planes, width, height)?;
    let map = map_after(alloc, header, infos, &state.kept().map)?;
    let next = next_state(alloc, state, header, width, height, planes, map, probs)?;
    next.is_state();
    Ok(Decoded {
        state: next,
        picture,
        shown: header.shown,
    })
}
