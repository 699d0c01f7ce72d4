//! The unfiltered planes of a frame, macroblock by macroblock in raster order (RFC 6386, sections 13 and 14).

ghost use Rattle.std.specs.Prelude.{◌≡◌, ◌≤◌, ◌*◌, All, IfOk, None, true, length, map, take};
ghost use Rattle.sal_base.specs.Picture.{AreSides};
ghost use Rattle.sal_base.specs.Pictures.{blocks_of};
ghost use Rattle.sal_probs.specs.Probabilities.{used};
ghost use Rattle.sal_header.specs.Tags.{AreInside};
ghost use Rattle.sal_macroblock.specs.Macroblocks.{HasFittingModes};
ghost use Rattle.sal_state.specs.States.{HasBlocks};
ghost use Rattle.sal_frame.specs.Records.{info_of};
ghost use Rattle.sal_frame.specs.Built.{built};
ghost use Rattle.sal_decode.specs.Standing.{IsIntraKind};
ghost use Rattle.sal_decode.specs.Syntax.{record_of};

use crate::segment::{factors_in, in_segment};
use crate::tokens::Tokens;
use sal_base::{Memory, Planes};
use sal_filter::MbInfo;
use sal_frame::{Macroblock, blanks, blocks_of, build, frame_factors, info_of};
use sal_header::{Header, Parts};
use sal_macroblock::{Coefficients, MbMode};
use sal_probs::Probs;
use sal_state::State;
use std::alloc::Global;

/// The unfiltered planes of a frame with these modes, and what the loop filter needs of its macroblocks.
pub(crate) fn build_picture(
    alloc: Global,
    state: &State,
    bytes: &[u8],
    header: &Header,
    probs: &Probs,
    width: u16,
    height: u16,
    parts: &Parts,
    modes: &[MbMode],
) -> Result<(Planes, Vec<MbInfo>), Memory>
    requires sides { AreSides width height }
    requires probs { probs.now ≡ used header.now.key state.now.kept.probs header.now.updates }
    requires first { state.now.references ≡ None → header.now.key ≡ true }
    requires some { 1 ≤ parts.now.count }
    requires few { parts.now.count ≤ 8 }
    requires inside { AreInside (length bytes.now) parts.now.at parts.now.count }
    requires count { length modes.now ≡ blocks_of width * blocks_of height }
    requires fitting { All HasFittingModes modes.now }
    requires key { header.now.key ≡ true → All IsIntraKind modes.now }
    ensures built { IfOk result (λ r. r.0 ≡ built state.now.references (record_of state.now bytes.now (width, height) (take parts.now.count parts.now.at) (header.now, modes.now))) }
    ensures noted { IfOk result (λ r. r.1.items ≡ map info_of (record_of state.now bytes.now (width, height) (take parts.now.count parts.now.at) (header.now, modes.now)).blocks) }
    ensures blocks { IfOk result (λ r. HasBlocks (blocks_of width) (blocks_of height) r.0) }
    ensures count { IfOk result (λ r. length r.1.items ≡ blocks_of width * blocks_of height) }
    ensures segments { IfOk result (λ r. All (λ info. info.mode.segment ≤ 3) r.1.items) }
{
    let columns = blocks_of(width);
    let references = state.references();
    let factors = frame_factors(header);
    let map = state.kept().map.as_slice();
    let mut tokens = Tokens::begin(alloc, bytes, parts, columns)?;
    let mut planes = blanks(alloc, columns, blocks_of(height))?;
    let mut coefficients = Coefficients::none();
    let mut infos = Vec::new(alloc);
    infos.reserve(modes.len())?;
    for k in 0..modes.len() {
        let column = k % columns;
        let row = k / columns;
        let mode = in_segment(header, map, k, &modes[k]);
        let has_coefficients = tokens.read(probs, &mode, &mut coefficients, column, row);
        let block = Macroblock::new(&mode, &coefficients, has_coefficients);
        build(
            &mut planes,
            references,
            &block,
            factors_in(&factors, mode.segment),
            column as u16,
            row as u16,
        );
        infos.push(info_of(&block))?;
    }
    Ok((planes, infos))
}
