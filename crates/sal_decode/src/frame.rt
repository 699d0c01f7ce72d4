//! Decoding of a frame (RFC 6386, section 9).

ghost use Rattle.std.specs.Prelude.{◌≡◌, ◌*◌, ◌≤◌, List, [], IfOk, IfSome, None, Ok, Err, true, false, length, take};
ghost use Rattle.sal_base.specs.declared.coding.Fault.{Fault as FaultData};
ghost use Rattle.sal_base.specs.declared.coding.DecodeFault.TheVariants.{Bad};
ghost use Rattle.sal_base.specs.Picture.{AreSides, IsPicture};
ghost use Rattle.sal_base.specs.Pictures.{blocks_of};
ghost use Rattle.sal_bool.specs.Reading.{Reading};
ghost use Rattle.sal_bool.specs.Syntax.{run};
ghost use Rattle.sal_probs.specs.Probabilities.{used};
ghost use Rattle.sal_header.specs.Tags.{AreInside};
ghost use Rattle.sal_macroblock.specs.declared.mode.MbMode.{MbMode as Mode};
ghost use Rattle.sal_state.specs.States.{IsState};
ghost use Rattle.sal_decode.specs.Decode.{decode_of};
ghost use Rattle.sal_decode.specs.FirstPartition.{mb_modes};
ghost use Rattle.sal_decode.specs.Syntax.{frame_of, record_of};

use crate::head::{Head, read_head};
use crate::modes::read_modes;
use crate::picture::build_picture;
use sal_base::{DecodeFault, Decoded, Memory};
use sal_frame::{blocks_of, finish};
use sal_state::State;
use std::alloc::Global;

// What a frame leads to whose head was read.
fn decode_frame(
    alloc: Global,
    state: &State,
    bytes: &[u8],
    head: Head<'_>,
) -> Result<Decoded<State>, Memory>
    requires read { (ms : List Mode) (d : Reading) → run (mb_modes head.header (used head.header.key state.now.kept.probs head.header.updates) (blocks_of head.width) (blocks_of head.height) (blocks_of head.width * blocks_of head.height) []) head.decoder ≡ (ms, d) → frame_of state.now bytes.now ≡ Ok (record_of state.now bytes.now (head.width, head.height) (take head.parts.count head.parts.at) (head.header, ms)) }
    requires sides { AreSides head.width head.height }
    requires first { state.now.references ≡ None → head.header.key ≡ true }
    requires same { IfSome state.now.references (λ r. head.header.key ≡ false → (head.width ≡ r.width) × (head.height ≡ r.height)) }
    requires count { (1 ≤ head.parts.count) × (head.parts.count ≤ 8) }
    requires inside { AreInside (length bytes.now) head.parts.at head.parts.count }
    ensures decoded { IfOk result (λ d. decode_of state.now bytes.now ≡ Ok d) }
    ensures picture { IfOk result (λ d. IsPicture d.picture) }
    ensures state { IfOk result (λ d. IsState d.state) }
{
    let Head {
        width,
        height,
        header,
        mut decoder,
        parts,
    } = head;
    let mut probs = state.kept().probs.base(alloc, header.key)?;
    let saved = probs.begin_frame(alloc, &header.updates, header.refresh_entropy)?;
    let columns = blocks_of(width);
    let rows = blocks_of(height);
    let modes = read_modes(alloc, &mut decoder, &header, &probs, columns, rows)?;
    let (planes, infos) = build_picture(
        alloc,
        state,
        bytes,
        &header,
        &probs,
        width,
        height,
        &parts,
        modes.as_slice(),
    )?;
    let left = probs.end_frame(saved);
    finish(
        alloc,
        state,
        &header,
        width,
        height,
        planes,
        infos.as_slice(),
        left,
    )
}

/// Decodes a frame: the next state, the picture cut to its size, and whether it is shown (RFC 6386, sections 9 to 19).
///
/// `Bad` has the first fault of the bytes, in the order in which a decoder meets them, exactly where there is one: it is met before
/// any memory is taken. Past the end of a partition there are zeros, so nothing but the faults of tag, size and partitions refuses
/// a frame. `Memory` is the only other error. The state that the frame is decoded from stays as it is, and the next one shares the
/// references that it keeps. The picture is whole, and what is decoded from a state leads to a state.
pub fn decode(alloc: Global, state: &State, bytes: &[u8]) -> Result<Decoded<State>, DecodeFault>
    ensures decoded { IfOk result (λ d. decode_of state.now bytes.now ≡ Ok d) }
    ensures picture { IfOk result (λ d. IsPicture d.picture) }
    ensures state { IfOk result (λ d. IsState d.state) }
    ensures fault { (f : FaultData) → result ≡ Err (Bad f) → decode_of state.now bytes.now ≡ Err f }
    ensures refused { (f : FaultData) → decode_of state.now bytes.now ≡ Err f → result ≡ Err (Bad f) }
{
    let head = match read_head(state, bytes) {
        Ok(head) => head,
        Err(fault) => return Err(DecodeFault::Bad(fault)),
    };
    decode_frame(alloc, state, bytes, head).map_err(|_| DecodeFault::Memory)
}
