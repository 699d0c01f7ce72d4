//! Frames of plans (RFC 6386, section 9).

ghost use Rattle.std.specs.Prelude.{◌≡◌, ◌≤◌, ◌<◌, ℕ, List, Ok, IfOk, length};
ghost use Rattle.sal_base.specs.Picture.{IsPicture};
ghost use Rattle.sal_base.specs.declared.coding.Encoding.TheVariants.{Frame};
ghost use Rattle.sal_base.specs.declared.picture.Picture.{Picture as PictureData};
ghost use Rattle.sal_probs.specs.Probabilities.{kept};
ghost use Rattle.sal_state.specs.States.{StateData, IsState};
ghost use Rattle.sal_frame.specs.After.{decoded_of};
ghost use Rattle.sal_decode.specs.Decode.{decode_of};
ghost use Rattle.sal_encode.specs.Plans.{record_of_plan, IsPlan};
ghost use Rattle.sal_encode.specs.FrameBytes.{probs_of, first_bytes, token_bytes, plan_bytes};
ghost use Rattle.sal_encode.specs.Assembled.{assembled};
ghost use Rattle.sal_encode.specs.Standing.{IsBuilt};

use crate::first::write_first;
use crate::head::frame_bytes;
use crate::picture::{Built, build_plan};
use crate::plan::Plan;
use sal_base::{Bytes, Decoded, Encoding, Memory};
use sal_frame::finish;
use sal_probs::Probs;
use sal_state::State;
use std::alloc::Global;

// The filter's deltas that a state keeps are four by reference and four by mode.
fn are_four(deltas: [i8; 4])
    ensures { length deltas ≡ 4 }
{}

// The length of a first partition, which its header and modes bound.
fn length_of(state: &State, width: u16, height: u16, plan: &Plan, first: &Bytes) -> u32
    requires plan { IsPlan state.now (width, height) plan.now }
    requires first { first.now ≡ first_bytes state.now (width, height) plan.now }
    ensures { result ≡ length first.now }
{
    let kept = state.kept();
    are_four(kept.ref_deltas);
    are_four(kept.mode_deltas);
    first.len() as u32
}

// What the macroblocks of a plan lead to.
fn finish_plan(
    alloc: Global,
    state: &State,
    width: u16,
    height: u16,
    plan: &Plan,
    built: Built,
    probs: Probs,
) -> Result<(Bytes, Decoded<State>), Memory>
    requires plan { IsPlan state.now (width, height) plan.now }
    requires built { IsBuilt state.now (width, height) plan.now built }
    requires probs { probs ≡ kept plan.now.header.key plan.now.header.refresh_entropy state.now.kept.probs plan.now.header.updates }
    ensures tokens { IfOk result (λ r. r.0 ≡ token_bytes state.now (width, height) plan.now) }
    ensures decoded { IfOk result (λ r. r.1 ≡ decoded_of state.now (record_of_plan (width, height) plan.now)) }
    ensures picture { IfOk result (λ r. IsPicture r.1.picture) }
    ensures state { IfOk result (λ r. IsState r.1.state) }
{
    let Built {
        tokens,
        planes,
        infos,
    } = built;
    let decoded = finish(
        alloc,
        state,
        &plan.header,
        width,
        height,
        planes,
        infos.as_slice(),
        probs,
    )?;
    Ok((tokens, decoded))
}

/// The frame of a plan for a picture of this size: its bytes, the state that they are decoded to, and the picture that they show; or
/// Oversize, exactly where its first partition is longer than its size can say (RFC 6386, section 9.1). Target and reconstruction are
/// those of the plan itself, and decoding the bytes gives them. `Memory` is the only error.
///
/// A plan can be written where `IsPlan` holds: its lists have the frame's length, each field is in range, and none says more than its
/// bits do; an inter frame needs references of this size.
pub fn assemble(
    alloc: Global,
    state: &State,
    width: u16,
    height: u16,
    plan: &Plan,
) -> Result<Encoding<State>, Memory>
    requires plan { IsPlan state.now (width, height) plan.now }
    ensures assembled { IfOk result (λ e. e ≡ assembled state.now (width, height) plan.now) }
    ensures decoded { IfOk result (λ e. (bytes : List ℕ) (target : StateData) (recon : PictureData) → e ≡ Frame bytes target recon → decode_of state.now bytes ≡ Ok (record { state = target; picture = recon; shown = plan.now.header.shown })) }
    ensures few { IfOk result (λ e. (bytes : List ℕ) (target : StateData) (recon : PictureData) → e ≡ Frame bytes target recon → (0 < length bytes) × (length bytes ≤ 43364299)) }
    ensures whole { IfOk result (λ e. (bytes : List ℕ) (target : StateData) (recon : PictureData) → e ≡ Frame bytes target recon → IsState target × IsPicture recon) }
{
    let mut probs = state.kept().probs.base(alloc, plan.header.key)?;
    let saved = probs.begin_frame(alloc, &plan.header.updates, plan.header.refresh_entropy)?;
    let first = write_first(alloc, state, width, height, plan, &probs)?;
    let length = length_of(state, width, height, plan, &first);
    if length >= 524288 {
        return Ok(Encoding::Oversize { first: length });
    }
    let built = build_plan(alloc, state, width, height, plan, &probs)?;
    let left = probs.end_frame(saved);
    let (tokens, decoded) = finish_plan(alloc, state, width, height, plan, built, left)?;
    let bytes = frame_bytes(
        alloc,
        plan.header.key,
        plan.header.shown,
        width,
        height,
        first.as_slice(),
        tokens.as_slice(),
    )?;
    Ok(Encoding::Frame {
        bytes,
        target: decoded.state,
        recon: decoded.picture,
    })
}
