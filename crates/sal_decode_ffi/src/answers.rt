//! The answers to frames, as bytes.

ghost use Rattle.std.specs.Prelude.{◌≡◌, ◌++◌, IfOk, OnOk};
ghost use Rattle.sal_decode_ffi.specs.Answers.{answer_to, answers_from, answers_of, decoded_bytes, fault_bytes, numbered, state_to};
ghost use Rattle.sal_decode.specs.Decode.{decode_of};

use sal_base::{Bytes, DecodeFault, Decoded, Fault, Memory};
use sal_decode::decode;
use sal_state::State;
use std::alloc::Global;

/// The answers to frames of these lengths, whose bytes follow one another, up to the first fault.
pub(crate) fn answers(alloc: Global, bytes: &[u8], lengths: &[u32]) -> Result<Bytes, Memory>
    ensures { IfOk result (λ text. text ≡ answers_of lengths.now bytes.now) }
{
    let state = State::initial(alloc)?;
    let mut text = Vec::new(alloc);
    put_answers(alloc, state, bytes, lengths, &mut text)?;
    Ok(Bytes::from_vec(text))
}

/// Adds the answers to frames of these lengths from a state on.
fn put_answers(
    alloc: Global,
    state: State,
    bytes: &[u8],
    lengths: &[u32],
    text: &mut Vec<u8>,
) -> Result<(), Memory>
    ensures { OnOk result (text.new.items ≡ text.old.items ++ answers_from state lengths.now bytes.now) }
{
    let mut state = state;
    let mut rest = bytes;
    for size in lengths {
        let (frame, after) = rest.split_at((*size as usize).min(rest.len()));
        let Some(next) = put_answer(alloc, state, frame, text)? else {
            return Ok(());
        };
        state = next;
        rest = after;
    }
    Ok(())
}

/// Adds the answer to a frame, and gives the state that it leads to, where it is decoded.
fn put_answer(
    alloc: Global,
    state: State,
    frame: &[u8],
    text: &mut Vec<u8>,
) -> Result<Option<State>, Memory>
    ensures put { OnOk result (text.new.items ≡ text.old.items ++ answer_to (decode_of state frame.now)) }
    ensures next { IfOk result (λ next. next ≡ state_to (decode_of state frame.now)) }
{
    match decode(alloc, &state, frame) {
        Ok(decoded) => Ok(Some(put_decoded(decoded, text)?)),
        Err(DecodeFault::Bad(fault)) => {
            put_fault(fault, text)?;
            Ok(None)
        }
        Err(DecodeFault::Memory) => Err(Memory),
    }
}

/// Adds the answer to a frame that was decoded, and gives the state that it leads to.
fn put_decoded(decoded: Decoded<State>, text: &mut Vec<u8>) -> Result<State, Memory>
    ensures state { IfOk result (λ s. s ≡ decoded.state) }
    ensures put { OnOk result (text.new.items ≡ text.old.items ++ decoded_bytes decoded) }
{
    let Decoded {
        state,
        picture,
        shown,
    } = decoded;
    text.push(0)?;
    text.push(shown as u8)?;
    text.extend_from_slice(&picture.width.to_be_bytes())?;
    text.extend_from_slice(&picture.height.to_be_bytes())?;
    text.extend_from_slice(&state.digest())?;
    text.extend_from_slice(picture.y.samples.as_slice())?;
    text.extend_from_slice(picture.u.samples.as_slice())?;
    text.extend_from_slice(picture.v.samples.as_slice())?;
    Ok(state)
}

/// Adds the answer to a frame that wasn't decoded.
fn put_fault(fault: Fault, text: &mut Vec<u8>) -> Result<(), Memory>
    ensures { OnOk result (text.new.items ≡ text.old.items ++ fault_bytes fault) }
{
    match fault {
        Fault::Short => put_numbered(1, 0, 0, text),
        Fault::BadVersion(version) => put_numbered(2, version as u32, 0, text),
        Fault::BadStart => put_numbered(3, 0, 0, text),
        Fault::ZeroSize => put_numbered(4, 0, 0, text),
        Fault::TooLarge(width, height) => put_numbered(5, width as u32, height as u32, text),
        Fault::NoReference => put_numbered(6, 0, 0, text),
        Fault::FirstPart(size, left) => put_numbered(7, size, left, text),
        Fault::Partition(index) => put_numbered(8, index as u32, 0, text),
    }
}

/// Adds a fault's number and the two numbers that it has.
fn put_numbered(code: u8, first: u32, second: u32, text: &mut Vec<u8>) -> Result<(), Memory>
    ensures { OnOk result (text.new.items ≡ text.old.items ++ numbered code first second) }
{
    text.push(code)?;
    text.extend_from_slice(&first.to_be_bytes())?;
    Ok(text.extend_from_slice(&second.to_be_bytes())?)
}
