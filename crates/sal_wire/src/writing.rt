//! Datagrams as bytes.

ghost use Rattle.std.specs.Prelude.{◌≡◌, ◌+◌, ◌*◌, ◌<◌, ◌^◌, ◌++◌, ◌≤◌, [], length, flat_map, IfOk, vec_len, vec_capacity};
ghost use Rattle.sal_wire.specs.Message.{IsDatagram, message_of, message_bytes};
ghost use Rattle.sal_wire.specs.Fields.{fields_of};
ghost use Rattle.sal_wire.specs.Layout.{u32_bytes, u16_bytes, name_bytes, fragment_head, fragment_bytes, ack_head, state_bytes, ack_bytes, bye_bytes};

use crate::datagram::{Ack, Bye, Datagram};
use crate::fragment::Fragment;
use crate::layout::{
    ACK_HEAD, ACK_KIND, BYE_BYTES, BYE_KIND, FRAGMENT_HEAD, FRAGMENT_KIND, MAX_ACK, STATE_BYTES,
    VERSION,
};
use byteorder::{BigEndian, ByteOrder};
use sal_base::{Bytes, Memory, Name, WINDOW};
use std::alloc::Global;

// Adds bytes, for which there is room.
fn put(out: &mut Vec<u8>, bytes: &[u8])
    requires { vec_len out.old + length bytes.now ≤ vec_capacity out.old }
    ensures value { out.new.items ≡ out.old.items ++ bytes.now }
    ensures len { vec_len out.new ≡ vec_len out.old + length bytes.now }
    ensures room { vec_capacity out.old ≤ vec_capacity out.new }
{
    out.extend_from_slice(bytes).unwrap();
}

#[tactic(auto, unfolding(crate::specs::Layout::u32_bytes))]
fn put_u32(out: &mut Vec<u8>, number: u32)
    requires { vec_len out.old + 4 ≤ vec_capacity out.old }
    ensures value { out.new.items ≡ out.old.items ++ u32_bytes number }
    ensures len { vec_len out.new ≡ vec_len out.old + 4 }
    ensures room { vec_capacity out.old ≤ vec_capacity out.new }
{
    let mut place = [0u8; 4];
    BigEndian::write_u32(&mut place, number);
    put(out, &place);
}

#[tactic(auto, unfolding(crate::specs::Layout::u16_bytes))]
fn put_u16(out: &mut Vec<u8>, number: u16)
    requires { vec_len out.old + 2 ≤ vec_capacity out.old }
    ensures value { out.new.items ≡ out.old.items ++ u16_bytes number }
    ensures len { vec_len out.new ≡ vec_len out.old + 2 }
    ensures room { vec_capacity out.old ≤ vec_capacity out.new }
{
    let mut place = [0u8; 2];
    BigEndian::write_u16(&mut place, number);
    put(out, &place);
}

// The first eight bytes of a name, which are sent.
#[tactic(auto, unfolding(crate::specs::Layout::name_bytes))]
fn put_name(out: &mut Vec<u8>, name: Name)
    requires { vec_len out.old + 8 ≤ vec_capacity out.old }
    ensures value { out.new.items ≡ out.old.items ++ name_bytes name.0 }
    ensures len { vec_len out.new ≡ vec_len out.old + 8 }
    ensures room { vec_capacity out.old ≤ vec_capacity out.new }
{
    put(out, &name.0[..8]);
}

// The head of a fragment.
#[tactic(auto, using(std::proofs::Common::append_assoc))]
fn put_head(out: &mut Vec<u8>, f: &Fragment)
    requires short { length f.now.bytes.now < 2 ^ 16 }
    requires room { vec_len out.old + FRAGMENT_HEAD ≤ vec_capacity out.old }
    ensures value { out.new.items ≡ out.old.items ++ fragment_head (fields_of f.now) }
    ensures len { vec_len out.new ≡ vec_len out.old + FRAGMENT_HEAD }
    ensures room { vec_capacity out.old ≤ vec_capacity out.new }
{
    put(out, &[FRAGMENT_KIND, VERSION]);
    put_u32(out, f.session);
    put_u32(out, f.serial);
    put_u32(out, f.number);
    put_u32(out, f.floor);
    put_name(out, f.source);
    put_name(out, f.target);
    put_u16(out, f.index);
    put_u16(out, f.count);
    put_u32(out, f.pause);
    put_u16(out, f.width);
    put_u16(out, f.height);
    put_u32(out, f.rate.0);
    put_u32(out, f.rate.1);
    put_u16(out, f.bytes.len() as u16);
}

// The head of an acknowledgement.
#[tactic(auto, using(std::proofs::Common::append_assoc))]
fn put_ack_head(out: &mut Vec<u8>, a: &Ack)
    requires few { length a.now.held ≤ WINDOW }
    requires room { vec_len out.old + ACK_HEAD ≤ vec_capacity out.old }
    ensures value { out.new.items ≡ out.old.items ++ ack_head a.now }
    ensures len { vec_len out.new ≡ vec_len out.old + ACK_HEAD }
    ensures room { vec_capacity out.old ≤ vec_capacity out.new }
{
    put(out, &[ACK_KIND, VERSION]);
    put_u32(out, a.session);
    put_u32(out, a.serial);
    put_u32(out, a.gap);
    put(out, &[a.held.as_slice().len() as u8]);
}

// A state of an acknowledgement.
#[tactic(auto, using(std::proofs::Common::append_assoc))]
fn put_state(out: &mut Vec<u8>, number: u32, name: Name)
    requires { vec_len out.old + STATE_BYTES ≤ vec_capacity out.old }
    ensures value { out.new.items ≡ out.old.items ++ state_bytes (number, name) }
    ensures len { vec_len out.new ≡ vec_len out.old + STATE_BYTES }
    ensures room { vec_capacity out.old ≤ vec_capacity out.new }
{
    put_u32(out, number);
    put_name(out, name);
}

// The states of an acknowledgement.
fn put_states(out: &mut Vec<u8>, held: &[(u32, Name)])
    requires { vec_len out.old + STATE_BYTES * length held.now ≤ vec_capacity out.old }
    ensures { out.new.items ≡ out.old.items ++ flat_map state_bytes held.now }
{
    for state in held {
        put_state(out, state.0, state.1);
    }
}

/// An acknowledgement, for which there is room.
#[tactic(auto, using(std::proofs::Common::append_assoc), unfolding(crate::specs::Layout::ack_bytes))]
pub(crate) fn put_ack(out: &mut Vec<u8>, a: &Ack)
    requires { vec_len out.old + MAX_ACK ≤ vec_capacity out.old }
    ensures { out.new.items ≡ out.old.items ++ ack_bytes a.now }
{
    let held = a.held.as_slice();
    put_ack_head(out, a);
    put_states(out, held);
}

// A fragment's bytes.
#[tactic(auto, unfolding(crate::specs::Layout::fragment_bytes))]
fn of_fragment(alloc: Global, f: &Fragment) -> Result<Vec<u8>, Memory>
    requires { length f.now.bytes.now < 2 ^ 16 }
    ensures { IfOk result (λ v. v.items ≡ fragment_bytes (fields_of f.now)) }
{
    let mut out = Vec::with_capacity(alloc, FRAGMENT_HEAD + f.bytes.len())?;
    put_head(&mut out, f);
    put(&mut out, f.bytes);
    Ok(out)
}

// An acknowledgement's bytes.
fn of_ack(alloc: Global, a: &Ack) -> Result<Vec<u8>, Memory>
    ensures { IfOk result (λ v. v.items ≡ ack_bytes a.now) }
{
    let mut out = Vec::with_capacity(alloc, MAX_ACK)?;
    put_ack(&mut out, a);
    Ok(out)
}

// An end's bytes.
#[tactic(auto, using(std::proofs::Common::append_assoc), unfolding(crate::specs::Layout::bye_bytes))]
fn of_bye(alloc: Global, b: &Bye) -> Result<Vec<u8>, Memory>
    ensures { IfOk result (λ v. v.items ≡ bye_bytes b.now.session b.now.last) }
{
    let mut out = Vec::with_capacity(alloc, BYE_BYTES)?;
    put(&mut out, &[BYE_KIND, VERSION]);
    put_u32(&mut out, b.session);
    put_u32(&mut out, b.last);
    Ok(out)
}

/// The bytes of a datagram whose fields meet the rules. There is one allocation, of so many bytes or a little more; want
/// of memory is the only error.
pub fn write(alloc: Global, datagram: &Datagram) -> Result<Bytes, Memory>
    requires { IsDatagram (message_of datagram.now) }
    ensures { IfOk result (λ b. b ≡ message_bytes (message_of datagram.now)) }
{
    let out = match datagram {
        Datagram::Fragment(f) => of_fragment(alloc, f)?,
        Datagram::Ack(a) => of_ack(alloc, a)?,
        Datagram::Bye(b) => of_bye(alloc, b)?,
    };
    Ok(Bytes::from_vec(out))
}
