//! Bytes as datagrams.

ghost use Rattle.std.specs.Prelude.{◌≡◌, ◌≤◌, ◌+◌, ◌*◌, length, slice_index, Some, None, Ok, IfOk};
ghost use Rattle.sal_wire.specs.Message.{Message, IsDatagram, Serializes, message_of, as_message};
ghost use Rattle.sal_wire.specs.Fields.{fields_of};
ghost use Rattle.sal_wire.specs.Parsing.{fragment_fields, name_at, big_endian_at, held_at, unless, parsed_fragment, parsed_ack, parsed_bye, parsed};
ghost use Rattle.sal_wire.specs.Rules.{first_fault, front_tests, fragment_tests, held_tests, head_length};

use crate::datagram::{Ack, Bye, Datagram};
use crate::fault::{Wire, WireFault};
use crate::fragment::Fragment;
use crate::layout::{
    ACK_HEAD, ACK_KIND, BYE_BYTES, BYE_KIND, FRAGMENT_HEAD, FRAGMENT_KIND, MAX_DATA, MAX_FRAGMENTS,
    STATE_BYTES, VERSION,
};
use byteorder::{BigEndian, ByteOrder};
use sal_base::{HeldStates, MAX_FRAMES, Name, WINDOW, are_sides};

// The number in the four bytes from this place on.
fn u32_at(bytes: &[u8], place: usize) -> u32
    requires { place + 4 ≤ length bytes.now }
    ensures { result ≡ big_endian_at 4 place bytes.now }
{
    BigEndian::read_u32(&bytes[place..])
}

// The number in the two bytes from this place on.
fn u16_at(bytes: &[u8], place: usize) -> u16
    requires { place + 2 ≤ length bytes.now }
    ensures { result ≡ big_endian_at 2 place bytes.now }
{
    BigEndian::read_u16(&bytes[place..])
}

// The name of which eight bytes stand at this place; the others are zeros.
fn name_at(bytes: &[u8], place: usize) -> Name
    requires { place + 8 ≤ length bytes.now }
    ensures { result.0 ≡ name_at place bytes.now }
{
    Name([
        bytes[place],
        bytes[place + 1],
        bytes[place + 2],
        bytes[place + 3],
        bytes[place + 4],
        bytes[place + 5],
        bytes[place + 6],
        bytes[place + 7],
        0,
        0,
        0,
        0,
        0,
        0,
        0,
        0,
    ])
}

// The fields of a fragment at their places.
#[tactic(auto, unfolding(crate::specs::Parsing::fragment_fields))]
fn fragment_fields(bytes: &[u8]) -> Fragment<'_>
    requires { FRAGMENT_HEAD ≤ length bytes.now }
    ensures { fields_of result ≡ fragment_fields bytes.now }
{
    Fragment {
        session: u32_at(bytes, 2),
        serial: u32_at(bytes, 6),
        number: u32_at(bytes, 10),
        floor: u32_at(bytes, 14),
        source: name_at(bytes, 18),
        target: name_at(bytes, 26),
        index: u16_at(bytes, 34),
        count: u16_at(bytes, 36),
        pause: u32_at(bytes, 38),
        width: u16_at(bytes, 42),
        height: u16_at(bytes, 44),
        rate: (u32_at(bytes, 46), u32_at(bytes, 50)),
        bytes: &bytes[FRAGMENT_HEAD..],
    }
}

// A fault, found.
fn fault(what: Wire, place: u16) -> Option<WireFault>
    ensures { result ≡ Some (record { what = what; place = place }) }
{
    Some(WireFault { what, place })
}

// The first rule that the fields break, where the head says this length.
fn first_broken(f: &Fragment, length: usize) -> Option<WireFault>
    ensures { result ≡ first_fault (fragment_tests length (fields_of f.now)) }
{
    if f.serial == 0 {
        return fault(Wire::Serial, 6);
    }
    if f.number == 0
        || f.number > MAX_FRAMES
        || f.floor == 0
        || f.floor > f.number
        || f.number - f.floor >= WINDOW
    {
        return fault(Wire::Window, 10);
    }
    if f.count == 0 || f.count > MAX_FRAGMENTS || f.index >= f.count {
        return fault(Wire::Index, 34);
    }
    if !are_sides(f.width, f.height) {
        return fault(Wire::Size, 42);
    }
    if f.rate.0 == 0 || f.rate.1 == 0 {
        return fault(Wire::Rate, 46);
    }
    if length == 0
        || length > MAX_DATA
        || (length != MAX_DATA && f.index + 1 < f.count)
        || f.bytes.len() != length
    {
        return fault(Wire::Length, 54);
    }
    None
}

// Reads a fragment, after its head was found whole.
fn fragment(bytes: &[u8]) -> Result<Datagram<'_>, WireFault>
    requires { FRAGMENT_HEAD ≤ length bytes.now }
    ensures { as_message result ≡ parsed_fragment bytes.now }
{
    let fragment = fragment_fields(bytes);
    let length = u16_at(bytes, 54) as usize;
    match first_broken(&fragment, length) {
        None => Ok(Datagram::Fragment(fragment)),
        Some(fault) => Err(fault),
    }
}

// The states of an acknowledgement, which end with the bytes.
fn held(bytes: &[u8], count: usize) -> Result<HeldStates, WireFault>
    requires few { count ≤ WINDOW }
    requires long { length bytes.now ≡ ACK_HEAD + STATE_BYTES * count }
    ensures { result ≡ unless (first_fault (held_tests 0 ACK_HEAD (held_at count ACK_HEAD bytes.now))) (held_at count ACK_HEAD bytes.now) }
{
    let mut held = HeldStates::new();
    let mut before = 0;
    for i in 0..count {
        let place = ACK_HEAD + STATE_BYTES * i;
        let number = u32_at(bytes, place);
        if number <= before || number > MAX_FRAMES {
            return Err(WireFault {
                what: Wire::Held,
                place: place as u16,
            });
        }
        held.push(number, name_at(bytes, place + 4));
        before = number;
    }
    Ok(held)
}

// Reads an acknowledgement, after its head was found whole.
#[tactic(auto, unfolding(crate::specs::Parsing::ack_fields))]
fn ack(bytes: &[u8]) -> Result<Datagram<'_>, WireFault>
    requires { ACK_HEAD ≤ length bytes.now }
    ensures { as_message result ≡ parsed_ack bytes.now }
{
    let count = bytes[14] as usize;
    if count > WINDOW as usize {
        return Err(WireFault {
            what: Wire::Held,
            place: 14,
        });
    }
    if bytes.len() != ACK_HEAD + STATE_BYTES * count {
        return Err(WireFault {
            what: Wire::Length,
            place: 14,
        });
    }
    let held = held(bytes, count)?;
    Ok(Datagram::Ack(Ack {
        session: u32_at(bytes, 2),
        serial: u32_at(bytes, 6),
        gap: u32_at(bytes, 10),
        held,
    }))
}

// Reads an end, after its head was found whole.
fn bye(bytes: &[u8]) -> Result<Datagram<'_>, WireFault>
    requires { BYE_BYTES ≤ length bytes.now }
    ensures { as_message result ≡ parsed_bye bytes.now }
{
    if bytes.len() != BYE_BYTES {
        return Err(WireFault {
            what: Wire::Length,
            place: BYE_BYTES as u16,
        });
    }
    Ok(Datagram::Bye(Bye {
        session: u32_at(bytes, 2),
        last: u32_at(bytes, 6),
    }))
}

// How many bytes the head of a kind has.
fn head_length(kind: u8) -> usize
    ensures { result ≡ head_length kind }
{
    match kind {
        ACK_KIND => ACK_HEAD,
        BYE_KIND => BYE_BYTES,
        _ => FRAGMENT_HEAD,
    }
}

// The first fault before the fields.
fn front(bytes: &[u8]) -> Option<WireFault>
    ensures first { result ≡ first_fault (front_tests bytes.now) }
    ensures some { result ≡ None → 1 ≤ length bytes.now }
    ensures whole { result ≡ None → head_length (slice_index bytes.now 0) ≤ length bytes.now }
{
    if bytes.len() < 2 {
        return fault(Wire::Short, bytes.len() as u16);
    }
    let kind = bytes[0];
    if kind != FRAGMENT_KIND && kind != ACK_KIND && kind != BYE_KIND {
        return fault(Wire::Kind, 0);
    }
    if bytes[1] != VERSION {
        return fault(Wire::Version, 1);
    }
    if bytes.len() < head_length(kind) {
        return fault(Wire::Short, bytes.len() as u16);
    }
    None
}

// The datagram, or its first fault.
#[tactic(auto, unfolding(crate::specs::Parsing::parsed))]
fn datagram(bytes: &[u8]) -> Result<Datagram<'_>, WireFault>
    ensures { as_message result ≡ parsed bytes.now }
{
    if let Some(fault) = front(bytes) {
        return Err(fault);
    }
    match bytes[0] {
        ACK_KIND => ack(bytes),
        BYE_KIND => bye(bytes),
        _ => fragment(bytes),
    }
}

/// The datagram that has these bytes, or the first test that they fail with its place. It takes no memory, and a
/// fragment's data is lent from the bytes.
pub fn read(bytes: &[u8]) -> Result<Datagram<'_>, WireFault>
    ensures first { as_message result ≡ parsed bytes.now }
    ensures spelled { (d : Message) → as_message result ≡ Ok d → Serializes bytes.now d }
    ensures again { (d : Message) → Serializes bytes.now d → as_message result ≡ Ok d }
    ensures meets { IfOk result (λ d. IsDatagram (message_of d)) }
{
    datagram(bytes)
}
