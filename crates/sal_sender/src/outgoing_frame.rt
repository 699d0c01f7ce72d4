//! A frame that is to be sent, and its datagrams.

ghost use Rattle.std.specs.Prelude.{◌≡◌, ◌<◌, ◌≤◌, ◌+◌, ◌^◌, length, IfOk};
ghost use Rattle.sal_wire.specs.Layout.{fragment_bytes};
ghost use Rattle.sal_wire.specs.Fragmentation.{fragment_count, fragment_data};
ghost use Rattle.sal_sender.specs.Packetizing.{IsOutgoing, fragment_of, datagrams_of};

use crate::choice::Choice;
use crate::lists::Burst;
use sal_base::{Bytes, Memory, Name};
use sal_wire::{Datagram, Fragment, MAX_DATA, write};
use sal_y4m::Head;
use std::alloc::Global;

/// A frame that is to be sent for a choice, with what its datagrams say of it.
#[derive(Clone, Copy)]
pub struct OutgoingFrame<'a> {
    /// The session's number.
    pub session: u32,
    /// The session's picture size and rate.
    pub head: Head,
    /// The choice that it is sent for.
    pub choice: Choice,
    /// The name of the state that the frame was encoded from.
    pub source: Name,
    /// The name of the state that decoding it gives.
    pub target: Name,
    /// Microseconds since the frame before was chosen, 0 for the first, at most 4,294,967,295.
    pub pause: u32,
    /// The frame, of 1 to 4,915,200 bytes.
    pub bytes: &'a [u8],
}

/// A name has sixteen bytes.
pub(crate) fn has_sixteen_bytes(name: Name)
    ensures { length name.0 ≡ 16 }
{
    let _bytes = name.0;
}

// The bytes of a frame that its fragment with this index has.
#[tactic(auto, using(std::proofs::lemmas::List::take_min))]
fn piece(bytes: &[u8], index: u32) -> &[u8]
    requires { index < fragment_count bytes.now }
    ensures { result.now ≡ fragment_data bytes.now index }
{
    let rest = &bytes[MAX_DATA * index as usize..];
    &rest[..MAX_DATA.min(rest.len())]
}

// The datagram with this index, counted from 0.
fn datagram(alloc: Global, outgoing: &OutgoingFrame<'_>, index: u32) -> Result<Bytes, Memory>
    requires outgoing { IsOutgoing outgoing.now }
    requires index { index < outgoing.now.choice.count }
    ensures { IfOk result (λ b. b ≡ fragment_bytes (fragment_of outgoing.now index)) }
{
    let choice = &outgoing.choice;
    let fragment = Datagram::Fragment(Fragment {
        session: outgoing.session,
        serial: choice.first_serial + index,
        number: choice.number,
        floor: choice.floor,
        source: outgoing.source,
        target: outgoing.target,
        index: index as u16,
        count: choice.count as u16,
        pause: if index == 0 { outgoing.pause } else { 0 },
        width: outgoing.head.width,
        height: outgoing.head.height,
        rate: outgoing.head.rate,
        bytes: piece(outgoing.bytes, index),
    });
    write(alloc, &fragment)
}

/// Cuts a frame into its datagrams, in the order of their indices; its bytes are copied once.
pub(crate) fn packetize(alloc: Global, outgoing: &OutgoingFrame<'_>) -> Result<Burst, Memory>
    requires { IsOutgoing outgoing.now }
    ensures { IfOk result (λ b. b ≡ datagrams_of outgoing.now outgoing.now.choice.count) }
{
    let mut burst = Burst::new(alloc);
    for index in 0..outgoing.choice.count {
        burst.push(datagram(alloc, outgoing, index)?)?;
    }
    Ok(burst)
}
