ghost use Rattle.std.specs.Prelude.{List, IfSome};
ghost use Rattle.sal_receiver.specs.Past.{ReceiverCall};
ghost use Rattle.sal_receiver.specs.Machine.{ReceiverStands};

use super::*;
use sal_base::{Fault, Name};
use sal_codec::{Codec, Plain};
use sal_reasm::ClashField;
use sal_wire::{Wire, WireFault};
use std::alloc::Global;
use std::sync::Arc;
use std::test::Fail;

// Delivers the bytes to a receiver that stands for some calls.
fn put<C: Codec>(receiver: &mut Receiver<C>, alloc: Global, bytes: &[u8]) -> Delivered
    requires { (past : List (ReceiverCall C.State)) × ReceiverStands C.coding receiver.old past }
    ensures { (past : List (ReceiverCall C.State)) × ReceiverStands C.coding receiver.new past }
{
    receiver.deliver(alloc, bytes, 0)
}

// Decodes the next ready frame.
fn next<C: Codec>(receiver: &mut Receiver<C>, alloc: Global, codec: &C) -> Option<Done>
    requires { (past : List (ReceiverCall C.State)) × ReceiverStands C.coding receiver.old past }
    ensures { (past : List (ReceiverCall C.State)) × ReceiverStands C.coding receiver.new past }
{
    match receiver.take_ready() {
        Some(ready) => Some(receiver.decoded(ready.run(alloc, codec))),
        None => None,
    }
}

// The part of index 0 of 1 of the key frame of number 1, of 16 by 16 pictures.
const PART: [u8; 57] = [
    0x46, 1, 0, 0, 0, 1, 0, 0, 0, 1, 0, 0, 0, 1, 0, 0, 0, 1, 0, 0, 0, 0, 0, 0, 0, 0, 0xa1, 0xa2,
    0xa3, 0xa4, 0xa5, 0xa6, 0xa7, 0xa8, 0, 0, 0, 1, 0, 0, 0, 0, 0, 16, 0, 16, 0, 0, 0, 30, 0, 0, 0,
    1, 0, 1, 7,
];

fn cause(answer: Delivered) -> Option<Refuse> {
    match answer {
        Delivered::Refused(cause) => Some(cause),
        _ => None,
    }
}

fn is_taken(answer: Delivered) -> bool {
    matches!(answer, Delivered::Taken(_))
}

fn receiver<C: Codec>(alloc: Global, codec: &C) -> Option<Receiver<C>>
    ensures { IfSome result (λ r. (past : List (ReceiverCall C.State)) × ReceiverStands C.coding r past) }
{
    let Ok(initial) = codec.initial(alloc) else {
        return None;
    };
    let Ok(initial) = Arc::new(alloc, initial) else {
        return None;
    };
    Receiver::new(alloc, initial).ok()
}

#[test]
fn refused_and_taken(rt: HostRuntime) -> Result<(), Fail> {
    let alloc = rt.alloc();
    let Some(mut receiver) = receiver(alloc, &Plain) else {
        panic!(rt; "no receiver");
    };
    let length = WireFault {
        what: Wire::Length,
        place: 54,
    };
    let short = WireFault {
        what: Wire::Short,
        place: 55,
    };
    let window = WireFault {
        what: Wire::Window,
        place: 10,
    };
    let answer = receiver.deliver(alloc, &PART[..56], 0);
    assert_eq!(rt; cause(answer), Some(Refuse::Wire(length)));
    let answer = receiver.deliver(alloc, &PART[..55], 0);
    assert_eq!(rt; cause(answer), Some(Refuse::Wire(short)));
    let mut far = PART;
    far[13] = 17;
    let answer = receiver.deliver(alloc, &far, 0);
    assert_eq!(rt; cause(answer), Some(Refuse::Wire(window)));
    far[13] = 16;
    let answer = receiver.deliver(alloc, &far, 0);
    assert!(rt; is_taken(answer));
    let mut other = PART;
    other[5] = 2;
    let answer = receiver.deliver(alloc, &other, 0);
    assert_eq!(rt; cause(answer), Some(Refuse::Session));
    let answer = receiver.deliver(alloc, &PART, 0);
    assert!(rt; is_taken(answer));
    let mut new = PART;
    new[56] = 8;
    let answer = receiver.deliver(alloc, &new, 0);
    assert_eq!(rt; cause(answer), Some(Refuse::Clash(ClashField::Data, 7, 8)));
    Ok(())
}

// A part of the key frame of number 1, whose pictures have two sides of this length.
fn part(
    alloc: Global,
    target: &Name,
    index: u8,
    count: u8,
    side: u8,
    bytes: &[u8],
) -> Option<Vec<u8>> {
    let length = bytes.len();
    if length > 1200 {
        return None;
    }
    let mut out = Vec::new(alloc);
    out.extend_from_slice(&PART[..26]).ok()?;
    out.extend_from_slice(&target.0[..8]).ok()?;
    out.extend_from_slice(&[0, index, 0, count, 0, 0, 0, 0, 0, side, 0, side])
        .ok()?;
    out.extend_from_slice(&PART[46..54]).ok()?;
    out.extend_from_slice(&[(length / 256) as u8, (length % 256) as u8])
        .ok()?;
    out.extend_from_slice(bytes).ok()?;
    Some(out)
}

// A key frame of these sides, all samples 128.
fn key_frame(alloc: Global, side: u8) -> Option<Vec<u8>> {
    let samples = side as usize * side as usize * 3 / 2;
    let mut out = Vec::new(alloc);
    out.extend_from_slice(&[0, 0, side, 0, side]).ok()?;
    for _ in 0..samples {
        out.push(128).ok()?;
    }
    Some(out)
}

// The name of the state to which a key frame leads.
fn name_of_frame(alloc: Global, bytes: &[u8]) -> Option<Name> {
    let initial = Plain.initial(alloc).ok()?;
    let decoded = Plain.decode(alloc, &initial, bytes).ok()?;
    Some(Plain.name(&decoded.state))
}

// What the one part of a frame of 16 by 16 pictures comes to.
fn judged(alloc: Global, target: &Name, bytes: &[u8]) -> Option<Done> {
    let mut receiver = receiver(alloc, &Plain)?;
    let part = part(alloc, target, 0, 1, 16, bytes)?;
    let _answer = put(&mut receiver, alloc, part.as_slice());
    next(&mut receiver, alloc, &Plain)
}

#[test]
fn forged_frames(rt: HostRuntime) -> Result<(), Fail> {
    let alloc = rt.alloc();
    let Some(Done::Unfit(number, why)) = judged(alloc, &Name::ZERO, &[2]) else {
        panic!(rt; "the frame fits");
    };
    assert_eq!(rt; (number, why), (1, Misfit::Fault(Fault::BadStart)));
    let Some(frame) = key_frame(alloc, 16) else {
        panic!(rt; "no frame");
    };
    let Some(name) = name_of_frame(alloc, frame.as_slice()) else {
        panic!(rt; "no name");
    };
    let Some(Done::Misnamed(said, found)) = judged(alloc, &Name::ZERO, frame.as_slice()) else {
        panic!(rt; "the name is right");
    };
    assert_eq!(rt; (said, found), (Name::ZERO, name));
    let Some(Done::Show(number, picture)) = judged(alloc, &name, frame.as_slice()) else {
        panic!(rt; "the frame isn't shown");
    };
    assert_eq!(rt; (number, picture.width, picture.height), (1, 16, 16));
    Ok(())
}

// What a part of a frame comes to.
#[derive(Clone, Copy, Debug, PartialEq, Eq)]
enum After {
    Refused,
    NothingReady,
    Shown(u32),
    NotShown,
}

// Delivers a part, and decodes the frame that is ready then.
fn came<C: Codec>(receiver: &mut Receiver<C>, alloc: Global, codec: &C, part: &[u8]) -> After
    requires { (past : List (ReceiverCall C.State)) × ReceiverStands C.coding receiver.old past }
    ensures { (past : List (ReceiverCall C.State)) × ReceiverStands C.coding receiver.new past }
{
    let taken = is_taken(put(receiver, alloc, part));
    let done = next(receiver, alloc, codec);
    if !taken {
        return After::Refused;
    }
    match done {
        Some(Done::Show(number, _)) => After::Shown(number),
        Some(_) => After::NotShown,
        None => After::NothingReady,
    }
}

// What the third, the first, the first, the second and the second of three parts come to.
fn each_came(alloc: Global, first: &[u8], second: &[u8], third: &[u8]) -> Option<[After; 5]> {
    let mut receiver = receiver(alloc, &Plain)?;
    let one = came(&mut receiver, alloc, &Plain, third);
    let two = came(&mut receiver, alloc, &Plain, first);
    let three = came(&mut receiver, alloc, &Plain, first);
    let four = came(&mut receiver, alloc, &Plain, second);
    let five = came(&mut receiver, alloc, &Plain, second);
    Some([one, two, three, four, five])
}

// The same of the parts of a frame of 48 by 48 pictures.
fn delivered(alloc: Global, frame: &[u8]) -> Option<[After; 5]> {
    let name = name_of_frame(alloc, frame)?;
    let first = part(alloc, &name, 0, 3, 48, frame.get(..1200)?)?;
    let second = part(alloc, &name, 1, 3, 48, frame.get(1200..2400)?)?;
    let third = part(alloc, &name, 2, 3, 48, frame.get(2400..)?)?;
    each_came(alloc, first.as_slice(), second.as_slice(), third.as_slice())
}

#[test]
fn parts_in_any_order(rt: HostRuntime) -> Result<(), Fail> {
    let alloc = rt.alloc();
    let Some(frame) = key_frame(alloc, 48) else {
        panic!(rt; "no frame");
    };
    assert_eq!(rt; frame.as_slice().len(), 3461);
    let shown_once = [
        After::NothingReady,
        After::NothingReady,
        After::NothingReady,
        After::Shown(1),
        After::NothingReady,
    ];
    assert_eq!(rt; delivered(alloc, frame.as_slice()), Some(shown_once));
    Ok(())
}
