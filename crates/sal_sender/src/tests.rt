ghost use Rattle.std.specs.Prelude.{◌≡◌, ◌≤◌};

use super::*;
use sal_base::{Bytes, Name, Picture};
use sal_codec::Plain;
use sal_wire::{Datagram, Wire, WireFault, read};
use sal_y4m::Head;
use std::alloc::Global;
use std::sync::Arc;
use std::test::Fail;

fn head(side: u16) -> Head
    ensures width { result.width ≡ side }
    ensures height { result.height ≡ side }
    ensures pictures { result.rate.0 ≡ 30 }
    ensures seconds { result.rate.1 ≡ 1 }
{
    Head {
        width: side,
        height: side,
        rate: (30, 1),
    }
}

// Something that happens to a sender.
#[derive(Clone, Copy)]
enum Event {
    // A picture of this luma starts.
    Start(u8),
    // The next job is taken, run and reported.
    Run,
    Choose,
    // So many pictures start; all their jobs are run and reported, and a choice is made.
    Send(u8),
    // An acknowledgement with a serial and the numbers held, under the names that their datagrams said.
    Hear(u8, &'static [u8]),
    // An acknowledgement comes without its last byte.
    HearCut,
    // The time goes on.
    Wait(u64),
}

// What it was answered.
#[derive(Clone, Copy, Debug, PartialEq, Eq)]
enum Said {
    Next(Next),
    NoJob,
    Reported(Reported),
    NoPicture,
    Waiting(u32),
    // The choice's number, job, source, floor and count; its datagrams say the same.
    Sent(u32, u32, u32, u32, u32),
    // Its datagrams say something else.
    Astray,
    Nothing(u32, Option<Size>, Option<Size>),
    Heard(usize),
    Ignored(Ignore),
    Memory,
}

#[derive(Drop)]
struct Notes {
    alloc: Global,
    moment: u64,
    // The names that the datagrams of each choice said, the first choice's first.
    names: Vec<Name>,
}

// Whether a datagram is the part of a choice with this index, and then the name that it says.
fn target_of(choice: &Choice, index: usize, datagram: &Bytes) -> Option<Name> {
    let Ok(Datagram::Fragment(part)) = read(datagram.as_slice()) else {
        return None;
    };
    let is_own = part.number == choice.number
        && part.floor == choice.floor
        && u32::from(part.count) == choice.count
        && usize::from(part.index) == index
        && u64::from(part.serial) == u64::from(choice.first_serial) + index as u64;
    if is_own { Some(part.target) } else { None }
}

// The name that all datagrams of a choice say.
fn target(choice: &Choice, burst: &[Bytes]) -> Option<Name> {
    let mut name = None;
    if burst.len() as u64 != u64::from(choice.count) {
        return None;
    }
    for (index, datagram) in burst.iter().enumerate() {
        name = Some(target_of(choice, index, datagram)?);
    }
    name
}

fn sent(notes: &mut Notes, choice: &Choice, burst: &[Bytes]) -> Said {
    let Some(name) = target(choice, burst) else {
        return Said::Astray;
    };
    if notes.names.push(name).is_err() {
        return Said::Memory;
    }
    Said::Sent(
        choice.number,
        choice.job,
        choice.source,
        choice.floor,
        choice.count,
    )
}

fn choose(sender: &mut Sender<Plain>, notes: &mut Notes) -> Said
    ensures { sender.new.session ≡ sender.old.session }
{
    match sender.choose(notes.moment) {
        Chosen::NoPicture => Said::NoPicture,
        Chosen::Waiting(id) => Said::Waiting(id),
        Chosen::Sent(choice, burst) => sent(notes, &choice, burst.as_slice()),
        Chosen::Nothing(budget, sizes) => {
            let sizes = sizes.as_slice();
            Said::Nothing(budget, sizes.first().copied(), sizes.get(1).copied())
        }
        Chosen::Memory => Said::Memory,
    }
}

fn start(sender: &mut Sender<Plain>, alloc: Global, side: u16, luma: u8, moment: u64) -> Said
    requires width { sender.old.session.head.width ≡ side }
    requires height { sender.old.session.head.height ≡ side }
    ensures { sender.new.session ≡ sender.old.session }
{
    let Ok(picture) = Picture::new(alloc, side, side, luma) else {
        return Said::Memory;
    };
    let Ok(picture) = Arc::new(alloc, picture) else {
        return Said::Memory;
    };
    Said::Next(sender.next_picture(picture, moment))
}

fn run(sender: &mut Sender<Plain>, alloc: Global) -> Said
    ensures { sender.new.session ≡ sender.old.session }
{
    match sender.take_job() {
        Some(job) => Said::Reported(sender.report(job.run(alloc, &Plain))),
        None => Said::NoJob,
    }
}

// Sends a picture, another one than before.
fn send_one(sender: &mut Sender<Plain>, notes: &mut Notes, side: u16) -> Said
    requires width { sender.old.session.head.width ≡ side }
    requires height { sender.old.session.head.height ≡ side }
    ensures { sender.new.session ≡ sender.old.session }
{
    let luma = (notes.names.len() % 200) as u8;
    let _started = start(sender, notes.alloc, side, luma, notes.moment);
    let _first = run(sender, notes.alloc);
    let _second = run(sender, notes.alloc);
    let _third = run(sender, notes.alloc);
    choose(sender, notes)
}

// Sends so many pictures, and answers as the last one was.
fn send(sender: &mut Sender<Plain>, notes: &mut Notes, side: u16, count: u8) -> Said
    requires width { sender.old.session.head.width ≡ side }
    requires height { sender.old.session.head.height ≡ side }
    ensures { sender.new.session ≡ sender.old.session }
{
    let said = send_one(sender, notes, side);
    if count <= 1 {
        said
    } else {
        send(sender, notes, side, count - 1)
    }
}

// An acknowledgement of session 1 with a gap of 10,000 microseconds.
fn acknowledgement(alloc: Global, names: &[Name], serial: u8, numbers: &[u8]) -> Option<Vec<u8>> {
    let count = (numbers.len() % 256) as u8;
    let mut bytes = Vec::from_slice(
        alloc,
        &[
            0x41, 1, 0, 0, 0, 1, 0, 0, 0, serial, 0, 0, 0x27, 0x10, count,
        ],
    )
    .ok()?;
    for number in numbers {
        let name = names.get((*number as usize).checked_sub(1)?)?;
        bytes.extend_from_slice(&[0, 0, 0, *number]).ok()?;
        bytes.extend_from_slice(&name.0[..8]).ok()?;
    }
    Some(bytes)
}

fn hear(sender: &mut Sender<Plain>, notes: &Notes, serial: u8, numbers: &[u8]) -> Said
    ensures { sender.new.session ≡ sender.old.session }
{
    let Some(bytes) = acknowledgement(notes.alloc, notes.names.as_slice(), serial, numbers) else {
        return Said::Memory;
    };
    heard(sender, bytes.as_slice(), notes.moment)
}

fn heard(sender: &mut Sender<Plain>, bytes: &[u8], moment: u64) -> Said
    ensures { sender.new.session ≡ sender.old.session }
{
    match sender.heard(bytes, moment) {
        HeardAck::Heard(numbers) => Said::Heard(numbers.as_slice().len()),
        HeardAck::Ignored(why) => Said::Ignored(why),
    }
}

fn step(sender: &mut Sender<Plain>, notes: &mut Notes, side: u16, event: Event) -> Option<Said>
    requires width { sender.old.session.head.width ≡ side }
    requires height { sender.old.session.head.height ≡ side }
    ensures { sender.new.session ≡ sender.old.session }
{
    match event {
        Event::Start(luma) => Some(start(sender, notes.alloc, side, luma, notes.moment)),
        Event::Run => Some(run(sender, notes.alloc)),
        Event::Choose => Some(choose(sender, notes)),
        Event::Send(count) => Some(send(sender, notes, side, count)),
        Event::Hear(serial, numbers) => Some(hear(sender, notes, serial, numbers)),
        Event::HearCut => Some(heard(sender, &OLD[..14], notes.moment)),
        Event::Wait(time) => {
            notes.moment = notes.moment.saturating_add(time);
            None
        }
    }
}

// Adds what each event was answered, but the passing of time.
fn play(
    sender: &mut Sender<Plain>,
    notes: &mut Notes,
    said: &mut Vec<Said>,
    side: u16,
    events: &[Event],
) -> bool
    requires width { sender.old.session.head.width ≡ side }
    requires height { sender.old.session.head.height ≡ side }
{
    let Some((event, more)) = events.split_first() else {
        return true;
    };
    if let Some(answer) = step(sender, notes, side, *event) {
        if said.push(answer).is_err() {
            return false;
        }
    }
    play(sender, notes, said, side, more)
}

// What a new sender of pictures with two sides of this length answers.
fn played(alloc: Global, side: u16, events: &[Event]) -> Option<Vec<Said>>
    requires some { 1 ≤ side }
    requires fits { side ≤ 720 }
{
    let Ok(mut sender) = Sender::new(alloc, Plain, 1, head(side)) else {
        return None;
    };
    let mut notes = Notes {
        alloc,
        moment: 0,
        names: Vec::new(alloc),
    };
    let mut said = Vec::new(alloc);
    if play(&mut sender, &mut notes, &mut said, side, events) {
        Some(said)
    } else {
        None
    }
}

// A report that comes after the choice is late, and one datagram was sent: the serial after it wasn't, and a cut
// acknowledgement is too short.
const LATE: ([Event; 11], [Said; 11]) = (
    [
        Event::Choose,
        Event::Start(128),
        Event::Start(128),
        Event::Choose,
        Event::Run,
        Event::Choose,
        Event::Run,
        Event::Run,
        Event::Choose,
        Event::Hear(2, &[]),
        Event::HearCut,
    ],
    [
        Said::NoPicture,
        Said::Next(Next::Started(2)),
        Said::Next(Next::NotChosen(1)),
        Said::Waiting(1),
        Said::Reported(Reported::Kept),
        Said::Sent(1, 1, 0, 1, 1),
        Said::Reported(Reported::Late),
        Said::NoJob,
        Said::NoPicture,
        Said::Ignored(Ignore::Serial(1, 2)),
        Said::Ignored(Ignore::Wire(WireFault {
            what: Wire::Short,
            place: 14,
        })),
    ],
);

// After a loss the sender returns to the safe state.
const RETURN: ([Event; 10], [Said; 10]) = (
    [
        Event::Send(1),
        Event::Hear(1, &[]),
        Event::Send(1),
        Event::Send(1),
        Event::Hear(3, &[1]),
        Event::Send(1),
        Event::Hear(4, &[1]),
        Event::Send(1),
        Event::Hear(5, &[1]),
        Event::Send(1),
    ],
    [
        Said::Sent(1, 2, 0, 1, 1),
        Said::Heard(0),
        Said::Sent(2, 5, 1, 1, 1),
        Said::Sent(3, 8, 2, 1, 1),
        Said::Heard(1),
        Said::Sent(4, 11, 3, 1, 1),
        Said::Heard(0),
        Said::Sent(5, 14, 4, 1, 1),
        Said::Heard(0),
        Said::Sent(6, 16, 1, 1, 1),
    ],
);

// The floor rises with what is safe, and an old acknowledgement changes nothing.
const RISE: ([Event; 8], [Said; 8]) = (
    [
        Event::Send(1),
        Event::Hear(1, &[]),
        Event::Send(1),
        Event::Hear(2, &[1]),
        Event::Send(1),
        Event::Hear(3, &[1, 2]),
        Event::Send(1),
        Event::Hear(2, &[1]),
    ],
    [
        Said::Sent(1, 2, 0, 1, 1),
        Said::Heard(0),
        Said::Sent(2, 5, 1, 1, 1),
        Said::Heard(1),
        Said::Sent(3, 8, 2, 1, 1),
        Said::Heard(1),
        Said::Sent(4, 11, 3, 2, 1),
        Said::Ignored(Ignore::Old),
    ],
);

// A full window begins again with a key frame, as soon as half a second is silent.
const FULL: ([Event; 6], [Said; 4]) = (
    [
        Event::Send(16),
        Event::Send(1),
        Event::Wait(499_999),
        Event::Send(1),
        Event::Wait(1),
        Event::Send(1),
    ],
    [
        Said::Sent(16, 47, 15, 1, 1),
        Said::Nothing(0, Some(Size::Datagrams(1)), Some(Size::Datagrams(1))),
        Said::Nothing(0, Some(Size::Datagrams(1)), Some(Size::Datagrams(1))),
        Said::Sent(17, 53, 0, 17, 1),
    ],
);

// A loss that is heard while a picture is open is mended by its spare job.
const SPARE: ([Event; 10], [Said; 10]) = (
    [
        Event::Send(2),
        Event::Hear(2, &[1]),
        Event::Send(3),
        Event::Start(9),
        Event::Hear(5, &[1]),
        Event::Run,
        Event::Choose,
        Event::Run,
        Event::Choose,
        Event::Run,
    ],
    [
        Said::Sent(2, 5, 1, 1, 1),
        Said::Heard(1),
        Said::Sent(5, 14, 4, 1, 1),
        Said::Next(Next::Started(3)),
        Said::Heard(0),
        Said::Reported(Reported::Kept),
        Said::Waiting(16),
        Said::Reported(Reported::Kept),
        Said::Sent(6, 16, 1, 1, 1),
        Said::Reported(Reported::Late),
    ],
);

// Frames of three datagrams: nothing fits where one datagram may be sent.
const LARGE: ([Event; 4], [Said; 4]) = (
    [
        Event::Send(5),
        Event::Send(1),
        Event::Hear(3, &[1]),
        Event::Send(1),
    ],
    [
        Said::Sent(5, 14, 4, 1, 3),
        Said::Nothing(1, Some(Size::Datagrams(3)), Some(Size::Datagrams(3))),
        Said::Heard(1),
        Said::Sent(6, 20, 5, 1, 3),
    ],
);

// Whether a new sender answers these events so.
fn says(alloc: Global, side: u16, events: &[Event], answers: &[Said]) -> bool
    requires some { 1 ≤ side }
    requires fits { side ≤ 720 }
{
    match played(alloc, side, events) {
        Some(said) => said.as_slice() == answers,
        None => false,
    }
}

#[test]
fn choices(rt: HostRuntime) -> Result<(), Fail> {
    let alloc = rt.alloc();
    assert!(rt; says(alloc, 16, &LATE.0, &LATE.1), "a late report");
    assert!(rt;
        says(alloc, 16, &RETURN.0, &RETURN.1),
        "the return to the safe state"
    );
    assert!(rt; says(alloc, 16, &RISE.0, &RISE.1), "the floor");
    assert!(rt; says(alloc, 16, &FULL.0, &FULL.1), "the full window");
    assert!(rt; says(alloc, 16, &SPARE.0, &SPARE.1), "the spare job");
    assert!(rt;
        says(alloc, 48, &LARGE.0, &LARGE.1),
        "frames of three datagrams"
    );
    Ok(())
}

// Why a new sender of session 1 leaves bytes alone.
fn ignored(alloc: Global, bytes: &[u8]) -> Option<Ignore> {
    let Ok(mut sender) = Sender::new(alloc, Plain, 1, head(16)) else {
        return None;
    };
    match sender.heard(bytes, 0) {
        HeardAck::Ignored(why) => Some(why),
        HeardAck::Heard(_) => None,
    }
}

const UNSENT: [u8; 15] = [0x41, 1, 0, 0, 0, 1, 0, 0, 0, 2, 0, 0, 0x23, 0x28, 0];

const OLD: [u8; 15] = [0x41, 1, 0, 0, 0, 1, 0, 0, 0, 0, 0, 0, 0x23, 0x28, 0];

const OTHER: [u8; 15] = [0x41, 1, 0, 0, 0, 2, 0, 0, 0, 0, 0, 0, 0x23, 0x28, 0];

#[test]
fn acknowledgements_before_any_choice(rt: HostRuntime) -> Result<(), Fail> {
    let alloc = rt.alloc();
    let short = WireFault {
        what: Wire::Short,
        place: 14,
    };
    assert_eq!(rt; ignored(alloc, &UNSENT), Some(Ignore::Serial(0, 2)));
    assert_eq!(rt; ignored(alloc, &OLD), Some(Ignore::Old));
    assert_eq!(rt; ignored(alloc, &OTHER), Some(Ignore::Session));
    assert_eq!(rt; ignored(alloc, &OLD[..14]), Some(Ignore::Wire(short)));
    Ok(())
}
