ghost use Rattle.std.specs.Prelude.{◌≡◌, ◌+◌, ◌<◌, true};

use super::*;
use sal_base::{Bytes, Name};
use sal_wire::Fragment;
use std::alloc::Global;
use std::test::Fail;

// What the cases say of a fragment. The names are told apart by their fourth and their last sent byte.
#[derive(Clone, Copy)]
struct Case<'a> {
    number: u32,
    floor: u32,
    source: u8,
    target: u8,
    index: u16,
    count: u16,
    bytes: &'a [u8],
}

// What was answered, without a frame's bytes.
#[derive(Clone, Copy, Debug, PartialEq, Eq)]
enum Said {
    Stale,
    Clash(ClashField, u64, u64),
    Repeat,
    Complete(usize),
    Kept,
}

fn in_short(answer: &Offered) -> Said {
    match answer {
        Offered::Stale => Said::Stale,
        Offered::Clash(field, kept, new) => Said::Clash(*field, *kept, *new),
        Offered::Repeat => Said::Repeat,
        Offered::Complete(bytes) => Said::Complete(bytes.len()),
        Offered::Kept => Said::Kept,
    }
}

fn bytes_of(answer: Option<Offered>) -> Option<Bytes> {
    match answer {
        Some(Offered::Complete(bytes)) => Some(bytes),
        _ => None,
    }
}

// Whether a part with this index may have this length.
fn fits_place(length: usize, index: u16, count: u16) -> bool
    requires { index < count }
    ensures { result ≡ true → index + 1 < count → length ≡ 1200 }
{
    if count - index == 1 {
        return true;
    }
    length == 1200
}

// A part of frame 5.
fn part(index: u16, count: u16, bytes: &[u8]) -> Case<'_> {
    Case {
        number: 5,
        floor: 3,
        source: 6,
        target: 7,
        index,
        count,
        bytes,
    }
}

// Offers a case; nothing where it is no fragment, or for want of memory.
#[tactic(auto, unfolding(sal_wire::specs::Layout::name_bytes))]
fn offered(slots: &mut Slots, alloc: Global, case: Case) -> Option<Offered> {
    let length = case.bytes.len();
    if case.floor == 0 || case.number < case.floor || case.number - case.floor > 15 {
        return None;
    }
    if case.number > 1048575 || case.index >= case.count || case.count > 4096 {
        return None;
    }
    if length == 0 || length > 1200 || !fits_place(length, case.index, case.count) {
        return None;
    }
    let fragment = Fragment {
        session: 1,
        serial: 1,
        number: case.number,
        floor: case.floor,
        source: Name([1, 1, 1, case.source, 1, 1, 1, 1, 0, 0, 0, 0, 0, 0, 0, 0]),
        target: Name([2, 2, 2, 2, 2, 2, 2, case.target, 0, 0, 0, 0, 0, 0, 0, 0]),
        index: case.index,
        count: case.count,
        pause: 0,
        width: 48,
        height: 48,
        rate: (30, 1),
        bytes: case.bytes,
    };
    slots.offer(alloc, &fragment).ok()
}

// The same of many cases, each with what is to be answered.
fn first_other(slots: &mut Slots, alloc: Global, cases: &[(Case, Said)]) -> Option<usize> {
    for i in 0..cases.len() {
        let (case, wanted) = cases[i];
        match offered(slots, alloc, case) {
            Some(answer) if in_short(&answer) == wanted => {}
            _ => return Some(i),
        }
    }
    None
}

#[test]
fn three_fragments_in_another_order(rt: HostRuntime) -> Result<(), Fail> {
    let alloc = rt.alloc();
    let Ok(mut slots) = Slots::new(alloc) else {
        panic!(rt; "no slots");
    };
    let mut frame = [0u8; 3461];
    for i in 0..frame.len() {
        frame[i] = (i % 251) as u8;
    }
    let first = part(0, 3, &frame[..1200]);
    let second = part(1, 3, &frame[1200..2400]);
    let third = part(2, 3, &frame[2400..]);
    let cases = [
        (third, Said::Kept),
        (first, Said::Kept),
        (first, Said::Repeat),
    ];
    assert_eq!(rt; first_other(&mut slots, alloc, &cases), None);
    let Some(bytes) = bytes_of(offered(&mut slots, alloc, second)) else {
        panic!(rt; "not complete");
    };
    assert_eq!(rt; bytes.as_slice(), frame.as_slice());
    let again = [
        (first, Said::Repeat),
        (second, Said::Repeat),
        (third, Said::Repeat),
    ];
    assert_eq!(rt; first_other(&mut slots, alloc, &again), None);
    Ok(())
}

// What is kept: a part and the last part of frame 5, whose floor is 3.
#[test]
fn each_clash_changes_nothing(rt: HostRuntime) -> Result<(), Fail> {
    let alloc = rt.alloc();
    let Ok(mut slots) = Slots::new(alloc) else {
        panic!(rt; "no slots");
    };
    let whole = [7u8; 1200];
    let mut other = whole;
    other[1199] = 8;
    let kept = part(0, 3, &whole);
    let last = part(2, 3, &whole[..5]);
    let longer = part(2, 3, &whole[..6]);
    let changed = part(0, 3, &other);
    let cases = [
        (kept, Said::Kept),
        (last, Said::Kept),
        (
            Case { source: 9, ..kept },
            Said::Clash(ClashField::Source, 774, 777),
        ),
        (
            Case { target: 0, ..kept },
            Said::Clash(ClashField::Target, 1799, 1792),
        ),
        (
            Case { count: 4, ..kept },
            Said::Clash(ClashField::Count, 3, 4),
        ),
        (longer, Said::Clash(ClashField::Length, 5, 6)),
        (changed, Said::Clash(ClashField::Data, 306951, 306952)),
        // a clash raises no floor, so number 3 may still come
        (
            Case {
                floor: 5,
                count: 4,
                ..kept
            },
            Said::Clash(ClashField::Count, 3, 4),
        ),
        (Case { number: 3, ..kept }, Said::Kept),
        (kept, Said::Repeat),
        (last, Said::Repeat),
        (part(1, 3, &other), Said::Complete(2405)),
    ];
    assert_eq!(rt; first_other(&mut slots, alloc, &cases), None);
    Ok(())
}

#[test]
fn the_first_of_several_clashes_is_answered(rt: HostRuntime) -> Result<(), Fail> {
    let alloc = rt.alloc();
    let Ok(mut slots) = Slots::new(alloc) else {
        panic!(rt; "no slots");
    };
    let whole = [7u8; 1200];
    let mut other = whole;
    other[1199] = 8;
    let kept = part(0, 3, &whole);
    let changed = part(0, 3, &other);
    let cases = [
        (kept, Said::Kept),
        (
            Case {
                source: 9,
                target: 0,
                count: 4,
                ..changed
            },
            Said::Clash(ClashField::Source, 774, 777),
        ),
        (
            Case {
                target: 0,
                count: 4,
                ..changed
            },
            Said::Clash(ClashField::Target, 1799, 1792),
        ),
        (
            Case {
                count: 4,
                ..changed
            },
            Said::Clash(ClashField::Count, 3, 4),
        ),
    ];
    assert_eq!(rt; first_other(&mut slots, alloc, &cases), None);
    Ok(())
}

#[test]
fn numbers_below_the_floor(rt: HostRuntime) -> Result<(), Fail> {
    let alloc = rt.alloc();
    let Ok(mut slots) = Slots::new(alloc) else {
        panic!(rt; "no slots");
    };
    let bytes = [1u8, 2, 3];
    let one = part(0, 1, &bytes);
    let cases = [
        (one, Said::Complete(3)),
        (Case { number: 4, ..one }, Said::Complete(3)),
        (
            Case {
                number: 2,
                floor: 2,
                ..one
            },
            Said::Stale,
        ),
        (Case { number: 18, ..one }, Said::Complete(3)),
        // number 21 has the place of number 5, which its floor lets go
        (
            Case {
                number: 21,
                floor: 6,
                ..one
            },
            Said::Complete(3),
        ),
        (one, Said::Stale),
        (Case { source: 9, ..one }, Said::Stale),
        (
            Case {
                number: 18,
                floor: 4,
                ..one
            },
            Said::Repeat,
        ),
        // a repeat raises the floor too
        (
            Case {
                number: 21,
                floor: 20,
                ..one
            },
            Said::Repeat,
        ),
        (
            Case {
                number: 18,
                floor: 4,
                ..one
            },
            Said::Stale,
        ),
    ];
    assert_eq!(rt; first_other(&mut slots, alloc, &cases), None);
    Ok(())
}
