use super::*;
use sal_base::Name;
use std::test::Fail;

// Session 1, serial 1, number 1, floor 1, from the initial state, index 0 of 1, 16 by 16, 30:1, one byte.
const FRAGMENT: [u8; 57] = [
    0x46, 0x01, 0, 0, 0, 1, 0, 0, 0, 1, 0, 0, 0, 1, 0, 0, 0, 1, 0, 0, 0, 0, 0, 0, 0, 0, 0xa1, 0xa2,
    0xa3, 0xa4, 0xa5, 0xa6, 0xa7, 0xa8, 0, 0, 0, 1, 0, 0, 0, 0, 0, 0x10, 0, 0x10, 0, 0, 0, 0x1e, 0,
    0, 0, 1, 0, 1, 7,
];

// Session 1, greatest serial 2, gap 9,000, two states.
const ACK: [u8; 39] = [
    0x41, 0x01, 0, 0, 0, 1, 0, 0, 0, 2, 0, 0, 0x23, 0x28, 2, 0, 0, 0, 1, 0xa1, 0xa2, 0xa3, 0xa4,
    0xa5, 0xa6, 0xa7, 0xa8, 0, 0, 0, 3, 0xb1, 0xb2, 0xb3, 0xb4, 0xb5, 0xb6, 0xb7, 0xb8,
];

// Session 1, last number 3.
const BYE: [u8; 10] = [0x42, 0x01, 0, 0, 0, 1, 0, 0, 0, 3];

// The fault of bytes; none where they are a datagram.
fn fault_of(bytes: &[u8]) -> Option<(Wire, u16)> {
    match read(bytes) {
        Ok(_) => None,
        Err(fault) => Some((fault.what, fault.place)),
    }
}

#[test]
fn a_fragment_as_it_stands_on_the_wire(rt: HostRuntime) -> Result<(), Fail> {
    let Ok(datagram) = read(&FRAGMENT) else {
        panic!(rt; "not read");
    };
    let Ok(bytes) = write(rt.alloc(), &datagram) else {
        panic!(rt; "no memory");
    };
    assert_eq!(rt; bytes.as_slice(), FRAGMENT.as_slice());
    let Datagram::Fragment(f) = datagram else {
        panic!(rt; "another kind");
    };
    assert_eq!(rt; (f.session, f.serial, f.number, f.floor), (1, 1, 1, 1));
    assert_eq!(rt; f.source, Name::ZERO);
    assert_eq!(rt;
        f.target,
        Name([
            0xa1, 0xa2, 0xa3, 0xa4, 0xa5, 0xa6, 0xa7, 0xa8, 0, 0, 0, 0, 0, 0, 0, 0
        ])
    );
    assert_eq!(rt; (f.index, f.count, f.pause), (0, 1, 0));
    assert_eq!(rt; (f.width, f.height, f.rate), (16, 16, (30, 1)));
    assert_eq!(rt; f.bytes, [7u8].as_slice());
    Ok(())
}

#[test]
fn every_prefix_of_a_fragment(rt: HostRuntime) -> Result<(), Fail> {
    for length in 0..57usize {
        let fault = if length < 56 {
            (Wire::Short, length as u16)
        } else {
            (Wire::Length, 54)
        };
        assert_eq!(rt; fault_of(&FRAGMENT[..length]), Some(fault));
    }
    assert_eq!(rt; fault_of(&FRAGMENT), None);
    Ok(())
}

// Each case writes some bytes of the fragment over: the place of the first, the bytes, and the fault that comes of it.
#[test]
fn each_fault_of_a_fragment(rt: HostRuntime) -> Result<(), Fail> {
    let cases: [(usize, &[u8], Option<(Wire, u16)>); 24] = [
        (0, &[0x47], Some((Wire::Kind, 0))),
        (0, &[0x47, 2], Some((Wire::Kind, 0))),
        (1, &[2], Some((Wire::Version, 1))),
        (9, &[0], Some((Wire::Serial, 6))),
        (9, &[0, 0, 0, 0, 0], Some((Wire::Serial, 6))),
        (10, &[0, 0, 0, 0], Some((Wire::Window, 10))),
        (10, &[0, 0x0f, 0xff, 0xff, 0, 0x0f, 0xff, 0xf0], None),
        (
            10,
            &[0, 0x10, 0, 0, 0, 0x10, 0, 0],
            Some((Wire::Window, 10)),
        ),
        (14, &[0, 0, 0, 0], Some((Wire::Window, 10))),
        (14, &[0, 0, 0, 2], Some((Wire::Window, 10))),
        (13, &[16], None),
        (13, &[17], Some((Wire::Window, 10))),
        (36, &[0, 0], Some((Wire::Index, 34))),
        (34, &[0, 1], Some((Wire::Index, 34))),
        (34, &[0x0f, 0xff, 0x10, 0], None),
        (34, &[0x0f, 0xff, 0x10, 1], Some((Wire::Index, 34))),
        (42, &[0, 0], Some((Wire::Size, 42))),
        (42, &[5, 1], Some((Wire::Size, 42))),
        (44, &[2, 0xd1], Some((Wire::Size, 42))),
        (46, &[0, 0, 0, 0], Some((Wire::Rate, 46))),
        (50, &[0, 0, 0, 0], Some((Wire::Rate, 46))),
        (54, &[0, 0], Some((Wire::Length, 54))),
        (54, &[0, 2], Some((Wire::Length, 54))),
        (36, &[0, 2], Some((Wire::Length, 54))),
    ];
    for (place, written, fault) in cases {
        let mut bytes = FRAGMENT;
        for i in 0..written.len() {
            bytes[place + i] = written[i];
        }
        assert_eq!(rt; fault_of(&bytes), fault);
    }
    Ok(())
}

#[test]
fn an_acknowledgement_as_it_stands_on_the_wire(rt: HostRuntime) -> Result<(), Fail> {
    let Ok(datagram) = read(&ACK) else {
        panic!(rt; "not read");
    };
    let Ok(bytes) = write(rt.alloc(), &datagram) else {
        panic!(rt; "no memory");
    };
    assert_eq!(rt; bytes.as_slice(), ACK.as_slice());
    let Datagram::Ack(a) = datagram else {
        panic!(rt; "another kind");
    };
    assert_eq!(rt; (a.session, a.serial, a.gap), (1, 2, 9000));
    let first = Name([
        0xa1, 0xa2, 0xa3, 0xa4, 0xa5, 0xa6, 0xa7, 0xa8, 0, 0, 0, 0, 0, 0, 0, 0,
    ]);
    let second = Name([
        0xb1, 0xb2, 0xb3, 0xb4, 0xb5, 0xb6, 0xb7, 0xb8, 0, 0, 0, 0, 0, 0, 0, 0,
    ]);
    assert_eq!(rt; a.held.as_slice(), [(1, first), (3, second)].as_slice());
    Ok(())
}

#[test]
fn an_end_as_it_stands_on_the_wire(rt: HostRuntime) -> Result<(), Fail> {
    let Ok(datagram) = read(&BYE) else {
        panic!(rt; "not read");
    };
    let Ok(bytes) = write(rt.alloc(), &datagram) else {
        panic!(rt; "no memory");
    };
    assert_eq!(rt; bytes.as_slice(), BYE.as_slice());
    let Datagram::Bye(bye) = datagram else {
        panic!(rt; "another kind");
    };
    assert_eq!(rt; (bye.session, bye.last), (1, 3));
    Ok(())
}

#[test]
fn each_fault_of_an_acknowledgement_and_an_end(rt: HostRuntime) -> Result<(), Fail> {
    let cases: [(usize, &[u8], Option<(Wire, u16)>); 9] = [
        (1, &[0], Some((Wire::Version, 1))),
        (9, &[0], None),
        (14, &[17], Some((Wire::Held, 14))),
        (14, &[1], Some((Wire::Length, 14))),
        (14, &[16], Some((Wire::Length, 14))),
        (18, &[0], Some((Wire::Held, 15))),
        (16, &[0x10, 0, 0], Some((Wire::Held, 15))),
        (30, &[1], Some((Wire::Held, 27))),
        (28, &[0x10, 0, 0], Some((Wire::Held, 27))),
    ];
    for (place, written, fault) in cases {
        let mut bytes = ACK;
        for i in 0..written.len() {
            bytes[place + i] = written[i];
        }
        assert_eq!(rt; fault_of(&bytes), fault);
    }
    let ends: [(&[u8], Option<(Wire, u16)>); 8] = [
        (&ACK[..14], Some((Wire::Short, 14))),
        (&ACK[..15], Some((Wire::Length, 14))),
        (&[0x41, 1, 0, 0, 0, 1, 0, 0, 0, 0, 0, 0, 0, 0, 0], None),
        (&[0x42], Some((Wire::Short, 1))),
        (&[0x42, 2], Some((Wire::Version, 1))),
        (&BYE[..9], Some((Wire::Short, 9))),
        (
            &[0x42, 1, 0, 0, 0, 1, 0, 0, 0, 3, 0],
            Some((Wire::Length, 10)),
        ),
        (&[], Some((Wire::Short, 0))),
    ];
    for (bytes, fault) in ends {
        assert_eq!(rt; fault_of(bytes), fault);
    }
    Ok(())
}
