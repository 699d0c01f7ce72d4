ghost use Rattle.sal_base.specs.Picture.{IsPicture};
ghost use Rattle.sal_codec.specs.Coding.{HasSides};

use super::*;
use sal_base::{Bytes, DecodeFault, Encoding, Fault, Kind, Name, Picture};
use std::alloc::Global;
use std::test::Fail;

// What two pictures were encoded to: the bytes, and the pictures that they were decoded to.
#[derive(Drop)]
struct Sent {
    key: Bytes,
    inter: Bytes,
    first: Picture,
    second: Picture,
}

// Encodes two pictures of one size, the second from the first one's target, and decodes both.
fn send_two<C: Codec>(codec: &C, alloc: Global, first: &Picture, second: &Picture) -> Option<Sent>
    requires first { IsPicture first.now }
    requires second { HasSides first.now.width first.now.height second.now }
{
    keeps_the_law::<C>();
    let Ok(initial) = codec.initial(alloc) else {
        return None;
    };
    let Ok(frame) = codec.encode(alloc, &initial, first, 40, Kind::Key) else {
        return None;
    };
    let Encoding::Frame {
        bytes: key,
        target: source,
        ..
    } = frame
    else {
        return None;
    };
    let Ok(frame) = codec.encode(alloc, &source, second, 40, Kind::Inter) else {
        return None;
    };
    let Encoding::Frame { bytes: inter, .. } = frame else {
        return None;
    };
    let Ok(held) = codec.decode(alloc, &initial, key.as_slice()) else {
        return None;
    };
    let Ok(next) = codec.decode(alloc, &held.state, inter.as_slice()) else {
        return None;
    };
    Some(Sent {
        key,
        inter,
        first: held.picture,
        second: next.picture,
    })
}

#[test]
fn pictures_come_through(rt: HostRuntime) -> Result<(), Fail> {
    let alloc = rt.alloc();
    let (Ok(first), Ok(second)) = (
        Picture::new(alloc, 48, 48, 128),
        Picture::new(alloc, 48, 48, 100),
    ) else {
        panic!(rt; "no pictures");
    };
    let Some(sent) = send_two(&Plain, alloc, &first, &second) else {
        panic!(rt; "no frames");
    };
    assert_eq!(rt; sent.key.len(), 3461);
    assert_eq!(rt;
        &sent.key.as_slice()[..6],
        [0u8, 0, 48, 0, 48, 128].as_slice()
    );
    assert_eq!(rt; sent.inter.len(), 3457);
    assert_eq!(rt; &sent.inter.as_slice()[..2], [1u8, 228].as_slice());
    assert_eq!(rt; sent.first.y.samples.as_slice(), first.y.samples.as_slice());
    assert_eq!(rt;
        sent.second.y.samples.as_slice(),
        second.y.samples.as_slice()
    );
    assert_eq!(rt;
        sent.second.u.samples.as_slice(),
        second.u.samples.as_slice()
    );
    assert_eq!(rt;
        sent.second.v.samples.as_slice(),
        second.v.samples.as_slice()
    );
    assert_eq!(rt; (sent.second.width, sent.second.height), (48, 48));
    Ok(())
}

// What is wrong with a frame's bytes.
fn fault_of(alloc: Global, state: &PlainState, bytes: &[u8]) -> Option<DecodeFault> {
    Plain.decode(alloc, state, bytes).err()
}

#[test]
fn faults_one_by_one(rt: HostRuntime) -> Result<(), Fail> {
    let alloc = rt.alloc();
    let Ok(initial) = Plain.initial(alloc) else {
        panic!(rt; "no state");
    };
    let cases: [(&[u8], Fault); 13] = [
        (&[], Fault::Short),
        (&[2], Fault::BadStart),
        (&[255, 0, 1], Fault::BadStart),
        (&[1], Fault::NoReference),
        (&[1, 1, 1, 1], Fault::NoReference),
        (&[0], Fault::Short),
        (&[0, 0, 0, 0], Fault::Short),
        (&[0, 0, 0, 5, 1], Fault::ZeroSize),
        (&[0, 0, 1, 0, 0], Fault::ZeroSize),
        (&[0, 5, 1, 0, 1], Fault::TooLarge(1281, 1)),
        (&[0, 0, 1, 2, 209], Fault::TooLarge(1, 721)),
        (&[0, 0, 1, 0, 1, 7, 8], Fault::Short),
        (&[0, 0, 1, 0, 1, 7, 8, 9, 10], Fault::Partition(0)),
    ];
    for (bytes, fault) in cases {
        assert_eq!(rt;
            fault_of(alloc, &initial, bytes),
            Some(DecodeFault::Bad(fault))
        );
    }
    Ok(())
}

#[test]
fn faults_of_inter_frames(rt: HostRuntime) -> Result<(), Fail> {
    let alloc = rt.alloc();
    let Ok(initial) = Plain.initial(alloc) else {
        panic!(rt; "no state");
    };
    let Ok(held) = Plain.decode(alloc, &initial, &[0, 0, 1, 0, 1, 7, 8, 9]) else {
        panic!(rt; "no key frame");
    };
    assert_eq!(rt;
        fault_of(alloc, &held.state, &[1, 0, 0]),
        Some(DecodeFault::Bad(Fault::Short))
    );
    assert_eq!(rt; fault_of(alloc, &held.state, &[1, 0, 0, 0]), None);
    assert_eq!(rt;
        fault_of(alloc, &held.state, &[1, 0, 0, 0, 0]),
        Some(DecodeFault::Bad(Fault::Partition(0)))
    );
    Ok(())
}

#[test]
fn digest_and_name(rt: HostRuntime) -> Result<(), Fail> {
    let alloc = rt.alloc();
    let Ok(initial) = Plain.initial(alloc) else {
        panic!(rt; "no state");
    };
    assert_eq!(rt; Plain.digest(&initial), [0; 32]);
    assert_eq!(rt; Plain.name(&initial), Name::ZERO);
    let Ok(held) = Plain.decode(alloc, &initial, &[0, 0, 1, 0, 1, 7, 8, 9]) else {
        panic!(rt; "no key frame");
    };
    assert_eq!(rt; Plain.digest(&held.state), DIGEST);
    let name = Plain.name(&held.state);
    assert_eq!(rt; &name.0[..8], &DIGEST[..8]);
    assert_eq!(rt; &name.0[8..], [0u8; 8].as_slice());
    Ok(())
}

// SHA-256 of 00 01 00 01 07 08 09.
const DIGEST: [u8; 32] = [
    208, 233, 217, 168, 150, 93, 84, 246, 214, 55, 47, 72, 199, 44, 153, 201, 44, 76, 186, 19, 182,
    157, 119, 151, 37, 87, 56, 249, 197, 17, 205, 190,
];
