use super::*;
use std::test::Fail;

#[test]
fn sides_at_their_limits(rt: HostRuntime) -> Result<(), Fail> {
    let alloc = rt.alloc();
    let Ok(picture) = Picture::new(alloc, 17, 33, 128) else {
        panic!(rt; "no picture");
    };
    assert_eq!(rt; picture.y.samples.len(), 561);
    assert_eq!(rt; (picture.u.width, picture.u.height), (9, 17));
    assert_eq!(rt; (picture.v.width, picture.v.height), (9, 17));
    assert!(rt; picture.v.samples.as_slice().iter().all(|s| *s == 128));
    for (width, height, good) in [
        (1, 1, true),
        (1280, 720, true),
        (0, 1, false),
        (1, 0, false),
        (1281, 1, false),
        (1, 721, false),
        (65535, 65535, false),
    ] {
        match Picture::new(alloc, width, height, 0) {
            Ok(_) => assert!(rt; good),
            Err(fault) => {
                assert!(rt; !good);
                assert_eq!(rt; fault, PictureFault::BadSize);
            }
        }
    }
    Ok(())
}

#[test]
fn bytes_grow_and_lend(rt: HostRuntime) -> Result<(), Fail> {
    let alloc = rt.alloc();
    let mut bytes = Bytes::repeat(alloc, 7, 2)?;
    bytes.push(8)?;
    bytes.extend(&[9, 10])?;
    bytes.as_mut_slice()[0] = 1;
    assert_eq!(rt; bytes.as_slice(), [1u8, 7, 8, 9, 10].as_slice());
    assert_eq!(rt; bytes.len(), 5);
    let copy = Bytes::from_slice(alloc, bytes.as_slice())?;
    assert_eq!(rt;
        copy.into_vec().as_slice(),
        Bytes::from_vec(bytes.into_vec()).as_slice()
    );
    assert_eq!(rt; Bytes::new(alloc).len(), 0);
    Ok(())
}

#[test]
fn numbers_in_front(rt: HostRuntime) -> Result<(), Fail> {
    assert_eq!(rt; leading_number(b"16 H"), Some((16, b" H".as_slice())));
    assert_eq!(rt;
        leading_number(b"4294967295"),
        Some((4294967295, b"".as_slice()))
    );
    assert_eq!(rt; leading_number(b"4294967296"), None);
    assert_eq!(rt; leading_number(b"00000000001"), None);
    assert_eq!(rt; leading_number(b"x1"), None);
    assert!(rt; are_sides(16, 16));
    let memory: Memory = std::alloc::AllocError.into();
    assert_eq!(rt; memory, Memory);
    assert_eq!(rt; Name::ZERO, Name([0; 16]));
    Ok(())
}
