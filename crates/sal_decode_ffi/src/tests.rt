//! A frame and a fault, and a buffer that is too short.

use crate::sal_decode_frames;

/// A key frame of 16 by 16 without a token, then a frame of bitstream version 1, then bytes that no frame has.
const FRAMES: [u8; 15] = [0x10, 0, 0, 0x9d, 1, 0x2a, 16, 0, 16, 0, 0x12, 0, 0, 7, 7];

#[test]
fn a_frame_and_a_fault(rt: HostRuntime) {
    let alloc = rt.alloc();
    let mut out = [3u8; 432];
    let length = sal_decode_frames(alloc, &FRAMES, &[10, 3, 2], &mut out);
    // Four rows of 128 and twelve of 129, as the profile has it; then version 1, and a byte that stays.
    assert_eq!(rt; length, 431);
    assert_eq!(rt; &out[..6], [0, 1, 0, 16, 0, 16].as_slice());
    assert_eq!(rt; &out[38..102], [128; 64].as_slice());
    assert_eq!(rt; &out[102..294], [129; 192].as_slice());
    assert_eq!(rt; &out[294..422], [128; 128].as_slice());
    assert_eq!(rt; &out[422..], [2, 0, 0, 0, 1, 0, 0, 0, 0, 3].as_slice());
    let mut short = [3u8; 430];
    let again = sal_decode_frames(alloc, &FRAMES, &[10, 3, 2], &mut short);
    assert_eq!(rt; again, 431);
    assert_eq!(rt; short.as_slice(), [3; 430].as_slice());
}
