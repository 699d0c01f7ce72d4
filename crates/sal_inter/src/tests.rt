ghost use Rattle.std.specs.Prelude.{◌≡◌, ◌*◌, ◌≤◌, length, IfOk};
ghost use Rattle.sal_inter.specs.Inter.{HasSamples};

use super::*;
use sal_base::{Bytes, Plane, Vector};
use std::alloc::{AllocError, Global};
use std::test::Fail;

// A plane whose samples all differ from their neighbours.
fn reference(alloc: Global) -> Result<Plane, AllocError>
    ensures { IfOk result HasSamples }
{
    let mut samples = vec![in alloc; 0u8; 1024]?;
    for (k, sample) in samples.iter_mut().enumerate() {
        let (x, y) = ((k % 32) as u32, (k / 32 % 32) as u32);
        *sample = ((7 * x * x + 13 * y * y + 31 * x * y + 5) % 256) as u8;
    }
    Ok(Plane {
        width: 32,
        height: 32,
        samples: Bytes::from_vec(samples),
    })
}

// A number of all samples of a block predicted at a place.
fn block(
    reference: &Plane,
    vector: (i16, i16),
    eighths: bool,
    at: (i32, i32),
    sides: (usize, usize),
) -> u32
    requires reference { HasSamples reference.now }
    requires width { (1 ≤ sides.0) × (sides.0 ≤ 16) }
    requires height { (1 ≤ sides.1) × (sides.1 ≤ 16) }
{
    let mut out = [9u8; 256];
    let vector = Vector {
        row: vector.0,
        column: vector.1,
    };
    predict_block(
        reference, vector, eighths, at.0, at.1, sides.0, sides.1, &mut out,
    );
    let mut number = 0u32;
    for sample in &out {
        number = number.wrapping_mul(31).wrapping_add(*sample as u32);
    }
    number
}

#[test]
fn samples_between_samples(rt: HostRuntime) -> Result<(), Fail> {
    let plane = reference(rt.alloc())?;
    let blocks = [
        block(&plane, (0, 0), false, (0, 0), (16, 16)),
        block(&plane, (8, -12), false, (8, 8), (16, 16)),
        block(&plane, (0, 2), false, (8, 8), (16, 16)),
        block(&plane, (2, 0), false, (8, 8), (16, 16)),
        block(&plane, (2, 2), false, (8, 8), (16, 16)),
        block(&plane, (1, 3), false, (8, 16), (8, 8)),
        block(&plane, (3, 1), false, (12, 12), (4, 4)),
        block(&plane, (-6, 5), false, (12, 8), (16, 8)),
    ];
    assert_eq!(rt;
        blocks,
        [
            3688577472, 3062301888, 887037393, 773078144, 2444372114, 1072226070, 1285056394,
            2401026954
        ]
    );
    Ok(())
}

#[test]
fn windows_past_the_edges(rt: HostRuntime) -> Result<(), Fail> {
    let plane = reference(rt.alloc())?;
    let blocks = [
        block(&plane, (0, -30), false, (0, 8), (16, 16)),
        block(&plane, (2, 41), false, (16, 8), (16, 16)),
        block(&plane, (-50, 2), false, (8, 0), (16, 16)),
        block(&plane, (35, 1), false, (8, 16), (16, 16)),
        block(&plane, (-30, -31), false, (0, 0), (16, 16)),
        block(&plane, (-30, 33), false, (16, 0), (16, 16)),
        block(&plane, (35, -26), false, (0, 16), (16, 16)),
        block(&plane, (37, 39), false, (16, 16), (16, 16)),
        block(&plane, (-32768, 32767), false, (16, 16), (16, 16)),
    ];
    assert_eq!(rt;
        blocks,
        [
            607779504, 3108976919, 3914384227, 1971371782, 3444091053, 3737458780, 759861760,
            3592163030, 1864155136
        ]
    );
    Ok(())
}

#[test]
fn vectors_in_eighths(rt: HostRuntime) -> Result<(), Fail> {
    let plane = reference(rt.alloc())?;
    let blocks = [
        block(&plane, (5, 3), true, (8, 8), (8, 8)),
        block(&plane, (-7, -1), true, (0, 0), (8, 8)),
        block(&plane, (1, 6), true, (4, 12), (4, 4)),
        block(&plane, (8, -16), true, (8, 8), (8, 8)),
        block(&plane, (7, 0), true, (8, 8), (8, 8)),
        block(&plane, (0, 7), true, (24, 24), (8, 8)),
        block(&plane, (-13, 25), true, (24, 0), (8, 8)),
    ];
    assert_eq!(rt;
        blocks,
        [
            700166466, 3484679245, 1046778487, 571181840, 1565630960, 2684935193, 3543923543
        ]
    );
    Ok(())
}
