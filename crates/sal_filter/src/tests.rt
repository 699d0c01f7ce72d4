ghost use Rattle.std.specs.Prelude.{◌≡◌, ◌≤◌, ◌<◌, ◌+◌, ◌*◌, ◌/◌, ◌%◌, IfOk, All, length};
ghost use Rattle.sal_base.specs.Picture.{IsPlane};
ghost use Rattle.sal_filter.specs.Blocks.{HasSides};

use super::*;
use sal_base::{Bytes, Plane, Planes, YMode};
use sal_macroblock::{MbMode, RefKind};
use std::alloc::{AllocError, Global};
use std::test::Fail;

// Small steps from sample to sample, by a linear congruence.
fn fill(samples: &mut [u8], seed: u32) {
    let mut state = seed;
    for sample in samples.iter_mut() {
        state = state.wrapping_mul(1664525).wrapping_add(1013904223);
        *sample = 100 + (state >> 24) as u8 / 16;
    }
}

fn plane(alloc: Global, side: u16, seed: u32) -> Result<Plane, AllocError>
    ensures { IfOk result (IsPlane side side) }
{
    let mut samples = Bytes::repeat(alloc, 0, side as usize * side as usize)?;
    fill(samples.as_mut_slice(), seed);
    Ok(Plane {
        width: side,
        height: side,
        samples,
    })
}

fn picture(alloc: Global, side: u16) -> Result<Planes, AllocError>
    ensures { IfOk result (HasSides side side) }
{
    let y = plane(alloc, side, 1)?;
    let u = plane(alloc, side / 2, 2)?;
    let v = plane(alloc, side / 2, 3)?;
    Ok(Planes { y, u, v })
}

fn kind(k: usize) -> (RefKind, YMode) {
    match k % 4 {
        0 => (RefKind::Intra, YMode::B),
        1 => (RefKind::Last, YMode::ZERO),
        2 => (RefKind::Golden, YMode::SPLIT),
        _ => (RefKind::Alt, YMode::NEAREST),
    }
}

fn one_info(k: usize) -> MbInfo
    requires { k < 100 }
    ensures { result.mode.segment ≤ 3 }
{
    let mut mode = MbMode::outside();
    mode.segment = ((k + 1) % 4) as u8;
    (mode.reference, mode.y) = kind(k);
    MbInfo {
        mode,
        inner: k != 2,
    }
}

fn infos(alloc: Global, count: usize) -> Result<Vec<MbInfo>, AllocError>
    requires { count ≤ 100 }
    ensures size { IfOk result (λ v. length v.items ≡ count) }
    ensures segments { IfOk result (λ v. All (λ m. m.mode.segment ≤ 3) v.items) }
{
    let mut infos = Vec::new(alloc);
    for k in 0..count {
        infos.push(one_info(k))?;
    }
    Ok(infos)
}

fn sum(samples: &[u8]) -> u32 {
    let mut total = 0u32;
    for sample in samples {
        total = total.wrapping_mul(31).wrapping_add(*sample as u32);
    }
    total
}

fn sums(alloc: Global, macroblocks: u16, head: &FilterHead) -> Result<[u32; 3], AllocError>
    requires { macroblocks ≤ 2 }
{
    let mut planes = picture(alloc, 16 * macroblocks)?;
    let info = infos(alloc, macroblocks as usize * macroblocks as usize)?;
    filter_picture(&mut planes, info.as_slice(), head);
    Ok([
        sum(planes.y.samples.as_slice()),
        sum(planes.u.samples.as_slice()),
        sum(planes.v.samples.as_slice()),
    ])
}

fn head(key: bool, simple: bool, level: u8, sharpness: u8) -> FilterHead {
    FilterHead {
        key,
        simple,
        level,
        sharpness,
        segments: None,
        deltas: None,
    }
}

fn with_segments(is_absolute: bool, levels: [i8; 4]) -> FilterHead {
    let mut settings = head(false, false, 30, 0);
    settings.segments = Some((is_absolute, levels));
    settings
}

fn with_deltas() -> FilterHead {
    let mut settings = head(false, false, 24, 1);
    settings.deltas = Some(([2, -4, 8, -30], [-6, 12, 5, -3]));
    settings
}

// Pictures of one macroblock and of four; the values are those of an independent program.
#[test]
fn pictures_are_filtered_as_elsewhere(rt: HostRuntime) -> Result<(), Fail> {
    let rows = [
        (
            head(true, false, 20, 0),
            [1341895752, 398406440, 1384340419],
            [2716696878, 3239747852, 3391924192],
        ),
        (
            head(false, false, 20, 0),
            [2153789032, 398406440, 1384340419],
            [1427485928, 3385526767, 1991558721],
        ),
        (
            head(true, false, 45, 0),
            [2153789032, 398406440, 1384340419],
            [1427485928, 3385526767, 1991558721],
        ),
        (
            head(false, false, 45, 5),
            [1586938901, 2414600463, 1527405106],
            [1807164021, 1370710615, 2467546183],
        ),
        (
            head(false, false, 63, 7),
            [1586938901, 794065969, 1527405106],
            [2319053533, 3250345337, 2407608613],
        ),
        (
            head(true, true, 30, 3),
            [2079182954, 794065969, 1527405106],
            [385928814, 3250345337, 2407608613],
        ),
        (
            with_segments(true, [0, 10, 25, 50]),
            [449197477, 2372991707, 1926185069],
            [1569713442, 523361355, 1382033647],
        ),
        (
            with_segments(false, [-40, -20, 20, 40]),
            [449197477, 2372991707, 1926185069],
            [2042847485, 394331530, 2826767053],
        ),
        (
            with_deltas(),
            [2650527913, 4153826285, 11774002],
            [487462071, 2532325907, 3784289786],
        ),
    ];
    for (settings, one, four) in &rows {
        assert!(rt; sums(rt.alloc(), 1, settings)? == *one, "one, {settings:?}");
        assert!(rt;
            sums(rt.alloc(), 2, settings)? == *four,
            "four, {settings:?}"
        );
    }
    Ok(())
}
