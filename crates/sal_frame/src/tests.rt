//! Single macroblocks, whose samples are by hand from the rules of RFC 6386, what is read out of a header, and the states and
//! pictures after a frame, which ample memory gives.

ghost use Rattle.std.specs.Prelude.{◌≡◌, ◌<◌, ◌≤◌, false, IfOk, All, Some};
ghost use Rattle.std.specs.Arc.{arc_value};
ghost use Rattle.sal_base.specs.Picture.{IsPlane};
ghost use Rattle.sal_macroblock.specs.Blocks.{no_coefficients};
ghost use Rattle.sal_macroblock.specs.Sizes.{Within};
ghost use Rattle.sal_state.specs.States.{HasBlocks, References as ReferencesData};
ghost use Rattle.sal_frame.specs.Inter.{IsInter};
ghost use Rattle.sal_frame.specs.Intra.{IsIntra};

use crate::building::{build_inter, build_intra};
use crate::segments::segment_factors;
use crate::{Macroblock, crop, filter_head, info_of, next_state};
use sal_base::{Bytes, Memory, Plane, Planes, SubMode, Vector, YMode};
use sal_filter::FilterHead;
use sal_header::{Header, Kept};
use sal_macroblock::{Block, Coefficients, MbMode, RefKind};
use sal_probs::{Probs, Updates};
use sal_state::{Reference, References, State};
use std::alloc::Global;
use std::sync::Arc;
use std::test::Fail;

/// A square whose sample at a row and column is eight times the row and the column.
fn slope(alloc: Global, side: u16) -> Result<Plane, Memory>
    requires { side ≤ 16 }
    ensures { IfOk result (IsPlane side side) }
{
    let mut samples = vec![in alloc; 0u8; side as usize * side as usize]?;
    for (k, sample) in samples.iter_mut().enumerate() {
        if side != 0 {
            let (row, column) = (k / side as usize % 16, k % side as usize % 16);
            *sample = (8 * row + column) as u8;
        }
    }
    Ok(Plane {
        width: side,
        height: side,
        samples: Bytes::from_vec(samples),
    })
}

/// One macroblock of such squares.
fn planes(alloc: Global) -> Result<Planes, Memory>
    ensures { IfOk result (HasBlocks 1 1) }
{
    Ok(Planes {
        y: slope(alloc, 16)?,
        u: slope(alloc, 8)?,
        v: slope(alloc, 8)?,
    })
}

/// Three samples of a plane.
fn at(plane: &Plane, places: [usize; 3]) -> [Option<u8>; 3] {
    let samples = plane.samples.as_slice();
    [
        samples.get(places[0]).copied(),
        samples.get(places[1]).copied(),
        samples.get(places[2]).copied(),
    ]
}

/// A block of one coefficient.
fn one_coefficient(position: usize, coefficient: i32) -> Block
    requires { Within 2114 coefficient }
    ensures { All (Within 2114) result.0 }
{
    let mut block = Block([0; 16]);
    block.0[position % 16] = coefficient;
    block
}

fn header(segmentation: bool, absolute: bool) -> Header {
    Header {
        key: false,
        shown: true,
        colour: false,
        clamping: false,
        segmentation,
        update_map: false,
        update_data: false,
        absolute,
        simple: true,
        deltas: false,
        update_deltas: false,
        refresh_entropy: false,
        refresh_golden: false,
        refresh_alt: false,
        bias_golden: false,
        bias_alt: false,
        refresh_last: false,
        skips: false,
        quantisers: [3, -3, 20, -100],
        levels: [1, 2, 3, 4],
        ref_deltas: [0; 4],
        mode_deltas: [0; 4],
        map: [0; 3],
        level: 9,
        sharpness: 5,
        log2: 0,
        y_ac: 110,
        copy_golden: 0,
        copy_alt: 0,
        prob_skip: 0,
        prob_intra: 0,
        prob_last: 0,
        prob_golden: 0,
        y_dc: 0,
        y2_dc: 0,
        y2_ac: 0,
        uv_dc: 15,
        uv_ac: -15,
        updates: Updates::none(),
    }
}

/// The six factors of a segment.
fn factors(header: &Header, segment: u8) -> [u16; 6]
    requires { segment < 4 }
{
    let factors = segment_factors(header, segment);
    [
        factors.y_dc,
        factors.y_ac,
        factors.y2_dc,
        factors.y2_ac,
        factors.uv_dc,
        factors.uv_ac,
    ]
}

fn mode(reference: RefKind, y: YMode, chroma: YMode, vectors: [Vector; 16]) -> MbMode
    ensures reference { result.reference ≡ reference }
    ensures y { result.y ≡ y }
    ensures chroma { result.chroma ≡ chroma }
{
    MbMode {
        segment: 1,
        skip: false,
        reference,
        y,
        sub: [SubMode::BDC; 16],
        chroma,
        vectors,
    }
}

const ZERO: Vector = Vector { row: 0, column: 0 };

#[test]
fn factors_of_segments(rt: HostRuntime) {
    assert_eq!(rt;
        factors(&header(false, false), 0),
        [116, 205, 232, 317, 132, 152]
    );
    assert_eq!(rt; factors(&header(true, true), 0), [7, 7, 14, 10, 20, 4]);
    assert_eq!(rt; factors(&header(true, true), 1), [4, 4, 8, 8, 17, 4]);
}

#[test]
fn heads_of_the_filter(rt: HostRuntime) {
    let head = FilterHead {
        key: false,
        simple: true,
        level: 9,
        sharpness: 5,
        segments: Some((false, [1, 2, 3, 4])),
        deltas: None,
    };
    assert_eq!(rt; filter_head(&header(true, false)), head);
    let (outside, none) = (MbMode::outside(), Coefficients::none());
    assert!(rt; info_of(&Macroblock::new(&outside, &none, true)).inner);
    assert!(rt; !info_of(&Macroblock::new(&outside, &none, false)).inner);
}

/// An intra macroblock.
fn intra(
    alloc: Global,
    mode: &MbMode,
    coefficients: &Coefficients,
    has_coefficients: bool,
) -> Result<Planes, Memory>
    requires mode { IsIntra mode.now }
    requires none { has_coefficients ≡ false → coefficients.now ≡ no_coefficients }
{
    let mut planes = planes(alloc)?;
    let factors = segment_factors(&header(true, true), 1);
    let block = Macroblock::new(mode, coefficients, has_coefficients);
    build_intra(&mut planes, &block, &factors, 0, 0);
    Ok(planes)
}

#[test]
fn intra_macroblocks(rt: HostRuntime) -> Result<(), Fail> {
    let mut coefficients = Coefficients::none();
    let whole = mode(RefKind::Intra, YMode::TM, YMode::V, [ZERO; 16]);
    let planes = intra(rt.alloc(), &whole, &coefficients, false)?;
    assert_eq!(rt; at(&planes.y, [0, 100, 255]), [Some(129); 3]);
    assert_eq!(rt; at(&planes.u, [0, 20, 63]), [Some(127); 3]);
    coefficients.put(0, one_coefficient(1, 50));
    coefficients.put(16, one_coefficient(0, 5));
    coefficients.put(23, one_coefficient(0, -5));
    let parts = mode(RefKind::Intra, YMode::B, YMode::DC, [ZERO; 16]);
    let planes = intra(rt.alloc(), &parts, &coefficients, true)?;
    assert_eq!(rt; at(&planes.y, [0, 1, 2]), [Some(161), Some(142), Some(115)]);
    assert_eq!(rt;
        at(&planes.u, [0, 27, 63]),
        [Some(139), Some(139), Some(128)]
    );
    assert_eq!(rt;
        at(&planes.v, [0, 36, 63]),
        [Some(128), Some(117), Some(117)]
    );
    Ok(())
}

/// An inter macroblock without coefficients.
fn inter(alloc: Global, mode: &MbMode) -> Result<Planes, Memory>
    requires { IsInter mode.now }
{
    let from = planes(alloc)?;
    let mut planes = planes(alloc)?;
    let factors = segment_factors(&header(true, true), 1);
    let none = Coefficients::none();
    let block = Macroblock::new(mode, &none, false);
    build_inter(&mut planes, &from, &block, &factors, 0, 0);
    Ok(planes)
}

#[test]
fn inter_macroblocks(rt: HostRuntime) -> Result<(), Fail> {
    let vector = Vector {
        row: 8,
        column: -16,
    };
    let whole = mode(RefKind::Golden, YMode::NEW, YMode::DC, [vector; 16]);
    let planes = inter(rt.alloc(), &whole)?;
    assert_eq!(rt;
        at(&planes.y, [0, 87, 255]),
        [Some(16), Some(59), Some(131)]
    );
    assert_eq!(rt; at(&planes.u, [0, 28, 63]), [Some(8), Some(34), Some(61)]);
    let mut vectors = [ZERO; 16];
    vectors[5] = Vector { row: 32, column: 0 };
    let parts = mode(RefKind::Last, YMode::SPLIT, YMode::DC, vectors);
    let planes = inter(rt.alloc(), &parts)?;
    assert_eq!(rt;
        at(&planes.y, [0, 68, 255]),
        [Some(0), Some(100), Some(135)]
    );
    assert_eq!(rt; at(&planes.v, [0, 36, 63]), [Some(8), Some(36), Some(63)]);
    Ok(())
}

fn flat(alloc: Global, side: u16, value: u8) -> Result<Plane, Memory>
    ensures { IfOk result (IsPlane side side) }
{
    let samples = Bytes::repeat(alloc, value, side as usize * side as usize)?;
    Ok(Plane {
        width: side,
        height: side,
        samples,
    })
}

/// A reference of one macroblock whose samples are all the same.
fn reference(alloc: Global, value: u8) -> Result<Arc<Reference>, Memory>
    ensures { IfOk result (λ r. HasBlocks 1 1 (arc_value r)) }
{
    let planes = Planes {
        y: flat(alloc, 16, value)?,
        u: flat(alloc, 8, value)?,
        v: flat(alloc, 8, value)?,
    };
    Reference::new(alloc, planes)
}

/// A state of pictures of 16 by 9 samples.
fn state(alloc: Global) -> Result<State, Memory>
    ensures { IfOk result (λ s. (r : ReferencesData) × (s.references ≡ Some r) × (r.width ≡ 16) × (r.height ≡ 9)) }
{
    let kept = Kept {
        absolute: false,
        quantisers: [0; 4],
        levels: [0; 4],
        ref_deltas: [0; 4],
        mode_deltas: [0; 4],
        bias_golden: false,
        bias_alt: false,
        map: Bytes::repeat(alloc, 0, 1)?,
        probs: Probs::initial(alloc)?,
    };
    let references = References {
        width: 16,
        height: 9,
        last: reference(alloc, 10)?,
        golden: reference(alloc, 20)?,
        alt: reference(alloc, 30)?,
    };
    Ok(State::new(kept, references))
}

/// The state after a frame of one macroblock.
fn after(alloc: Global, header: &Header) -> Result<State, Memory> {
    let old = state(alloc)?;
    let planes = planes(alloc)?;
    let map = Bytes::repeat(alloc, 0, 1)?;
    let probs = Probs::initial(alloc)?;
    next_state(alloc, &old, header, 16, 9, planes, map, probs)
}

fn first(reference: &Reference) -> Option<u8> {
    reference.planes().y.samples.as_slice().first().copied()
}

/// The first luma samples of last, golden and alt after a frame, or none for want of memory.
fn firsts_after(alloc: Global, header: &Header) -> Option<[Option<u8>; 3]> {
    let next = after(alloc, header).ok()?;
    let references = next.references()?;
    Some([
        first(&references.last),
        first(&references.golden),
        first(&references.alt),
    ])
}

#[test]
fn references_after_frames(rt: HostRuntime) {
    let mut frame = header(false, false);
    frame.copy_golden = 1;
    assert_eq!(rt;
        firsts_after(rt.alloc(), &frame),
        Some([Some(10), Some(10), Some(30)])
    );
    frame.refresh_golden = true;
    frame.copy_alt = 2;
    assert_eq!(rt;
        firsts_after(rt.alloc(), &frame),
        Some([Some(10), Some(0), Some(20)])
    );
    frame.key = true;
    assert_eq!(rt;
        firsts_after(rt.alloc(), &frame),
        Some([Some(0), Some(0), Some(0)])
    );
}

#[test]
fn pictures_are_cut_to_their_size(rt: HostRuntime) -> Result<(), Fail> {
    let planes = planes(rt.alloc())?;
    let picture = crop(rt.alloc(), &planes, 9, 5)?;
    assert_eq!(rt; (picture.width, picture.height), (9, 5));
    assert_eq!(rt; at(&picture.y, [0, 9, 44]), [Some(0), Some(8), Some(40)]);
    assert_eq!(rt; at(&picture.u, [0, 5, 14]), [Some(0), Some(8), Some(20)]);
    assert_eq!(rt; at(&picture.v, [4, 13, 15]), [Some(4), Some(19), None]);
    Ok(())
}
