//! Macroblocks built into planes (RFC 6386, sections 12, 14.5 and 18).

ghost use Rattle.std.specs.Prelude.{◌≡◌, ◌<◌, ◌≤◌, ◌+◌, ◌*◌, IfSome, None, true, false, length};
ghost use Rattle.std.specs.Option.{option_copied};
ghost use Rattle.sal_base.specs.declared.picture.Planes.{Planes as PlanesData};
ghost use Rattle.sal_macroblock.specs.Macroblocks.{is_intra, HasFittingModes};
ghost use Rattle.sal_base.specs.declared.picture.Plane.{Plane};
ghost use Rattle.sal_state.specs.States.{References as ReferencesData, AreReferences, AreWhole};
ghost use Rattle.sal_frame.specs.Built.{reference, references_or, luma_built, chroma_built, put_square, one_built};
ghost use Rattle.sal_frame.specs.Inter.{IsInter};
ghost use Rattle.sal_frame.specs.Intra.{IsIntra, HasPlace};
ghost use Rattle.sal_inter.specs.Inter.{HasSamples};

use crate::inter::{inter_chroma, inter_luma};
use crate::intra::{intra_chroma, intra_luma};
use crate::macroblock::Macroblock;
use crate::square::put_square;
use sal_base::{Plane, Planes};
use sal_intra::{chroma_edge, luma_edge};
use sal_macroblock::RefKind;
use sal_state::{Reference, References};
use sal_transform::Factors;

fn build_intra_luma(
    plane: &mut Plane,
    block: &Macroblock<'_>,
    factors: &Factors,
    x: usize,
    y: usize,
)
    requires mode { IsIntra block.now.mode }
    requires column { x + 16 ≤ plane.old.width }
    requires rows { (y + 16) * plane.old.width ≤ length plane.old.samples }
    ensures { (from : Plane) → plane.new ≡ put_square 16 x y (luma_built from factors.now block.now plane.old x y) plane.old }
{
    let edge = luma_edge(plane, x, y);
    let samples = intra_luma(&edge, block, factors);
    put_square(plane, x, y, 16, &samples);
}

fn build_intra_chroma(
    plane: &mut Plane,
    block: &Macroblock<'_>,
    first: usize,
    factors: &Factors,
    x: usize,
    y: usize,
)
    requires mode { IsIntra block.now.mode }
    requires first { first ≤ 20 }
    requires column { x + 8 ≤ plane.old.width }
    requires rows { (y + 8) * plane.old.width ≤ length plane.old.samples }
    ensures { (from : Plane) → plane.new ≡ put_square 8 x y (chroma_built from factors.now block.now first plane.old x y) plane.old }
{
    let edge = chroma_edge(plane, x, y);
    let samples = intra_chroma(&edge, block, first, factors);
    put_square(plane, x, y, 8, &samples);
}

// Builds an intra macroblock at a column and row of macroblocks: each sample is its prediction and its residue, cut off.
#[tactic(auto, unfolding(crate::specs::Built::one_built))]
pub(crate) fn build_intra(
    planes: &mut Planes,
    block: &Macroblock<'_>,
    factors: &Factors,
    column: u16,
    row: u16,
)
    requires mode { IsIntra block.now.mode }
    requires place { HasPlace column row planes.old }
    ensures { (r : ReferencesData) → planes.new ≡ one_built r factors.now block.now column row planes.old }
{
    let column = column as usize;
    let row = row as usize;
    build_intra_luma(&mut planes.y, block, factors, 16 * column, 16 * row);
    build_intra_chroma(&mut planes.u, block, 16, factors, 8 * column, 8 * row);
    build_intra_chroma(&mut planes.v, block, 20, factors, 8 * column, 8 * row);
}

fn build_inter_luma(
    plane: &mut Plane,
    reference: &Plane,
    block: &Macroblock<'_>,
    factors: &Factors,
    x: usize,
    y: usize,
)
    requires mode { IsInter block.now.mode }
    requires reference { HasSamples reference.now }
    requires x { x < 1048576 }
    requires y { y < 1048576 }
    requires column { x + 16 ≤ plane.old.width }
    requires rows { (y + 16) * plane.old.width ≤ length plane.old.samples }
    ensures { plane.new ≡ put_square 16 x y (luma_built reference.now factors.now block.now plane.old x y) plane.old }
{
    let samples = inter_luma(reference, block, factors, x, y);
    put_square(plane, x, y, 16, &samples);
}

fn build_inter_chroma(
    plane: &mut Plane,
    reference: &Plane,
    block: &Macroblock<'_>,
    first: usize,
    factors: &Factors,
    x: usize,
    y: usize,
)
    requires mode { IsInter block.now.mode }
    requires reference { HasSamples reference.now }
    requires first { first ≤ 20 }
    requires x { x < 1048576 }
    requires y { y < 1048576 }
    requires column { x + 8 ≤ plane.old.width }
    requires rows { (y + 8) * plane.old.width ≤ length plane.old.samples }
    ensures { plane.new ≡ put_square 8 x y (chroma_built reference.now factors.now block.now first plane.old x y) plane.old }
{
    let samples = inter_chroma(reference, block, first, factors, x, y);
    put_square(plane, x, y, 8, &samples);
}

// Builds an inter macroblock at a column and row of macroblocks, out of the reference that its mode names.
#[tactic(auto, unfolding(crate::specs::Built::one_built))]
pub(crate) fn build_inter(
    planes: &mut Planes,
    from: &Planes,
    block: &Macroblock<'_>,
    factors: &Factors,
    column: u16,
    row: u16,
)
    requires mode { IsInter block.now.mode }
    requires reference { AreWhole from.now }
    requires place { HasPlace column row planes.old }
    ensures { (r : ReferencesData) → reference r block.now.mode.reference ≡ from.now → planes.new ≡ one_built r factors.now block.now column row planes.old }
{
    let column = column as usize;
    let row = row as usize;
    build_inter_luma(
        &mut planes.y,
        &from.y,
        block,
        factors,
        16 * column,
        16 * row,
    );
    build_inter_chroma(
        &mut planes.u,
        &from.u,
        block,
        16,
        factors,
        8 * column,
        8 * row,
    );
    build_inter_chroma(
        &mut planes.v,
        &from.v,
        block,
        20,
        factors,
        8 * column,
        8 * row,
    );
}

/// Builds a macroblock at a column and row of macroblocks, from its own picture or from the reference that its mode names: each
/// sample is its prediction and its residue, cut off.
pub fn build(
    planes: &mut Planes,
    references: Option<&References>,
    block: &Macroblock<'_>,
    factors: &Factors,
    column: u16,
    row: u16,
)
    requires fitting { HasFittingModes block.now.mode }
    requires first { option_copied references ≡ None → is_intra block.now.mode.reference ≡ true }
    requires references { IfSome (option_copied references) AreReferences }
    requires place { HasPlace column row planes.old }
    ensures { (empty : PlanesData) → planes.new ≡ one_built (references_or empty (option_copied references.entry)) factors.now block.now column row planes.old }
{
    match references {
        Some(references) if block.mode.is_inter() => {
            let from = named(references, block.mode.reference);
            build_inter(planes, from.planes(), block, factors, column, row);
        }
        _ => build_intra(planes, block, factors, column, row),
    }
}

// The reference of a name; an intra macroblock needs none.
fn named(references: &References, kind: RefKind) -> &Reference
    ensures named { result.now ≡ reference references.now kind }
    ensures whole { AreReferences references.now → AreWhole result.now }
{
    match kind {
        RefKind::Intra | RefKind::Last => &references.last,
        RefKind::Golden => &references.golden,
        RefKind::Alt => &references.alt,
    }
}
