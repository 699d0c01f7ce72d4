//! Reads the modes of an intra macroblock (RFC 6386, sections 11.2 to 11.4 and 16.2).

ghost use Rattle.std.specs.Prelude.{◌≡◌, ◌<◌, ◌*◌, [], length, replicate};
ghost use Rattle.std.specs.Prelude.{if◌then◌else◌, take, true, false};
ghost use Rattle.sal_bool.specs.Syntax.{run, Done};
ghost use Rattle.sal_macroblock.specs.Macroblocks.{is_b, is_intra, implied, HasFittingModes};
ghost use Rattle.sal_modes.specs.IntraModes.{whole_mode, sub_mode, sub_number, sub_row, sub_probabilities, sub_modes, y_mode, chroma_mode, intra_mode};

use crate::neighbours::Neighbours;
use sal_base::{SubMode, Vector, YMode};
use sal_bool::Decoder;
use sal_macroblock::{MbMode, RefKind};
use sal_probs::Probs;
use sal_tables::{
    chroma_tree, inter_subblock_probabilities, inter_y_tree, key_chroma_probabilities,
    key_y_probabilities, key_y_tree, subblock_probabilities, subblock_tree,
};

// The mode that a leaf of the Y and chroma trees stands for.
fn whole_mode(leaf: u8) -> YMode
    requires { leaf < 5 }
    ensures { result ≡ whole_mode leaf }
{
    let modes = [YMode::DC, YMode::V, YMode::H, YMode::TM, YMode::B];
    modes[leaf as usize]
}

fn sub_mode(leaf: u8) -> SubMode
    requires { leaf < 10 }
    ensures { result ≡ sub_mode leaf }
{
    let modes = [
        SubMode::BDC,
        SubMode::BTM,
        SubMode::BVE,
        SubMode::BHE,
        SubMode::BLD,
        SubMode::BRD,
        SubMode::BVR,
        SubMode::BVL,
        SubMode::BHD,
        SubMode::BHU,
    ];
    modes[leaf as usize]
}

fn sub_number(mode: SubMode) -> usize
    ensures number { result ≡ sub_number mode }
    ensures small { result < 10 }
{
    match mode {
        SubMode::BDC => 0,
        SubMode::BTM => 1,
        SubMode::BVE => 2,
        SubMode::BHE => 3,
        SubMode::BLD => 4,
        SubMode::BRD => 5,
        SubMode::BVR => 6,
        SubMode::BVL => 7,
        SubMode::BHD => 8,
        SubMode::BHU => 9,
    }
}

// The subblock mode that a macroblock counts as where its mode isn't B.
fn implied(mode: YMode) -> SubMode
    ensures { result ≡ implied mode }
{
    match mode {
        YMode::V => SubMode::BVE,
        YMode::H => SubMode::BHE,
        YMode::TM => SubMode::BTM,
        _ => SubMode::BDC,
    }
}

// A key frame's probabilities of a subblock mode, by the modes above and left of it.
#[tactic(auto, unfolding(crate::specs::IntraModes::sub_row))]
fn sub_row(above: SubMode, left: SubMode) -> &'static [u8]
    ensures row { result.now ≡ sub_row above left }
    ensures long { length result.now ≡ 9 }
{
    let at = (sub_number(above) * 10 + sub_number(left)) * 9;
    &subblock_probabilities()[at..at + 9]
}

// The probabilities of subblock k's mode, by those before it.
pub(crate) fn sub_probabilities(
    key: bool,
    around: &Neighbours<'_>,
    modes: &[SubMode; 16],
    k: usize,
) -> &'static [u8]
    requires { k < 16 }
    ensures row { result.now ≡ sub_probabilities key around.now (take k modes.now) }
    ensures long { length result.now ≡ 9 }
{
    if !key {
        return inter_subblock_probabilities();
    }
    let above = if k < 4 {
        around.above.sub[k + 12]
    } else {
        modes[k - 4]
    };
    let left = if k % 4 == 0 {
        around.left.sub[k + 3]
    } else {
        modes[k - 1]
    };
    sub_row(above, left)
}

// The modes of the sixteen subblocks.
fn read_sub_modes(decoder: &mut Decoder<'_>, key: bool, around: &Neighbours<'_>) -> [SubMode; 16]
    ensures reads { run (sub_modes key around.now 16 []) decoder.old ≡ (result, decoder.new) }
{
    let mut modes = [SubMode::BDC; 16];
    for k in 0..16usize {
        let row = sub_probabilities(key, around, &modes, k);
        modes[k] = sub_mode(decoder.tree(subblock_tree(), row));
    }
    modes
}

// The leaf of the Y mode.
fn read_y(decoder: &mut Decoder<'_>, key: bool, probs: &Probs) -> u8
    ensures reads { run (y_mode key probs.now) decoder.old ≡ (result, decoder.new) }
    ensures small { result < 5 }
{
    if key {
        decoder.tree(key_y_tree(), key_y_probabilities())
    } else {
        decoder.tree(inter_y_tree(), probs.y())
    }
}

// The leaf of the chroma mode.
fn read_chroma(decoder: &mut Decoder<'_>, key: bool, probs: &Probs) -> u8
    ensures reads { run (chroma_mode key probs.now) decoder.old ≡ (result, decoder.new) }
    ensures small { result < 4 }
{
    if key {
        decoder.tree(chroma_tree(), key_chroma_probabilities())
    } else {
        decoder.tree(chroma_tree(), probs.chroma())
    }
}

// The modes of the subblocks: read where the mode is B, else the one that the mode counts as.
fn subs_of(decoder: &mut Decoder<'_>, key: bool, around: &Neighbours<'_>, y: YMode) -> [SubMode; 16]
    ensures reads { run (if is_b y then sub_modes key around.now 16 [] else Done (replicate 16 (implied y))) decoder.old ≡ (result, decoder.new) }
    ensures whole { is_b y ≡ false → result ≡ replicate 16 (implied y) }
{
    if let YMode::B = y {
        read_sub_modes(decoder, key, around)
    } else {
        [implied(y); 16]
    }
}

/// The modes of an intra macroblock, of a key frame or of an inter frame.
#[tactic(auto, unfolding(crate::specs::IntraModes::intra_mode))]
pub(crate) fn read_intra(
    decoder: &mut Decoder<'_>,
    key: bool,
    probs: &Probs,
    around: &Neighbours<'_>,
) -> MbMode
    ensures reads { run (intra_mode key probs.now around.now) decoder.old ≡ (result, decoder.new) }
    ensures intra { is_intra result.reference ≡ true }
    ensures modes { HasFittingModes result }
{
    let y = whole_mode(read_y(decoder, key, probs));
    let sub = subs_of(decoder, key, around, y);
    let chroma = whole_mode(read_chroma(decoder, key, probs));
    MbMode {
        segment: 0,
        skip: false,
        reference: RefKind::Intra,
        y,
        sub,
        chroma,
        vectors: [Vector { row: 0, column: 0 }; 16],
    }
}
