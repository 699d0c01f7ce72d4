//! Reads the modes and vectors of an inter macroblock (RFC 6386, sections 16.2 and 16.3).

ghost use Rattle.std.specs.Prelude.{◌≡◌, ◌<◌, ◌≤◌, [], All, false, replicate, slice_index, slice_index_or};
ghost use Rattle.sal_bool.specs.Syntax.{run, one, when};
ghost use Rattle.sal_tables.specs.Tables.{vector_mode_probabilities_of};
ghost use Rattle.sal_macroblock.specs.Macroblocks.{is_split, vector_at, HasFittingModes};
ghost use Rattle.sal_macroblock.specs.Sizes.{Within};
ghost use Rattle.sal_modes.specs.Vectors.{AreNear};
ghost use Rattle.sal_modes.specs.Near.{bias_of, near_of};
ghost use Rattle.sal_modes.specs.Modes.{vector_mode, mode_row, vectors_of, reference_of, frame_bias, bias_for, inter_mode};

use crate::around::{Bias, Near};
use crate::near::near_vectors;
use crate::neighbours::Neighbours;
use crate::split::read_split;
use crate::vectors::{ZERO, plus, read_vector};
use sal_base::{SubMode, Vector, YMode};
use sal_bool::Decoder;
use sal_header::Header;
use sal_macroblock::{MbMode, RefKind};
use sal_probs::Probs;
use sal_tables::{vector_mode_probabilities, vector_mode_tree};

/// A bit where there is one, else false.
pub(crate) fn bit_when(decoder: &mut Decoder<'_>, there: bool, probability: u8) -> bool
    ensures reads { run (when there (one probability) false) decoder.old ≡ (result, decoder.new) }
    ensures unread { there ≡ false → result ≡ false }
{
    if there {
        decoder.bit(probability)
    } else {
        false
    }
}

// The reference: last, or else golden or alt.
fn reference_of(later: bool, alt: bool) -> RefKind
    ensures { result ≡ reference_of later alt }
{
    if !later {
        return RefKind::Last;
    }
    if alt { RefKind::Alt } else { RefKind::Golden }
}

// The sign biases of a frame, and that of a macroblock's reference.
fn bias_for(header: &Header, reference: RefKind) -> Bias
    ensures { result ≡ bias_for header.now reference }
{
    let own = match reference {
        RefKind::Intra | RefKind::Last => false,
        RefKind::Golden => header.bias_golden,
        RefKind::Alt => header.bias_alt,
    };
    Bias {
        golden: header.bias_golden,
        alt: header.bias_alt,
        own,
    }
}

// The mode that a leaf of the vector mode's tree stands for.
fn vector_mode(leaf: u8) -> YMode
    requires { leaf < 5 }
    ensures { result ≡ vector_mode leaf }
{
    let modes = [
        YMode::ZERO,
        YMode::NEAREST,
        YMode::NEAR,
        YMode::NEW,
        YMode::SPLIT,
    ];
    modes[leaf as usize]
}

// Entry `place` of the row that a count names.
fn mode_probability(count: u8, place: usize) -> u8
    requires count { count ≤ 5 }
    requires place { place < 4 }
    ensures { result ≡ slice_index (slice_index_or vector_mode_probabilities_of count []) place }
{
    vector_mode_probabilities()[count as usize][place]
}

// The vector mode's four probabilities, by the counts of near vectors.
#[tactic(auto, unfolding(sal_base::specs::Samples::listed_from))]
pub(crate) fn mode_row(counts: &[u8; 4]) -> [u8; 4]
    requires { All (λ c. c ≤ 5) counts.now }
    ensures { result ≡ mode_row counts.now }
{
    [
        mode_probability(counts[0], 0),
        mode_probability(counts[1], 1),
        mode_probability(counts[2], 2),
        mode_probability(counts[3], 3),
    ]
}

// What the macroblocks around one suggest to it.
pub(crate) fn near_for(header: &Header, around: &Neighbours<'_>, reference: RefKind) -> Near
    requires { AreNear around.now.bounds }
    ensures value { result ≡ near_of around.now.above around.now.left around.now.corner (bias_for header.now reference) around.now.bounds }
    ensures row { Within 5120 result.best.row }
    ensures column { Within 5120 result.best.column }
    ensures counts { All (λ c. c ≤ 5) result.counts }
{
    let bias = bias_for(header, reference);
    near_vectors(
        around.above,
        around.left,
        around.corner,
        &bias,
        &around.bounds,
    )
}

// The vectors of the sixteen blocks, by the mode.
fn vectors_of(
    decoder: &mut Decoder<'_>,
    probs: &Probs,
    around: &Neighbours<'_>,
    near: &Near,
    mode: YMode,
) -> [Vector; 16]
    requires row { Within 5120 near.now.best.row }
    requires column { Within 5120 near.now.best.column }
    ensures reads { run (vectors_of probs.now.vectors around.now near.now mode) decoder.old ≡ (result, decoder.new) }
    ensures whole { is_split mode ≡ false → result ≡ replicate 16 (vector_at result 15) }
{
    match mode {
        YMode::NEAREST => [near.nearest; 16],
        YMode::NEAR => [near.near; 16],
        YMode::NEW => [plus(near.best, read_vector(decoder, probs.vectors())); 16],
        YMode::SPLIT => read_split(decoder, probs.vectors(), around, near.best),
        _ => [ZERO; 16],
    }
}

/// The modes and vectors of an inter macroblock.
pub(crate) fn read_inter(
    decoder: &mut Decoder<'_>,
    header: &Header,
    probs: &Probs,
    around: &Neighbours<'_>,
) -> MbMode
    requires { AreNear around.now.bounds }
    ensures reads { run (inter_mode header.now probs.now around.now) decoder.old ≡ (result, decoder.new) }
    ensures modes { HasFittingModes result }
{
    let later = decoder.bit(header.prob_last);
    let alt = bit_when(decoder, later, header.prob_golden);
    let reference = reference_of(later, alt);
    let near = near_for(header, around, reference);
    let y = vector_mode(decoder.tree(vector_mode_tree(), &mode_row(&near.counts)));
    let vectors = vectors_of(decoder, probs, around, &near, y);
    MbMode {
        segment: 0,
        skip: false,
        reference,
        y,
        sub: [SubMode::BDC; 16],
        chroma: YMode::DC,
        vectors,
    }
}
