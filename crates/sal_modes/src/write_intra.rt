//! Writes the modes of an intra macroblock (RFC 6386, sections 11.2 to 11.4 and 16.2).

ghost use Rattle.std.specs.Prelude.{◌≡◌, true, length, OnOk};
ghost use Rattle.sal_base.specs.Kinds.{is_whole};
ghost use Rattle.sal_bool.specs.Written.{steps};
ghost use Rattle.sal_bool.specs.Pairs.{pairs_when};
ghost use Rattle.sal_macroblock.specs.Macroblocks.{is_b};
ghost use Rattle.sal_modes.specs.Written.{y_pairs, subs_pairs, chroma_pairs, intra_pairs};

use crate::intra::sub_probabilities;
use crate::neighbours::Neighbours;
use crate::put::put_way;
use crate::ways::{chroma_way, inter_y_way, key_y_way, sub_way};
use sal_base::{Memory, SubMode, YMode};
use sal_bool::Encoder;
use sal_macroblock::MbMode;
use sal_probs::Probs;
use sal_tables::{key_chroma_probabilities, key_y_probabilities};

// The Y mode.
fn put_y(encoder: &mut Encoder, key: bool, probs: &Probs, y: YMode) -> Result<(), Memory>
    ensures { OnOk result (encoder.new ≡ steps encoder.old (y_pairs key probs.now y)) }
{
    if key {
        put_way(encoder, key_y_probabilities(), key_y_way(y))
    } else {
        put_way(encoder, probs.y(), inter_y_way(y))
    }
}

// The chroma mode.
fn put_chroma(encoder: &mut Encoder, key: bool, probs: &Probs, chroma: YMode) -> Result<(), Memory>
    requires { is_whole chroma ≡ true }
    ensures { OnOk result (encoder.new ≡ steps encoder.old (chroma_pairs key probs.now chroma)) }
{
    if key {
        put_way(encoder, key_chroma_probabilities(), chroma_way(chroma))
    } else {
        put_way(encoder, probs.chroma(), chroma_way(chroma))
    }
}

// The modes of the sixteen subblocks.
fn put_subs(
    encoder: &mut Encoder,
    key: bool,
    around: &Neighbours<'_>,
    modes: &[SubMode; 16],
) -> Result<(), Memory>
    ensures long { OnOk result (length modes.now ≡ 16) }
    ensures pairs { OnOk result (encoder.new ≡ steps encoder.old (subs_pairs key around.now modes.now 0 16)) }
{
    for k in 0..16usize {
        let row = sub_probabilities(key, around, modes, k);
        put_way(encoder, row, sub_way(modes[k]))?;
    }
    Ok(())
}

// The modes of the subblocks where the mode is B.
fn put_subs_when(
    encoder: &mut Encoder,
    key: bool,
    around: &Neighbours<'_>,
    mode: &MbMode,
) -> Result<(), Memory>
    ensures long { OnOk result (is_b mode.now.y ≡ true → length mode.now.sub ≡ 16) }
    ensures pairs { OnOk result (encoder.new ≡ steps encoder.old (pairs_when (is_b mode.now.y) (subs_pairs key around.now mode.now.sub 0 16))) }
{
    if let YMode::B = mode.y {
        put_subs(encoder, key, around, &mode.sub)
    } else {
        Ok(())
    }
}

/// Writes the modes of an intra macroblock, of a key frame or of an inter frame.
pub(crate) fn write_intra(
    encoder: &mut Encoder,
    key: bool,
    probs: &Probs,
    around: &Neighbours<'_>,
    mode: &MbMode,
) -> Result<(), Memory>
    requires { is_whole mode.now.chroma ≡ true }
    ensures long { OnOk result (is_b mode.now.y ≡ true → length mode.now.sub ≡ 16) }
    ensures pairs { OnOk result (encoder.new ≡ steps encoder.old (intra_pairs key probs.now around.now mode.now)) }
{
    put_y(encoder, key, probs, mode.y)?;
    put_subs_when(encoder, key, around, mode)?;
    put_chroma(encoder, key, probs, mode.chroma)?;
    Ok(())
}
