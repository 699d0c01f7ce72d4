//! Writes the modes and vectors of an inter macroblock that isn't in parts (RFC 6386, sections 16.2 and 16.3).

ghost use Rattle.std.specs.Prelude.{◌≡◌, ◌≤◌, ◌∷◌, [], ℕ, List, All, true, false, not, OnOk};
ghost use Rattle.sal_bool.specs.Written.{steps};
ghost use Rattle.sal_bool.specs.Pairs.{pairs_when, leaf_pairs};
ghost use Rattle.sal_tables.specs.Trees.{vector_mode_entries};
ghost use Rattle.sal_macroblock.specs.Macroblocks.{own_vector};
ghost use Rattle.sal_modes.specs.Vectors.{AreNear};
ghost use Rattle.sal_modes.specs.Modes.{mode_row};
ghost use Rattle.sal_modes.specs.Written.{vector_number, vector_pairs, is_new, is_last, is_alt, near_for, inter_pairs, IsVectorOf};

use crate::around::Near;
use crate::inter::{mode_row, near_for};
use crate::neighbours::Neighbours;
use crate::put::{put_bit_when, put_way};
use crate::ways::vector_mode_way;
use crate::write_vectors::put_vector;
use sal_base::{Memory, YMode};
use sal_bool::Encoder;
use sal_header::Header;
use sal_macroblock::{MbMode, RefKind};
use sal_probs::Probs;

fn is_last(reference: RefKind) -> bool
    ensures { result ≡ is_last reference }
{
    match reference {
        RefKind::Last => true,
        RefKind::Intra | RefKind::Golden | RefKind::Alt => false,
    }
}

fn is_alt(reference: RefKind) -> bool
    ensures { result ≡ is_alt reference }
{
    match reference {
        RefKind::Alt => true,
        RefKind::Intra | RefKind::Last | RefKind::Golden => false,
    }
}

// The vector mode, at the probabilities that these counts choose.
fn put_vector_mode(encoder: &mut Encoder, counts: &[u8; 4], y: YMode) -> Result<(), Memory>
    requires { All (λ c. c ≤ 5) counts.now }
    ensures { OnOk result (encoder.new ≡ steps encoder.old (leaf_pairs vector_mode_entries (mode_row counts.now) (vector_number y))) }
{
    put_way(encoder, &mode_row(counts), vector_mode_way(y))
}

// For NEW how far the vector is from best.
fn put_vector_when(
    encoder: &mut Encoder,
    probs: &Probs,
    near: &Near,
    mode: &MbMode,
) -> Result<(), Memory>
    requires { IsVectorOf near.now mode.now.y (own_vector mode.now) }
    ensures { OnOk result (encoder.new ≡ steps encoder.old (pairs_when (is_new mode.now.y) (vector_pairs probs.now.vectors near.now.best (own_vector mode.now)))) }
{
    if let YMode::NEW = mode.y {
        put_vector(encoder, probs.vectors(), near.best, mode.vector())
    } else {
        Ok(())
    }
}

/// Writes the modes and vectors of an inter macroblock that isn't in parts.
pub(crate) fn write_inter(
    encoder: &mut Encoder,
    header: &Header,
    probs: &Probs,
    around: &Neighbours<'_>,
    mode: &MbMode,
) -> Result<(), Memory>
    requires near { AreNear around.now.bounds }
    requires vector { IsVectorOf (near_for header.now around.now mode.now.reference) mode.now.y (own_vector mode.now) }
    ensures { OnOk result (encoder.new ≡ steps encoder.old (inter_pairs header.now probs.now around.now mode.now)) }
{
    let later = !is_last(mode.reference);
    encoder.put(later, header.prob_last)?;
    put_bit_when(encoder, later, is_alt(mode.reference), header.prob_golden)?;
    let near = near_for(header, around, mode.reference);
    put_vector_mode(encoder, &near.counts, mode.y)?;
    put_vector_when(encoder, probs, &near, mode)?;
    Ok(())
}
