//! Writes the modes and vectors of a macroblock (RFC 6386, sections 10, 11, 16 and 19.3).

ghost use Rattle.std.specs.Prelude.{◌≡◌, ◌<◌, ◌≤◌, ℕ, List, Bool, true, false, not, length, OnOk, OnErr, if◌then◌else◌};
ghost use Rattle.sal_bool.specs.Bits.{start};
ghost use Rattle.sal_bool.specs.Syntax.{read, Follows};
ghost use Rattle.sal_bool.specs.Written.{steps, written, AreFit};
ghost use Rattle.sal_bool.specs.Pairs.{pairs_when, leaf_pairs};
ghost use Rattle.sal_tables.specs.Trees.{segment_entries};
ghost use Rattle.sal_macroblock.specs.Macroblocks.{is_intra, is_b};
ghost use Rattle.sal_modes.specs.Vectors.{AreNear};
ghost use Rattle.sal_modes.specs.Modes.{mb_mode};
ghost use Rattle.sal_modes.specs.Rows.{around, with_mb};
ghost use Rattle.sal_modes.specs.Written.{intra_pairs, inter_pairs, mb_pairs, as_read, IsWritable};

use crate::neighbours::Neighbours;
use crate::put::{put_bit_when, put_way};
use crate::row::Row;
use crate::ways::segment_way;
use crate::write_inter::write_inter;
use crate::write_intra::write_intra;
use sal_base::Memory;
use sal_bool::Encoder;
use sal_header::Header;
use sal_macroblock::MbMode;
use sal_probs::Probs;

// The segment, where the map is updated.
fn put_segment_when(encoder: &mut Encoder, header: &Header, segment: u8) -> Result<(), Memory>
    requires { segment < 4 }
    ensures { OnOk result (encoder.new ≡ steps encoder.old (pairs_when header.now.update_map (leaf_pairs segment_entries header.now.map segment))) }
{
    if header.update_map {
        put_way(encoder, &header.map, segment_way(segment))
    } else {
        Ok(())
    }
}

// The modes, by whether the macroblock is inter.
fn write_modes(
    encoder: &mut Encoder,
    header: &Header,
    probs: &Probs,
    around: &Neighbours<'_>,
    mode: &MbMode,
) -> Result<(), Memory>
    requires near { AreNear around.now.bounds }
    requires writable { IsWritable header.now around.now mode.now }
    ensures long { OnOk result (is_b mode.now.y ≡ true → length mode.now.sub ≡ 16) }
    ensures pairs { OnOk result (encoder.new ≡ steps encoder.old (if is_intra mode.now.reference then intra_pairs header.now.key probs.now around.now mode.now else inter_pairs header.now probs.now around.now mode.now)) }
{
    if mode.is_inter() {
        write_inter(encoder, header, probs, around, mode)
    } else {
        write_intra(encoder, header.key, probs, around, mode)
    }
}

// The modes and vectors of the macroblock with these around it.
fn write_around(
    encoder: &mut Encoder,
    header: &Header,
    probs: &Probs,
    around: &Neighbours<'_>,
    mode: &MbMode,
) -> Result<(), Memory>
    requires near { AreNear around.now.bounds }
    requires writable { IsWritable header.now around.now mode.now }
    ensures long { OnOk result (is_b mode.now.y ≡ true → length mode.now.sub ≡ 16) }
    ensures pairs { OnOk result (encoder.new ≡ steps encoder.old (mb_pairs header.now probs.now around.now mode.now)) }
{
    put_segment_when(encoder, header, mode.segment)?;
    put_bit_when(encoder, header.skips, mode.skip, header.prob_skip)?;
    put_bit_when(encoder, !header.key, mode.is_inter(), header.prob_intra)?;
    write_modes(encoder, header, probs, around, mode)?;
    Ok(())
}

// What is read of a macroblock: its segment only where the map is updated.
fn as_read(header: &Header, mode: &MbMode) -> MbMode
    ensures { result ≡ as_read header.now mode.now }
{
    let segment = if header.update_map { mode.segment } else { 0 };
    MbMode { segment, ..*mode }
}

/// Writes the modes and vectors of the macroblock at a column of this row, as `read_mb` reads them, and puts what is read into the
/// row: its segment is 0 where the frame doesn't update the map. It is read back with any bits before it and after it, and
/// reading stands then where writing stood.
pub fn write_mb(
    encoder: &mut Encoder,
    header: &Header,
    probs: &Probs,
    context: &mut Row,
    column: usize,
    mode: &MbMode,
) -> Result<(), Memory>
    requires column { column < context.old.columns }
    requires writable { IsWritable header.now (around context.old column) mode.now }
    ensures pairs { OnOk result (encoder.new ≡ steps encoder.old (mb_pairs header.now probs.now (around context.old column) mode.now)) }
    ensures row { OnOk result (context.new ≡ with_mb column (as_read header.now mode.now) context.old) }
    ensures kept { OnErr result (context.new ≡ context.old) }
    ensures follows { OnOk result (Follows (mb_mode header.now probs.now (around context.old column)) (mb_pairs header.now probs.now (around context.old column) mode.now) (as_read header.now mode.now)) }
    ensures read_back { OnOk result ((before more : List (ℕ × Bool)) → AreFit before → AreFit more → encoder.old ≡ steps start before → read (written (steps encoder.new more)) encoder.old (mb_mode header.now probs.now (around context.old column)) ≡ (as_read header.now mode.now, encoder.new)) }
{
    let beyond = MbMode::outside();
    write_around(
        encoder,
        header,
        probs,
        &context.around(&beyond, column),
        mode,
    )?;
    context.put(column, as_read(header, mode));
    Ok(())
}
