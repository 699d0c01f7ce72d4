//! Reads the modes and vectors of a macroblock (RFC 6386, sections 10, 11, 16 and 19.3).

ghost use Rattle.std.specs.Prelude.{◌≡◌, ◌<◌, ◌≤◌, ℕ, List, true, false, not, if◌then◌else◌};
ghost use Rattle.sal_bool.specs.Bits.{Interval};
ghost use Rattle.sal_bool.specs.Reading.{StandsFor};
ghost use Rattle.sal_bool.specs.Syntax.{run, read, when, leaf};
ghost use Rattle.sal_macroblock.specs.Macroblocks.{is_intra, HasFittingModes};
ghost use Rattle.sal_tables.specs.Trees.{segment_entries};
ghost use Rattle.sal_modes.specs.Vectors.{AreNear};
ghost use Rattle.sal_modes.specs.IntraModes.{intra_mode};
ghost use Rattle.sal_modes.specs.Modes.{inter_mode, mb_mode};
ghost use Rattle.sal_modes.specs.Rows.{around, with_mb};

use crate::inter::{bit_when, read_inter};
use crate::intra::read_intra;
use crate::neighbours::Neighbours;
use crate::row::Row;
use sal_bool::Decoder;
use sal_header::Header;
use sal_macroblock::MbMode;
use sal_probs::Probs;
use sal_tables::segment_tree;

// The segment, where the map is updated.
fn read_segment(decoder: &mut Decoder<'_>, header: &Header) -> u8
    ensures reads { run (when header.now.update_map (leaf segment_entries header.now.map) 0) decoder.old ≡ (result, decoder.new) }
    ensures small { result ≤ 3 }
{
    if header.update_map {
        decoder.tree(segment_tree(), &header.map)
    } else {
        0
    }
}

// The modes, by whether the macroblock is inter.
fn read_modes(
    decoder: &mut Decoder<'_>,
    header: &Header,
    probs: &Probs,
    around: &Neighbours<'_>,
    inter: bool,
) -> MbMode
    requires { AreNear around.now.bounds }
    ensures reads { run (if inter then inter_mode header.now probs.now around.now else intra_mode header.now.key probs.now around.now) decoder.old ≡ (result, decoder.new) }
    ensures intra { inter ≡ false → is_intra result.reference ≡ true }
    ensures modes { HasFittingModes result }
{
    if inter {
        read_inter(decoder, header, probs, around)
    } else {
        read_intra(decoder, header.key, probs, around)
    }
}

// The modes and vectors of the macroblock with these around it.
#[tactic(auto, unfolding(crate::specs::Modes::mb_mode))]
fn read_around(
    decoder: &mut Decoder<'_>,
    header: &Header,
    probs: &Probs,
    around: &Neighbours<'_>,
) -> MbMode
    requires { AreNear around.now.bounds }
    ensures reads { run (mb_mode header.now probs.now around.now) decoder.old ≡ (result, decoder.new) }
    ensures key { header.now.key ≡ true → is_intra result.reference ≡ true }
    ensures modes { HasFittingModes result }
{
    let segment = read_segment(decoder, header);
    let skip = bit_when(decoder, header.skips, header.prob_skip);
    let inter = bit_when(decoder, !header.key, header.prob_intra);
    let mode = read_modes(decoder, header, probs, around, inter);
    MbMode {
        segment,
        skip,
        ..mode
    }
}

/// The modes and vectors of the macroblock at a column of this row, which are put into the row. Its segment is 0 where the
/// frame doesn't update the map. Past the end of the bytes there are zeros, so that no bits are missing; it takes no memory.
pub fn read_mb(
    decoder: &mut Decoder<'_>,
    header: &Header,
    probs: &Probs,
    context: &mut Row,
    column: usize,
) -> MbMode
    requires { column < context.old.columns }
    ensures reads { run (mb_mode header.now probs.now (around context.old column)) decoder.old ≡ (result, decoder.new) }
    ensures exact { (bytes : List ℕ) (i : Interval) → StandsFor bytes i decoder.old → (result ≡ (read bytes i (mb_mode header.now probs.now (around context.old column))).0) × StandsFor bytes (read bytes i (mb_mode header.now probs.now (around context.old column))).1 decoder.new }
    ensures modes { HasFittingModes result }
    ensures key { header.now.key ≡ true → is_intra result.reference ≡ true }
    ensures row { context.new ≡ with_mb column result context.old }
{
    let beyond = MbMode::outside();
    let mode = read_around(decoder, header, probs, &context.around(&beyond, column));
    context.put(column, mode);
    mode
}
