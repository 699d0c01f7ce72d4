//! The modes of all macroblocks of a frame (RFC 6386, section 19.3).

ghost use Rattle.std.specs.Prelude.{◌≡◌, ◌*◌, ◌≤◌, [], All, IfOk, length, true};
ghost use Rattle.sal_bool.specs.Syntax.{run};
ghost use Rattle.sal_macroblock.specs.Macroblocks.{HasFittingModes};
ghost use Rattle.sal_decode.specs.FirstPartition.{mb_modes};
ghost use Rattle.sal_decode.specs.Standing.{IsIntraKind};

use sal_base::Memory;
use sal_bool::Decoder;
use sal_header::Header;
use sal_macroblock::MbMode;
use sal_modes::{Row, read_mb};
use sal_probs::Probs;
use std::alloc::Global;

/// The modes of all macroblocks of a picture of so many a side, in raster order.
pub(crate) fn read_modes(
    alloc: Global,
    decoder: &mut Decoder<'_>,
    header: &Header,
    probs: &Probs,
    columns: usize,
    rows: usize,
) -> Result<Vec<MbMode>, Memory>
    requires columns { (1 ≤ columns) × (columns ≤ 80) }
    requires rows { (1 ≤ rows) × (rows ≤ 45) }
    ensures reads { IfOk result (λ ms. run (mb_modes header.now probs.now columns rows (columns * rows) []) decoder.old ≡ (ms.items, decoder.new)) }
    ensures count { IfOk result (λ ms. length ms.items ≡ columns * rows) }
    ensures fitting { IfOk result (λ ms. All HasFittingModes ms.items) }
    ensures key { header.now.key ≡ true → IfOk result (λ ms. All IsIntraKind ms.items) }
{
    let mut context = Row::new(alloc, columns, rows)?;
    let mut modes = Vec::new(alloc);
    modes.reserve(columns * rows)?;
    for row in 0..rows {
        for column in 0..columns {
            let mode = read_mb(decoder, header, probs, &mut context, column);
            modes.push(mode)?;
        }
        if row + 1 < rows {
            context.down();
        }
    }
    Ok(modes)
}
