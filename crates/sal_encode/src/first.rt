//! The first partition of a plan (RFC 6386, sections 9.2 and 19.3).

ghost use Rattle.std.specs.Prelude.{◌≡◌, ◌<◌, ◌≤◌, ◌*◌, ℕ, [], IfOk, OnOk, length, slice_index_or};
ghost use Rattle.sal_base.specs.Pictures.{blocks_of};
ghost use Rattle.sal_bool.specs.Written.{steps};
ghost use Rattle.sal_macroblock.specs.Macroblocks.{outside};
ghost use Rattle.sal_modes.specs.Written.{IsWritable};
ghost use Rattle.sal_decode.specs.FirstPartition.{around};
ghost use Rattle.sal_encode.specs.Plans.{read_before, IsPlan};
ghost use Rattle.sal_encode.specs.FrameBytes.{probs_of, modes_pairs, first_bytes};

use crate::plan::Plan;
use sal_base::{Bytes, Memory};
use sal_bool::Encoder;
use sal_frame::blocks_of;
use sal_header::{Header, write_header};
use sal_macroblock::MbMode;
use sal_modes::{Row, write_mb};
use sal_probs::Probs;
use sal_state::State;
use std::alloc::Global;

// Writes the modes of all macroblocks of a picture of so many a side, in raster order.
fn write_modes(
    alloc: Global,
    encoder: &mut Encoder,
    header: &Header,
    probs: &Probs,
    modes: &[MbMode],
    columns: usize,
    rows: usize,
) -> Result<(), Memory>
    requires columns { (1 ≤ columns) × (columns ≤ 80) }
    requires rows { (1 ≤ rows) × (rows ≤ 45) }
    requires count { length modes.now ≡ columns * rows }
    requires writable { (k : ℕ) → k < length modes.now → IsWritable header.now (around columns rows (read_before header.now modes.now k)) (slice_index_or modes.now k outside) }
    ensures { OnOk result (encoder.new ≡ steps encoder.old (modes_pairs header.now probs.now columns rows [] modes.now)) }
{
    let mut context = Row::new(alloc, columns, rows)?;
    for row in 0..rows {
        for column in 0..columns {
            let mode = &modes[row * columns + column];
            write_mb(encoder, header, probs, &mut context, column, mode)?;
        }
        if row + 1 < rows {
            context.down();
        }
    }
    Ok(())
}

/// The bytes of the first partition of a plan: its header, then the modes of all macroblocks.
pub(crate) fn write_first(
    alloc: Global,
    state: &State,
    width: u16,
    height: u16,
    plan: &Plan,
    probs: &Probs,
) -> Result<Bytes, Memory>
    requires plan { IsPlan state.now (width, height) plan.now }
    requires probs { probs.now ≡ probs_of state.now plan.now }
    ensures { IfOk result (λ b. b ≡ first_bytes state.now (width, height) plan.now) }
{
    let mut encoder = Encoder::new(alloc);
    write_header(&mut encoder, &plan.header)?;
    write_modes(
        alloc,
        &mut encoder,
        &plan.header,
        probs,
        plan.modes.as_slice(),
        blocks_of(width),
        blocks_of(height),
    )?;
    encoder.finish()
}
