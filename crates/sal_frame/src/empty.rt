//! Planes before any macroblock is built.

ghost use Rattle.std.specs.Prelude.{◌≡◌, ◌≤◌, IfOk};
ghost use Rattle.sal_base.specs.Pictures.{blank, blocks_of};
ghost use Rattle.sal_frame.specs.Built.{blanks};

use sal_base::{Bytes, Memory, Plane, Planes};
use std::alloc::Global;

/// How many macroblocks a side takes.
pub fn blocks_of(side: u16) -> usize
    ensures { result ≡ blocks_of side }
{
    side.div_ceil(16) as usize
}

// A plane of zeros.
fn blank(alloc: Global, width: u16, height: u16) -> Result<Plane, Memory>
    ensures { IfOk result (λ p. p ≡ blank width height) }
{
    let samples = Bytes::repeat(alloc, 0, width as usize * height as usize)?;
    Ok(Plane {
        width,
        height,
        samples,
    })
}

/// Planes of so many macroblocks a side with nothing built yet.
#[tactic(auto, unfolding(crate::specs::Built::blanks))]
pub fn blanks(alloc: Global, columns: usize, rows: usize) -> Result<Planes, Memory>
    requires columns { columns ≤ 80 }
    requires rows { rows ≤ 45 }
    ensures { IfOk result (λ p. p ≡ blanks columns rows) }
{
    let columns = columns as u16;
    let rows = rows as u16;
    Ok(Planes {
        y: blank(alloc, 16 * columns, 16 * rows)?,
        u: blank(alloc, 8 * columns, 8 * rows)?,
        v: blank(alloc, 8 * columns, 8 * rows)?,
    })
}
