//! A row of macroblocks and the one above it.

ghost use Rattle.std.specs.Prelude.{◌≡◌, ◌+◌, ◌<◌, ◌≤◌, IfOk, length};
ghost use Rattle.sal_macroblock.specs.Sizes.{Within};
ghost use Rattle.sal_macroblock.specs.Macroblocks.{outside};
ghost use Rattle.sal_modes.specs.Vectors.{bounds_of, AreNear};
ghost use Rattle.sal_modes.specs.Rows.{first_row, before, around, with_mb, next_row};

use crate::around::Bounds;
use crate::neighbours::Neighbours;
use sal_base::{Memory, Vector};
use sal_macroblock::MbMode;
use std::alloc::Global;
use std::marker::Model;

/// The macroblocks of a row that were read, and those of the row above it. Contracts see it as `Rows`.
///
/// A row is read from left to right: each place of `here` has its macroblock once it was read, and an older one before.
#[derive(Drop)]
pub struct Row {
    columns: usize,
    rows: usize,
    row: usize,
    above: Vec<MbMode>,
    here: Vec<MbMode>,
}

impl Model for Row {
    ghost use Rattle.std.specs.Prelude.{◌≡◌, ◌<◌, ◌≤◌, length};
    ghost use Rattle.sal_modes.specs.Rows.{Rows};

    ghost Value = { Rows };

    ghost view = { λ r. record { columns = r.columns; rows = r.rows; row = r.row; above = r.above.items; here = r.here.items } };

    ghost invariant = { λ r. (r.columns ≤ 80) × (r.rows ≤ 45) × (r.row < r.rows) × (length r.above.items ≡ r.columns) × (length r.here.items ≡ r.columns) };
}

impl Row {
    /// The first row of a picture of so many macroblocks a side: 1 to 80 columns and 1 to 45 rows.
    pub fn new(alloc: Global, columns: usize, rows: usize) -> Result<Row, Memory>
        requires columns { (1 ≤ columns) × (columns ≤ 80) }
        requires rows { (1 ≤ rows) × (rows ≤ 45) }
        ensures { IfOk result (λ r. r ≡ first_row columns rows) }
    {
        let above = vec![in alloc; MbMode::outside(); columns]?;
        let here = vec![in alloc; MbMode::outside(); columns]?;
        Ok(Row {
            columns,
            rows,
            row: 0,
            above,
            here,
        })
    }

    /// Goes to the next row, where there is one. It takes no memory.
    pub fn down(&mut self)
        requires { self.old.row + 1 < self.old.rows }
        ensures { self.new ≡ next_row self.old }
    {
        self.row += 1;
        std::mem::swap(&mut self.above, &mut self.here);
    }

    /// What is around the macroblock at a column; `beyond` stands for what is outside the picture.
    pub(crate) fn around<'a>(&'a self, beyond: &'a MbMode, column: usize) -> Neighbours<'a>
        requires beyond { beyond.now ≡ outside }
        requires column { column < self.now.columns }
        ensures value { result ≡ around self.now column }
        ensures near { AreNear result.bounds }
    {
        Neighbours {
            above: &self.above[column],
            left: before(self.here.as_slice(), beyond, column),
            corner: before(self.above.as_slice(), beyond, column),
            bounds: bounds_of(self.columns, self.rows, column, self.row),
        }
    }

    /// Puts a macroblock at its column.
    pub(crate) fn put(&mut self, column: usize, mode: MbMode)
        requires { column < self.old.columns }
        ensures { self.new ≡ with_mb column mode self.old }
    {
        self.here[column] = mode;
    }
}

// The macroblock before a column, where there is one.
fn before<'a>(modes: &'a [MbMode], beyond: &'a MbMode, column: usize) -> &'a MbMode
    requires beyond { beyond.now ≡ outside }
    requires column { column < length modes.now }
    ensures { result.now ≡ before modes.now column }
{
    if column == 0 {
        beyond
    } else {
        &modes[column - 1]
    }
}

// How far the near vectors of a macroblock may point.
fn bounds_of(columns: usize, rows: usize, column: usize, row: usize) -> Bounds
    requires columns { (column < columns) × (columns ≤ 80) }
    requires rows { (row < rows) × (rows ≤ 45) }
    ensures value { result ≡ bounds_of columns rows column row }
    ensures near { AreNear result }
{
    Bounds {
        least: Vector {
            row: -(64 * (row as i16 + 1)),
            column: -(64 * (column as i16 + 1)),
        },
        greatest: Vector {
            row: 64 * (rows - row) as i16,
            column: 64 * (columns - column) as i16,
        },
    }
}
