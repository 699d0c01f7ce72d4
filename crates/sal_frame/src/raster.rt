//! The laws that a loop over a frame's macroblocks in raster order goes by.

ghost use Rattle.std.specs.Prelude.{◌≡◌, ◌<◌, ◌++◌, ◌∷◌, [], ◌/◌, ◌%◌, ℕ, List, length};
ghost use Rattle.sal_base.specs.declared.picture.Planes.{Planes};
ghost use Rattle.sal_state.specs.States.{References, HasBlocks};
ghost use Rattle.sal_transform.specs.Factors.{Factors};
ghost use Rattle.sal_frame.specs.Records.{Macroblock, Record, columns_of, segment_factors};
ghost use Rattle.sal_frame.specs.Built.{one_built, all_built, blanks};

/// What the macroblocks of a frame build, one more of them builds onto: it stands at the column and row that their number
/// says, and takes its segment's factors.
pub fn one_macroblock_more()
    ensures { (r : References) (f : Record) (bs : List Macroblock) (b : Macroblock) (p : Planes) → all_built r f 0 (bs ++ b ∷ []) p ≡ one_built r (segment_factors f.header b.mode.segment) b (length bs % columns_of f) (length bs / columns_of f) (all_built r f 0 bs p) }
{}

/// A macroblock leaves planes as large as they were, and those that a frame begins with are as large as they are to be.
pub fn sizes_stay()
    ensures one { (r : References) (s : Factors) (b : Macroblock) (column row columns rows : ℕ) (p : Planes) → HasBlocks columns rows p → column < columns → row < rows → HasBlocks columns rows (one_built r s b column row p) }
    ensures blank { (columns rows : ℕ) → HasBlocks columns rows (blanks columns rows) }
{}
