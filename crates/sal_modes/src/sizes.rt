//! How many bits a macroblock's modes and vectors are written as.

ghost use Rattle.std.specs.Prelude.{◌≤◌, length};
ghost use Rattle.sal_probs.specs.Probabilities.{Table};
ghost use Rattle.sal_header.specs.declared.header.Header.{Header};
ghost use Rattle.sal_macroblock.specs.declared.mode.MbMode.{MbMode};
ghost use Rattle.sal_modes.specs.Around.{Around};
ghost use Rattle.sal_modes.specs.Written.{mb_pairs};

/// A macroblock that isn't in parts is written as at most 310 bits: 6 of the segment, 1 of the skip flag, 1 of the kind, and 8, 288 and 6 of
/// the Y mode, those of the subblocks and the chroma mode, or at most 42 of an inter macroblock.
pub fn modes_in_few_bits()
    ensures { (h : Header) (probs : Table) (a : Around) (m : MbMode) → length (mb_pairs h probs a m) ≤ 310 }
{}
