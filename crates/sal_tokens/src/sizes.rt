//! How many bits a macroblock's coefficients take.

ghost use Rattle.std.specs.Prelude.{ℕ, List, Bool};
ghost use Rattle.sal_bool.specs.Sizes.{TakesAtMost};
ghost use Rattle.sal_tokens.specs.Coefficients.{block};
ghost use Rattle.sal_tokens.specs.Blocks.{macroblock};

/// A block takes at most 544 bits, 34 for each coefficient: 22 entries of the token's tree, eleven extra bits and a sign. The blocks
/// of a macroblock take at most 13,600.
pub fn coefficients_in_few_bits()
    ensures block { (probabilities : List ℕ) (kind context : ℕ) → TakesAtMost (block probabilities kind context) 544 }
    ensures macroblock { (probabilities : List ℕ) (has_y2 : Bool) (above left : List Bool) → TakesAtMost (macroblock probabilities has_y2 above left) 13600 }
{}
