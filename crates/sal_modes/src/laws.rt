//! What the suggested vectors are, however they are found.

ghost use Rattle.std.specs.Prelude.{◌≡◌};
ghost use Rattle.sal_macroblock.specs.declared.mode.MbMode.{MbMode};
ghost use Rattle.sal_modes.specs.declared.around.Bias.{Bias};
ghost use Rattle.sal_modes.specs.declared.around.Bounds.{Bounds};
ghost use Rattle.sal_modes.specs.Near.{near_of, IsCutOff, AreOrdered, IsInBounds};

/// Before they are cut off at the bounds, best, nearest and near are each zero or the vector of one of the three neighbours, negated
/// by sign bias or not.
pub fn near_vectors_are_neighbours()
    ensures best { (above left corner : MbMode) (b : Bias) (bounds : Bounds) → IsCutOff above left corner bounds (near_of above left corner b bounds).best }
    ensures nearest { (above left corner : MbMode) (b : Bias) (bounds : Bounds) → IsCutOff above left corner bounds (near_of above left corner b bounds).nearest }
    ensures near { (above left corner : MbMode) (b : Bias) (bounds : Bounds) → IsCutOff above left corner bounds (near_of above left corner b bounds).near }
{}

/// All three lie in the bounds.
pub fn near_vectors_lie_in_bounds()
    ensures best { (above left corner : MbMode) (b : Bias) (bounds : Bounds) → AreOrdered bounds → IsInBounds bounds (near_of above left corner b bounds).best }
    ensures nearest { (above left corner : MbMode) (b : Bias) (bounds : Bounds) → AreOrdered bounds → IsInBounds bounds (near_of above left corner b bounds).nearest }
    ensures near { (above left corner : MbMode) (b : Bias) (bounds : Bounds) → AreOrdered bounds → IsInBounds bounds (near_of above left corner b bounds).near }
{}
