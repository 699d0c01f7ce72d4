//! What the definitions come to.

ghost use Rattle.std.specs.Prelude.{List, ◌∷◌};
ghost use Rattle.sal_base.specs.declared.kinds.YMode.{YMode};
ghost use Rattle.sal_base.specs.declared.kinds.SubMode.{SubMode};
ghost use Rattle.sal_macroblock.specs.declared.mode.MbMode.{MbMode};
ghost use Rattle.sal_search.specs.Costs.{Candidate, first_least, IsFirstLeast};

/// The first of least cost stands in its list: each candidate before it costs more, and none after it costs less. It does nothing: it is
/// a law of the definition.
pub fn first_least_is_first()
    ensures macroblocks { (a : Candidate MbMode) (ks : List (Candidate MbMode)) → IsFirstLeast (a ∷ ks) (first_least a ks) }
    ensures subblocks { (a : Candidate SubMode) (ks : List (Candidate SubMode)) → IsFirstLeast (a ∷ ks) (first_least a ks) }
    ensures chroma { (a : Candidate YMode) (ks : List (Candidate YMode)) → IsFirstLeast (a ∷ ks) (first_least a ks) }
{}
