//! Puts the bits of single values.

ghost use Rattle.std.specs.Prelude.{◌≡◌, ◌∷◌, [], Some, length, OnOk, IsTrue};
ghost use Rattle.sal_bool.specs.Written.{steps};
ghost use Rattle.sal_bool.specs.Pairs.{pair, pairs_when, taken};
ghost use Rattle.sal_modes.specs.Written.{are_below};

use crate::ways::Step;
use sal_base::Memory;
use sal_bool::Encoder;

// The bits on the way to a leaf, each at the probability of its place.
pub(crate) fn put_way(
    encoder: &mut Encoder,
    probabilities: &[u8],
    way: &[Step],
) -> Result<(), Memory>
    requires { IsTrue (are_below (length probabilities.now) way.now) }
    ensures { OnOk result (encoder.new ≡ steps encoder.old (taken probabilities.now (Some way.now))) }
{
    for step in way {
        encoder.put(step.1, probabilities[step.0 as usize])?;
    }
    Ok(())
}

// A bit where there is one.
pub(crate) fn put_bit_when(
    encoder: &mut Encoder,
    there: bool,
    bit: bool,
    probability: u8,
) -> Result<(), Memory>
    ensures { OnOk result (encoder.new ≡ steps encoder.old (pairs_when there (pair probability bit ∷ []))) }
{
    if there {
        encoder.put(bit, probability)
    } else {
        Ok(())
    }
}
