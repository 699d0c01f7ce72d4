//! Who takes the bits that coefficients are written as: an encoder, or counts of them.

ghost use Rattle.std.specs.Prelude.{◌≡◌, ◌<◌, OnOk};
ghost use Rattle.sal_tokens.specs.Written.{Branch, Placed, Fixed};

use crate::counts::Counts;
use sal_base::Memory;
use sal_bool::Encoder;
use sal_probs::Probs;
use std::convert::Infallible;

// Takes bits one after the other, each at a coefficient probability by its place, or at a fixed one.
pub(crate) trait Sink {
    // The table of probabilities that bits are put at; what only counts has none.
    type Table;

    type Refusal;

    ghost use Rattle.sal_tokens.specs.Written.{Branch};

    // What a bit leaves of it.
    ghost after: { Self.Table → Self → Branch → Self };

    // A bit at the coefficient probability at this place.
    fn placed(&mut self, table: &Self::Table, at: usize, bit: bool) -> Result<(), Self::Refusal>
        requires { at < 1056 }
        ensures { OnOk result (self.new ≡ after table.now self.old (Placed at bit)) };

    // A bit at this probability.
    fn fixed(
        &mut self,
        table: &Self::Table,
        probability: u8,
        bit: bool,
    ) -> Result<(), Self::Refusal>
        ensures { OnOk result (self.new ≡ after table.now self.old (Fixed probability bit)) };
}

impl Sink for Encoder {
    type Table = Probs;

    type Refusal = Memory;

    ghost use Rattle.sal_bool.specs.Bits.{next};
    ghost use Rattle.sal_tokens.specs.Written.{pair_of};

    ghost after = { λ probs i b. next i (pair_of probs.coefficients b).0 (pair_of probs.coefficients b).1 };

    fn placed(&mut self, probs: &Probs, at: usize, bit: bool) -> Result<(), Memory> {
        self.put(bit, probs.coefficients()[at])
    }

    fn fixed(&mut self, _probs: &Probs, probability: u8, bit: bool) -> Result<(), Memory> {
        self.put(bit, probability)
    }
}

impl Sink for Counts {
    type Table = ();

    type Refusal = Infallible;

    ghost use Rattle.sal_tokens.specs.Written.{counted};

    ghost after = { λ u c b. record { pairs = counted c.pairs b } };

    fn placed(&mut self, _none: &(), at: usize, bit: bool) -> Result<(), Infallible> {
        self.add(at, bit);
        Ok(())
    }

    fn fixed(&mut self, _none: &(), _probability: u8, _bit: bool) -> Result<(), Infallible> {
        Ok(())
    }
}
