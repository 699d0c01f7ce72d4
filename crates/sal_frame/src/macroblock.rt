//! Macroblocks as their bits say them (RFC 6386, section 19.3).

ghost use Rattle.std.specs.Prelude.{◌≡◌, false};
ghost use Rattle.sal_macroblock.specs.Blocks.{no_coefficients};
ghost use Rattle.sal_frame.specs.Records.{macroblock};

use sal_macroblock::{Coefficients, MbMode};
use std::marker::Model;

/// A macroblock: its modes and vectors, its coefficients, and whether some block's first token isn't the end. Where none is, all
/// coefficients are 0. Contracts see the data of a frame's record.
#[derive(Drop)]
pub struct Macroblock<'a> {
    pub(crate) mode: &'a MbMode,
    pub(crate) coefficients: &'a Coefficients,
    pub(crate) has_coefficients: bool,
}

impl<'a> Model for Macroblock<'a> {
    ghost use Rattle.std.specs.Prelude.{◌≡◌, false};
    ghost use Rattle.sal_macroblock.specs.Blocks.{no_coefficients};
    ghost use Rattle.sal_frame.specs.Records.{Macroblock as MacroblockData};

    ghost Value = { MacroblockData };

    ghost view = { λ b. record { mode = b.mode.now; coefficients = b.coefficients.now; has_coefficients = b.has_coefficients } };

    ghost invariant = { λ b. b.has_coefficients ≡ false → b.coefficients.now ≡ no_coefficients };
}

impl<'a> Macroblock<'a> {
    /// A macroblock of these modes and coefficients.
    pub fn new(
        mode: &'a MbMode,
        coefficients: &'a Coefficients,
        has_coefficients: bool,
    ) -> Macroblock<'a>
        requires { has_coefficients ≡ false → coefficients.now ≡ no_coefficients }
        ensures { result ≡ macroblock mode.now coefficients.now has_coefficients }
    {
        Macroblock {
            mode,
            coefficients,
            has_coefficients,
        }
    }
}
