//! Plans of frames.

ghost use Rattle.std.specs.Prelude.{◌≡◌};

use sal_header::Header;
use sal_macroblock::{Coefficients, MbMode};
use std::marker::Model;

/// The modes and vectors of all macroblocks of a frame, in raster order. Contracts see the list.
#[derive(Drop)]
pub struct Modes {
    items: Vec<MbMode>,
}

impl Model for Modes {
    ghost use Rattle.std.specs.Prelude.{List};
    ghost use Rattle.sal_macroblock.specs.declared.mode.MbMode.{MbMode};

    ghost Value = { List MbMode };

    ghost view = { λ m. m.items.items };
}

impl Modes {
    /// The modes of a `Vec`.
    pub fn from_vec(items: Vec<MbMode>) -> Modes
        ensures { result ≡ items.items }
    {
        Modes { items }
    }

    /// The modes, lent.
    pub fn as_slice(&self) -> &[MbMode]
        ensures { result.now ≡ self.now }
    {
        self.items.as_slice()
    }
}

/// The coefficients of all macroblocks of a frame, quantised, in raster order. Contracts see the list.
#[derive(Drop)]
pub struct Levels {
    items: Vec<Coefficients>,
}

impl Model for Levels {
    ghost use Rattle.std.specs.Prelude.{List, ℤ};

    ghost Value = { List (List (List ℤ)) };

    ghost view = { λ l. l.items.items };
}

impl Levels {
    /// The coefficients of a `Vec`.
    pub fn from_vec(items: Vec<Coefficients>) -> Levels
        ensures { result ≡ items.items }
    {
        Levels { items }
    }

    /// The coefficients, lent.
    pub fn as_slice(&self) -> &[Coefficients]
        ensures { result.now ≡ self.now }
    {
        self.items.as_slice()
    }
}

/// All that a frame is to say, but for its size: its header, and the modes and coefficients of its macroblocks.
#[derive(Drop)]
pub struct Plan {
    pub header: Header,
    pub modes: Modes,
    pub levels: Levels,
}
