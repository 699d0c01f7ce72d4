//! What is around a macroblock, as its readers take it.

use crate::around::Bounds;
use sal_macroblock::MbMode;
use std::marker::Model;

/// The macroblocks above, left and above-left of one, and how far its near vectors may point. Contracts see it as an `Around`.
#[derive(Drop)]
pub(crate) struct Neighbours<'a> {
    /// The macroblock above; outside the picture the one that stands for those there.
    pub above: &'a MbMode,
    /// The macroblock on the left, alike.
    pub left: &'a MbMode,
    /// The macroblock above the one on the left, alike.
    pub corner: &'a MbMode,
    /// How far the near vectors may point, in quarter samples.
    pub bounds: Bounds,
}

impl<'a> Model for Neighbours<'a> {
    ghost use Rattle.sal_modes.specs.Around.{Around};

    ghost Value = { Around };

    ghost view = { λ n. record { above = n.above.now; left = n.left.now; corner = n.corner.now; bounds = n.bounds } };
}
