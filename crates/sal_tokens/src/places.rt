//! The order of a macroblock's blocks, and where each one's contexts stand (RFC 6386, sections 13.3 and 19.3).

ghost use Rattle.std.specs.Prelude.{◌≡◌, IsTrue};
ghost use Rattle.sal_tokens.specs.Blocks.{places, are_places};

/// A block's index among the 25 of a macroblock, its kind, and its places in the rows of contexts above and left.
#[derive(Clone, Copy, Debug, PartialEq, Eq)]
pub struct Place {
    pub index: u8,
    pub kind: u8,
    pub above: u8,
    pub left: u8,
}

#[rattlefmt::skip]
static WITH_Y2: [Place; 25] = [
    Place { index: 24, kind: 1, above: 8, left: 8 },
    // luma
    Place { index: 0, kind: 0, above: 0, left: 0 },
    Place { index: 1, kind: 0, above: 1, left: 0 },
    Place { index: 2, kind: 0, above: 2, left: 0 },
    Place { index: 3, kind: 0, above: 3, left: 0 },
    Place { index: 4, kind: 0, above: 0, left: 1 },
    Place { index: 5, kind: 0, above: 1, left: 1 },
    Place { index: 6, kind: 0, above: 2, left: 1 },
    Place { index: 7, kind: 0, above: 3, left: 1 },
    Place { index: 8, kind: 0, above: 0, left: 2 },
    Place { index: 9, kind: 0, above: 1, left: 2 },
    Place { index: 10, kind: 0, above: 2, left: 2 },
    Place { index: 11, kind: 0, above: 3, left: 2 },
    Place { index: 12, kind: 0, above: 0, left: 3 },
    Place { index: 13, kind: 0, above: 1, left: 3 },
    Place { index: 14, kind: 0, above: 2, left: 3 },
    Place { index: 15, kind: 0, above: 3, left: 3 },
    // U
    Place { index: 16, kind: 2, above: 4, left: 4 },
    Place { index: 17, kind: 2, above: 5, left: 4 },
    Place { index: 18, kind: 2, above: 4, left: 5 },
    Place { index: 19, kind: 2, above: 5, left: 5 },
    // V
    Place { index: 20, kind: 2, above: 6, left: 6 },
    Place { index: 21, kind: 2, above: 7, left: 6 },
    Place { index: 22, kind: 2, above: 6, left: 7 },
    Place { index: 23, kind: 2, above: 7, left: 7 },
];

#[rattlefmt::skip]
static WITHOUT_Y2: [Place; 24] = [
    // luma
    Place { index: 0, kind: 3, above: 0, left: 0 },
    Place { index: 1, kind: 3, above: 1, left: 0 },
    Place { index: 2, kind: 3, above: 2, left: 0 },
    Place { index: 3, kind: 3, above: 3, left: 0 },
    Place { index: 4, kind: 3, above: 0, left: 1 },
    Place { index: 5, kind: 3, above: 1, left: 1 },
    Place { index: 6, kind: 3, above: 2, left: 1 },
    Place { index: 7, kind: 3, above: 3, left: 1 },
    Place { index: 8, kind: 3, above: 0, left: 2 },
    Place { index: 9, kind: 3, above: 1, left: 2 },
    Place { index: 10, kind: 3, above: 2, left: 2 },
    Place { index: 11, kind: 3, above: 3, left: 2 },
    Place { index: 12, kind: 3, above: 0, left: 3 },
    Place { index: 13, kind: 3, above: 1, left: 3 },
    Place { index: 14, kind: 3, above: 2, left: 3 },
    Place { index: 15, kind: 3, above: 3, left: 3 },
    // U
    Place { index: 16, kind: 2, above: 4, left: 4 },
    Place { index: 17, kind: 2, above: 5, left: 4 },
    Place { index: 18, kind: 2, above: 4, left: 5 },
    Place { index: 19, kind: 2, above: 5, left: 5 },
    // V
    Place { index: 20, kind: 2, above: 6, left: 6 },
    Place { index: 21, kind: 2, above: 7, left: 6 },
    Place { index: 22, kind: 2, above: 6, left: 7 },
    Place { index: 23, kind: 2, above: 7, left: 7 },
];

// The blocks of a macroblock in the order of their bits: Y2 where there is one, luma, U and V.
pub(crate) fn places(has_y2: bool) -> &'static [Place]
    ensures places { result.now ≡ places has_y2 }
    ensures fit { IsTrue (are_places result.now) }
{
    if has_y2 { &WITH_Y2 } else { &WITHOUT_Y2 }
}
