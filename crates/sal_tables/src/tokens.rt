//! Positions and categories of tokens (RFC 6386, section 13).

ghost use Rattle.std.specs.Prelude.{◌≡◌, ◌<◌, ◌≤◌, [], IsTrue, length, slice_index_or};
ghost use Rattle.sal_tables.specs.Shape.{in_range};
ghost use Rattle.sal_tables.specs.Tables.{bands_of, zigzag_of, category_bases_of, category_bits_of};

#[rattlefmt::skip]
static BANDS: [u8; 16] = [
    0, 1, 2, 3, 6, 4, 5, 6, 6, 6, 6, 6, 6, 6, 6, 7,
];

/// The band of each position of a block (13.3).
#[tactic(auto, unfolding(crate::specs::Tables::bands_of))]
pub fn bands() -> &'static [u8; 16]
    ensures digits { result.now ≡ bands_of }
    ensures length { length result.now ≡ 16 }
    ensures range { IsTrue (in_range 0 7 result.now) }
{
    &BANDS
}

#[rattlefmt::skip]
static ZIGZAG: [u8; 16] = [
    0, 1, 4, 8, 5, 2, 3, 6, 9, 12, 13, 10, 7, 11, 14, 15,
];

/// The raster place of each position of a block (13).
#[tactic(auto, unfolding(crate::specs::Tables::zigzag_of))]
pub fn zigzag() -> &'static [u8; 16]
    ensures digits { result.now ≡ zigzag_of }
    ensures length { length result.now ≡ 16 }
    ensures range { IsTrue (in_range 0 15 result.now) }
{
    &ZIGZAG
}

#[rattlefmt::skip]
static CATEGORY_BASES: [u16; 6] = [
    5, 7, 11, 19, 35, 67,
];

/// The least level of each category of large levels (13.2).
#[tactic(auto, unfolding(crate::specs::Tables::category_bases_of))]
pub fn category_bases() -> &'static [u16; 6]
    ensures digits { result.now ≡ category_bases_of }
    ensures length { length result.now ≡ 6 }
    ensures range { IsTrue (in_range 5 67 result.now) }
{
    &CATEGORY_BASES
}

#[rattlefmt::skip]
static CATEGORY_1: [u8; 1] = [159];

#[rattlefmt::skip]
static CATEGORY_2: [u8; 2] = [165, 145];

#[rattlefmt::skip]
static CATEGORY_3: [u8; 3] = [173, 148, 140];

#[rattlefmt::skip]
static CATEGORY_4: [u8; 4] = [176, 155, 140, 135];

#[rattlefmt::skip]
static CATEGORY_5: [u8; 5] = [180, 157, 141, 134, 130];

#[rattlefmt::skip]
static CATEGORY_6: [u8; 11] = [254, 254, 243, 230, 196, 177, 153, 140, 133, 130, 129];

/// The probabilities of a category's extra bits, highest first (13.2). Categories are numbered from 0.
#[tactic(auto, unfolding(crate::specs::Tables::category_bits_of))]
pub fn category_bits(category: usize) -> &'static [u8]
    requires { category < 6 }
    ensures digits { result.now ≡ slice_index_or category_bits_of category [] }
    ensures few { length result.now ≤ 11 }
{
    match category {
        0 => &CATEGORY_1,
        1 => &CATEGORY_2,
        2 => &CATEGORY_3,
        3 => &CATEGORY_4,
        4 => &CATEGORY_5,
        _ => &CATEGORY_6,
    }
}
