//! Probabilities of vectors (RFC 6386, section 17.2): 19 of the row, then 19 of the column.

ghost use Rattle.std.specs.Prelude.{◌≡◌, IsTrue, length};
ghost use Rattle.sal_tables.specs.Shape.{in_range};
ghost use Rattle.sal_tables.specs.Tables.{default_vectors_of, update_vectors_of};

#[rattlefmt::skip]
static DEFAULT_VECTORS: [u8; 38] = [
    // row
    162, 128, 225, 146, 172, 147, 214, 39, 156, 128, 129, 132, 75, 145, 178, 206, 239, 254, 254,
    // column
    164, 128, 204, 170, 119, 235, 140, 230, 228, 128, 130, 130, 74, 148, 180, 203, 236, 254, 254,
];

/// The vector probabilities that a key frame begins with, rows first.
#[tactic(auto, unfolding(crate::specs::Tables::default_vectors_of))]
pub fn default_vectors() -> &'static [u8; 38]
    ensures digits { result.now ≡ default_vectors_of }
    ensures length { length result.now ≡ 38 }
    ensures range { IsTrue (in_range 1 255 result.now) }
{
    &DEFAULT_VECTORS
}

#[rattlefmt::skip]
static UPDATE_VECTORS: [u8; 38] = [
    // row
    237, 246, 253, 253, 254, 254, 254, 254, 254, 254, 254, 254, 254, 254, 250, 250, 252, 254, 254,
    // column
    231, 243, 245, 253, 254, 254, 254, 254, 254, 254, 254, 254, 254, 254, 251, 251, 254, 254, 254,
];

/// The probability that each vector probability is updated, rows first.
#[tactic(auto, unfolding(crate::specs::Tables::update_vectors_of))]
pub fn update_vectors() -> &'static [u8; 38]
    ensures digits { result.now ≡ update_vectors_of }
    ensures length { length result.now ≡ 38 }
    ensures range { IsTrue (in_range 1 255 result.now) }
{
    &UPDATE_VECTORS
}
