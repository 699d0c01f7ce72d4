//! Probabilities of modes (RFC 6386, sections 11.2, 16.2 and 16.3).

ghost use Rattle.std.specs.Prelude.{◌≡◌, IsTrue, length};
ghost use Rattle.sal_tables.specs.Shape.{in_range};
ghost use Rattle.sal_tables.specs.Tables.{key_y_probabilities_of, inter_y_probabilities_of, key_chroma_probabilities_of, inter_chroma_probabilities_of, inter_subblock_probabilities_of, split_probabilities_of, vector_mode_probabilities_of, sub_vector_probabilities_of};

#[rattlefmt::skip]
static KEY_Y_PROBABILITIES: [u8; 4] = [
    145, 156, 163, 128,
];

/// Probabilities of the Y mode in a key frame.
#[tactic(auto, unfolding(crate::specs::Tables::key_y_probabilities_of))]
pub fn key_y_probabilities() -> &'static [u8; 4]
    ensures digits { result.now ≡ key_y_probabilities_of }
    ensures length { length result.now ≡ 4 }
    ensures range { IsTrue (in_range 1 255 result.now) }
{
    &KEY_Y_PROBABILITIES
}

#[rattlefmt::skip]
static INTER_Y_PROBABILITIES: [u8; 4] = [
    112, 86, 140, 37,
];

/// Default probabilities of the Y mode in an inter frame.
#[tactic(auto, unfolding(crate::specs::Tables::inter_y_probabilities_of))]
pub fn inter_y_probabilities() -> &'static [u8; 4]
    ensures digits { result.now ≡ inter_y_probabilities_of }
    ensures length { length result.now ≡ 4 }
    ensures range { IsTrue (in_range 1 255 result.now) }
{
    &INTER_Y_PROBABILITIES
}

#[rattlefmt::skip]
static KEY_CHROMA_PROBABILITIES: [u8; 3] = [
    142, 114, 183,
];

/// Probabilities of the chroma mode in a key frame.
#[tactic(auto, unfolding(crate::specs::Tables::key_chroma_probabilities_of))]
pub fn key_chroma_probabilities() -> &'static [u8; 3]
    ensures digits { result.now ≡ key_chroma_probabilities_of }
    ensures length { length result.now ≡ 3 }
    ensures range { IsTrue (in_range 1 255 result.now) }
{
    &KEY_CHROMA_PROBABILITIES
}

#[rattlefmt::skip]
static INTER_CHROMA_PROBABILITIES: [u8; 3] = [
    162, 101, 204,
];

/// Default probabilities of the chroma mode in an inter frame.
#[tactic(auto, unfolding(crate::specs::Tables::inter_chroma_probabilities_of))]
pub fn inter_chroma_probabilities() -> &'static [u8; 3]
    ensures digits { result.now ≡ inter_chroma_probabilities_of }
    ensures length { length result.now ≡ 3 }
    ensures range { IsTrue (in_range 1 255 result.now) }
{
    &INTER_CHROMA_PROBABILITIES
}

#[rattlefmt::skip]
static INTER_SUBBLOCK_PROBABILITIES: [u8; 9] = [
    120, 90, 79, 133, 87, 85, 80, 111, 151,
];

/// Probabilities of a subblock mode in an inter frame.
#[tactic(auto, unfolding(crate::specs::Tables::inter_subblock_probabilities_of))]
pub fn inter_subblock_probabilities() -> &'static [u8; 9]
    ensures digits { result.now ≡ inter_subblock_probabilities_of }
    ensures length { length result.now ≡ 9 }
    ensures range { IsTrue (in_range 1 255 result.now) }
{
    &INTER_SUBBLOCK_PROBABILITIES
}

#[rattlefmt::skip]
static SPLIT_PROBABILITIES: [u8; 3] = [
    110, 111, 150,
];

/// Probabilities of a macroblock's partition into vectors.
#[tactic(auto, unfolding(crate::specs::Tables::split_probabilities_of))]
pub fn split_probabilities() -> &'static [u8; 3]
    ensures digits { result.now ≡ split_probabilities_of }
    ensures length { length result.now ≡ 3 }
    ensures range { IsTrue (in_range 1 255 result.now) }
{
    &SPLIT_PROBABILITIES
}

#[rattlefmt::skip]
static VECTOR_MODE_PROBABILITIES: [[u8; 4]; 6] = [
    [7, 1, 1, 143],
    [14, 18, 14, 107],
    [135, 64, 57, 68],
    [60, 56, 128, 65],
    [159, 134, 128, 34],
    [234, 188, 128, 28],
];

/// Probabilities of the vector mode, by count of near vectors and place (16.3).
#[tactic(auto, unfolding(crate::specs::Tables::vector_mode_probabilities_of))]
pub fn vector_mode_probabilities() -> &'static [[u8; 4]; 6]
    ensures digits { result.now ≡ vector_mode_probabilities_of }
{
    &VECTOR_MODE_PROBABILITIES
}

#[rattlefmt::skip]
static SUB_VECTOR_PROBABILITIES: [[u8; 3]; 5] = [
    [147, 136, 18],
    [106, 145, 1],
    [179, 121, 1],
    [223, 1, 34],
    [208, 1, 1],
];

/// Probabilities of a sub-vector's mode, by context and place (16.3).
#[tactic(auto, unfolding(crate::specs::Tables::sub_vector_probabilities_of))]
pub fn sub_vector_probabilities() -> &'static [[u8; 3]; 5]
    ensures digits { result.now ≡ sub_vector_probabilities_of }
{
    &SUB_VECTOR_PROBABILITIES
}
