//! The way to each token's leaf in the tree of tokens (RFC 6386, section 13.2).

ghost use Rattle.std.specs.Prelude.{◌≡◌, ◌<◌, ℕ, [], Some, slice_index_or, length, IsTrue};
ghost use Rattle.sal_tokens.specs.Written.{ways, placed, token_branches, are_small};

/// A probability passed, by its place among the eleven, and the bit there.
pub(crate) type Step = (u8, bool);

static END: [Step; 1] = [(0, false)];

static ZERO: [Step; 2] = [(0, true), (1, false)];

static ONE: [Step; 3] = [(0, true), (1, true), (2, false)];

static TWO: [Step; 5] = [(0, true), (1, true), (2, true), (3, false), (4, false)];

static THREE: [Step; 6] = [
    (0, true),
    (1, true),
    (2, true),
    (3, false),
    (4, true),
    (5, false),
];

static FOUR: [Step; 6] = [
    (0, true),
    (1, true),
    (2, true),
    (3, false),
    (4, true),
    (5, true),
];

static CATEGORY_1: [Step; 6] = [
    (0, true),
    (1, true),
    (2, true),
    (3, true),
    (6, false),
    (7, false),
];

static CATEGORY_2: [Step; 6] = [
    (0, true),
    (1, true),
    (2, true),
    (3, true),
    (6, false),
    (7, true),
];

static CATEGORY_3: [Step; 7] = [
    (0, true),
    (1, true),
    (2, true),
    (3, true),
    (6, true),
    (8, false),
    (9, false),
];

static CATEGORY_4: [Step; 7] = [
    (0, true),
    (1, true),
    (2, true),
    (3, true),
    (6, true),
    (8, false),
    (9, true),
];

static CATEGORY_5: [Step; 7] = [
    (0, true),
    (1, true),
    (2, true),
    (3, true),
    (6, true),
    (8, true),
    (10, false),
];

static CATEGORY_6: [Step; 7] = [
    (0, true),
    (1, true),
    (2, true),
    (3, true),
    (6, true),
    (8, true),
    (10, true),
];

// The way to a token's leaf from the root.
#[tactic(auto, unfolding(crate::specs::Written::ways))]
fn way_of(token: u8) -> &'static [Step]
    requires { token < 12 }
    ensures way { result.now ≡ slice_index_or ways token [] }
    ensures some { 0 < length result.now }
{
    match token {
        0 => &END,
        1 => &ZERO,
        2 => &ONE,
        3 => &TWO,
        4 => &THREE,
        5 => &FOUR,
        6 => &CATEGORY_1,
        7 => &CATEGORY_2,
        8 => &CATEGORY_3,
        9 => &CATEGORY_4,
        10 => &CATEGORY_5,
        _ => &CATEGORY_6,
    }
}

// The way to a token's leaf. After a zero it begins behind the test of the end.
pub(crate) fn way_after(after_zero: bool, token: u8) -> &'static [Step]
    requires { token < 12 }
    ensures way { (row : ℕ) → placed row (Some result.now) ≡ token_branches row after_zero token }
    ensures small { IsTrue (are_small result.now) }
{
    let way = way_of(token);
    if after_zero { &way[1..] } else { way }
}
