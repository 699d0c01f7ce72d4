//! The trees of the bitstream (RFC 6386, section 8.1).

ghost use Rattle.std.specs.Prelude.{◌≡◌, ◌*◌, IsTrue, length};
ghost use Rattle.sal_tables.specs.Shape.{is_tree, leaves_below};
ghost use Rattle.sal_tables.specs.Trees.{segment_entries, key_y_entries, inter_y_entries, chroma_entries, subblock_entries, vector_mode_entries, split_entries, sub_vector_entries, short_vector_entries, token_entries};

/// A leaf, or the index of a next pair.
#[derive(Clone, Copy, Debug, PartialEq, Eq)]
pub enum Entry {
    Leaf(u8),
    Pair(u8),
}

/// A tree as pairs of entries, the first pair being its root. The pair at index i uses probability i / 2, and its second entry is taken after a bit 1.
#[derive(Clone, Copy)]
pub struct Tree {
    pub entries: &'static [Entry],
}

use Entry::{Leaf, Pair};

#[rattlefmt::skip]
static SEGMENT: Tree = Tree {
    entries: &[
        Pair(2), Pair(4),
        Leaf(0), Leaf(1),
        Leaf(2), Leaf(3),
    ],
};

/// A macroblock's segment (10).
/// Its leaves, from 0: S0, S1, S2, S3.
#[tactic(auto, unfolding(crate::specs::Trees::segment_entries))]
pub fn segment_tree() -> &'static Tree
    ensures digits { result.now.entries.now ≡ segment_entries }
    ensures tree { IsTrue (is_tree result.now.entries.now) }
    ensures nodes { length result.now.entries.now ≡ 2 * 3 }
    ensures leaves { IsTrue (leaves_below 4 result.now.entries.now) }
{
    &SEGMENT
}

#[rattlefmt::skip]
static KEY_Y: Tree = Tree {
    entries: &[
        Leaf(4), Pair(2),
        Pair(4), Pair(6),
        Leaf(0), Leaf(1),
        Leaf(2), Leaf(3),
    ],
};

/// The Y mode of a key frame (11.2).
/// Its leaves, from 0: DC, V, H, TM, B.
#[tactic(auto, unfolding(crate::specs::Trees::key_y_entries))]
pub fn key_y_tree() -> &'static Tree
    ensures digits { result.now.entries.now ≡ key_y_entries }
    ensures tree { IsTrue (is_tree result.now.entries.now) }
    ensures nodes { length result.now.entries.now ≡ 2 * 4 }
    ensures leaves { IsTrue (leaves_below 5 result.now.entries.now) }
{
    &KEY_Y
}

#[rattlefmt::skip]
static INTER_Y: Tree = Tree {
    entries: &[
        Leaf(0), Pair(2),
        Pair(4), Pair(6),
        Leaf(1), Leaf(2),
        Leaf(3), Leaf(4),
    ],
};

/// The Y mode of an intra macroblock in an inter frame (16.2).
/// Its leaves, from 0: DC, V, H, TM, B.
#[tactic(auto, unfolding(crate::specs::Trees::inter_y_entries))]
pub fn inter_y_tree() -> &'static Tree
    ensures digits { result.now.entries.now ≡ inter_y_entries }
    ensures tree { IsTrue (is_tree result.now.entries.now) }
    ensures nodes { length result.now.entries.now ≡ 2 * 4 }
    ensures leaves { IsTrue (leaves_below 5 result.now.entries.now) }
{
    &INTER_Y
}

#[rattlefmt::skip]
static CHROMA: Tree = Tree {
    entries: &[
        Leaf(0), Pair(2),
        Leaf(1), Pair(4),
        Leaf(2), Leaf(3),
    ],
};

/// The chroma mode (11.2).
/// Its leaves, from 0: DC, V, H, TM.
#[tactic(auto, unfolding(crate::specs::Trees::chroma_entries))]
pub fn chroma_tree() -> &'static Tree
    ensures digits { result.now.entries.now ≡ chroma_entries }
    ensures tree { IsTrue (is_tree result.now.entries.now) }
    ensures nodes { length result.now.entries.now ≡ 2 * 3 }
    ensures leaves { IsTrue (leaves_below 4 result.now.entries.now) }
{
    &CHROMA
}

#[rattlefmt::skip]
static SUBBLOCK: Tree = Tree {
    entries: &[
        Leaf(0), Pair(2),
        Leaf(1), Pair(4),
        Leaf(2), Pair(6),
        Pair(8), Pair(12),
        Leaf(3), Pair(10),
        Leaf(5), Leaf(6),
        Leaf(4), Pair(14),
        Leaf(7), Pair(16),
        Leaf(8), Leaf(9),
    ],
};

/// A subblock's mode (11.2).
/// Its leaves, from 0: bDC, bTM, bVE, bHE, bLD, bRD, bVR, bVL, bHD, bHU.
#[tactic(auto, unfolding(crate::specs::Trees::subblock_entries))]
pub fn subblock_tree() -> &'static Tree
    ensures digits { result.now.entries.now ≡ subblock_entries }
    ensures tree { IsTrue (is_tree result.now.entries.now) }
    ensures nodes { length result.now.entries.now ≡ 2 * 9 }
    ensures leaves { IsTrue (leaves_below 10 result.now.entries.now) }
{
    &SUBBLOCK
}

#[rattlefmt::skip]
static VECTOR_MODE: Tree = Tree {
    entries: &[
        Leaf(0), Pair(2),
        Leaf(1), Pair(4),
        Leaf(2), Pair(6),
        Leaf(3), Leaf(4),
    ],
};

/// The vector mode of an inter macroblock (16.3).
/// Its leaves, from 0: ZERO, NEAREST, NEAR, NEW, SPLIT.
#[tactic(auto, unfolding(crate::specs::Trees::vector_mode_entries))]
pub fn vector_mode_tree() -> &'static Tree
    ensures digits { result.now.entries.now ≡ vector_mode_entries }
    ensures tree { IsTrue (is_tree result.now.entries.now) }
    ensures nodes { length result.now.entries.now ≡ 2 * 4 }
    ensures leaves { IsTrue (leaves_below 5 result.now.entries.now) }
{
    &VECTOR_MODE
}

#[rattlefmt::skip]
static SPLIT: Tree = Tree {
    entries: &[
        Leaf(3), Pair(2),
        Leaf(2), Pair(4),
        Leaf(0), Leaf(1),
    ],
};

/// The partition of a macroblock into vectors (16.3).
/// Its leaves, from 0: TOPBOTTOM, LEFTRIGHT, QUARTERS, SIXTEENTHS.
#[tactic(auto, unfolding(crate::specs::Trees::split_entries))]
pub fn split_tree() -> &'static Tree
    ensures digits { result.now.entries.now ≡ split_entries }
    ensures tree { IsTrue (is_tree result.now.entries.now) }
    ensures nodes { length result.now.entries.now ≡ 2 * 3 }
    ensures leaves { IsTrue (leaves_below 4 result.now.entries.now) }
{
    &SPLIT
}

#[rattlefmt::skip]
static SUB_VECTOR: Tree = Tree {
    entries: &[
        Leaf(0), Pair(2),
        Leaf(1), Pair(4),
        Leaf(2), Leaf(3),
    ],
};

/// The mode of one of its vectors (16.3).
/// Its leaves, from 0: LEFT, ABOVE, ZERO, NEW.
#[tactic(auto, unfolding(crate::specs::Trees::sub_vector_entries))]
pub fn sub_vector_tree() -> &'static Tree
    ensures digits { result.now.entries.now ≡ sub_vector_entries }
    ensures tree { IsTrue (is_tree result.now.entries.now) }
    ensures nodes { length result.now.entries.now ≡ 2 * 3 }
    ensures leaves { IsTrue (leaves_below 4 result.now.entries.now) }
{
    &SUB_VECTOR
}

#[rattlefmt::skip]
static SHORT_VECTOR: Tree = Tree {
    entries: &[
        Pair(2), Pair(8),
        Pair(4), Pair(6),
        Leaf(0), Leaf(1),
        Leaf(2), Leaf(3),
        Pair(10), Pair(12),
        Leaf(4), Leaf(5),
        Leaf(6), Leaf(7),
    ],
};

/// A vector's component below 8 (17.2).
/// Its leaves are the sizes from 0 to 7.
#[tactic(auto, unfolding(crate::specs::Trees::short_vector_entries))]
pub fn short_vector_tree() -> &'static Tree
    ensures digits { result.now.entries.now ≡ short_vector_entries }
    ensures tree { IsTrue (is_tree result.now.entries.now) }
    ensures nodes { length result.now.entries.now ≡ 2 * 7 }
    ensures leaves { IsTrue (leaves_below 8 result.now.entries.now) }
{
    &SHORT_VECTOR
}

#[rattlefmt::skip]
static TOKEN: Tree = Tree {
    entries: &[
        Leaf(0), Pair(2),
        Leaf(1), Pair(4),
        Leaf(2), Pair(6),
        Pair(8), Pair(12),
        Leaf(3), Pair(10),
        Leaf(4), Leaf(5),
        Pair(14), Pair(16),
        Leaf(6), Leaf(7),
        Pair(18), Pair(20),
        Leaf(8), Leaf(9),
        Leaf(10), Leaf(11),
    ],
};

/// A token of a block (13.2).
/// Its leaves, from 0: end of block, the levels 0 to 4, the categories 1 to 6 (RFC 6386, section 13.2).
#[tactic(auto, unfolding(crate::specs::Trees::token_entries))]
pub fn token_tree() -> &'static Tree
    ensures digits { result.now.entries.now ≡ token_entries }
    ensures tree { IsTrue (is_tree result.now.entries.now) }
    ensures nodes { length result.now.entries.now ≡ 2 * 11 }
    ensures leaves { IsTrue (leaves_below 12 result.now.entries.now) }
{
    &TOKEN
}
