//! Leaves of trees (RFC 6386, section 8.1).
ghost use Rattle.std.specs.Prelude.{◌≡◌, ◌+◌, ◌*◌, ◌<◌, ◌≤◌, length, IsTrue, ℕ, List};
ghost use Rattle.sal_tables.specs.Shape.{is_tree, leaves_below};
ghost use Rattle.sal_bool.specs.Bits.{Interval};
ghost use Rattle.sal_bool.specs.Reading.{StandsFor};
ghost use Rattle.sal_bool.specs.Syntax.{run, read, leaf, leaf_from};

use crate::decoder::Decoder;
use sal_tables::{Entry, Tree};

impl<'a> Decoder<'a> {
    /// The leaf that the bits lead to, each at the probability of its pair.
    pub fn tree(&mut self, tree: &Tree, probabilities: &[u8]) -> u8
        requires tree { IsTrue (is_tree tree.now.entries.now) }
        requires probabilities { length tree.now.entries.now ≤ 2 * length probabilities.now }
        ensures reads { run (leaf tree.now.entries.now probabilities.now) self.old ≡ (result, self.new) }
        ensures exact { (bytes : List ℕ) (i : Interval) → StandsFor bytes i self.old → (result ≡ (read bytes i (leaf tree.now.entries.now probabilities.now)).0) × StandsFor bytes (read bytes i (leaf tree.now.entries.now probabilities.now)).1 self.new }
        ensures small { (n : ℕ) → IsTrue (leaves_below n tree.now.entries.now) → result < n }
    {
        self.tree_from(tree, probabilities, 0)
    }

    /// The leaf that the bits lead to from the pair at this index.
    pub fn tree_from(&mut self, tree: &Tree, probabilities: &[u8], from: usize) -> u8
        requires tree { IsTrue (is_tree tree.now.entries.now) }
        requires probabilities { length tree.now.entries.now ≤ 2 * length probabilities.now }
        requires from { from + 1 < length tree.now.entries.now }
        ensures reads { run (leaf_from tree.now.entries.now probabilities.now from) self.old ≡ (result, self.new) }
        ensures exact { (bytes : List ℕ) (i : Interval) → StandsFor bytes i self.old → (result ≡ (read bytes i (leaf_from tree.now.entries.now probabilities.now from)).0) × StandsFor bytes (read bytes i (leaf_from tree.now.entries.now probabilities.now from)).1 self.new }
        ensures small { (n : ℕ) → IsTrue (leaves_below n tree.now.entries.now) → result < n }
    {
        let entries = tree.entries;
        let mut at = from;
        'walk: for _ in 0..entries.len() {
            let bit = self.bit(probabilities[at / 2]);
            match entries[at + bit as usize] {
                Entry::Leaf(leaf) => return leaf,
                Entry::Pair(next) => at = next as usize,
            }
        }
        0
    }
}
