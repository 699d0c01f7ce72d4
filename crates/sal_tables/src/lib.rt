//! The tables and trees of the bitstream. Every function lends one of them; none takes memory.
#![tactic(auto)]

mod coefficients;
mod modes;
mod steps;
mod subblocks;
mod taps;
mod tokens;
mod tree;
mod vectors;

pub use coefficients::{default_coefficients, update_coefficients};
pub use modes::{
    inter_chroma_probabilities, inter_subblock_probabilities, inter_y_probabilities,
    key_chroma_probabilities, key_y_probabilities, split_probabilities, sub_vector_probabilities,
    vector_mode_probabilities,
};
pub use steps::{ac_steps, dc_steps};
pub use subblocks::subblock_probabilities;
pub use taps::six_taps;
pub use tokens::{bands, category_bases, category_bits, zigzag};
pub use tree::{
    Entry, Tree, chroma_tree, inter_y_tree, key_y_tree, segment_tree, short_vector_tree,
    split_tree, sub_vector_tree, subblock_tree, token_tree, vector_mode_tree,
};
pub use vectors::{default_vectors, update_vectors};

#[cfg(test)]
mod tests;
