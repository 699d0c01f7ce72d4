//! Modes and vectors of macroblocks: what their bits mean, as what bits they are written, and the vectors that neighbours suggest (RFC 6386, sections 11, 16 and 17).
#![tactic(auto)]

mod around;
mod inter;
mod intra;
mod laws;
mod near;
mod neighbours;
mod put;
mod read;
mod row;
mod sizes;
mod split;
mod vectors;
mod ways;
mod write;
mod write_inter;
mod write_intra;
mod write_vectors;

pub use around::{Bias, Bounds, Near};
pub use laws::{near_vectors_are_neighbours, near_vectors_lie_in_bounds};
pub use near::near_vectors;
pub use read::read_mb;
pub use row::Row;
pub use sal_macroblock::{MbMode, RefKind};
pub use sizes::modes_in_few_bits;
pub use write::write_mb;

#[cfg(test)]
mod tests;
