//! The choice of an intra macroblock's modes by least cost. None takes memory.
#![tactic(auto)]

mod intra;
mod laws;
mod sad;
mod source;
mod sub;
mod subblocks;
mod whole;

pub use intra::{IntraChoice, best_intra, choose_intra};
pub use laws::first_least_is_first;
pub use source::{Found, MbSource};
pub use subblocks::Subblocks;
pub use whole::best_chroma;

#[cfg(test)]
mod tests;
