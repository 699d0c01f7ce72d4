//! What the bits say of one macroblock: its modes and vectors, and the coefficients of its blocks.
#![tactic(auto)]

mod block;
mod coefficients;
mod mode;

pub use block::Block;
pub use coefficients::Coefficients;
pub use mode::{MbMode, RefKind};

#[cfg(test)]
mod tests;
