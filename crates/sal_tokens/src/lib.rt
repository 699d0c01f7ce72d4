//! Tokens: the coefficients of a block and of all blocks of a macroblock, read from their bits, and written (RFC 6386, section 13).
#![tactic(auto)]

mod contexts;
mod counts;
mod macroblock;
mod places;
mod read;
mod sink;
mod sizes;
mod walk;
mod ways;
mod write;

pub use contexts::Contexts;
pub use counts::Counts;
pub use macroblock::{read_macroblock, skip_macroblock};
pub use read::read_block;
pub use sizes::coefficients_in_few_bits;
pub use write::{count_block, count_macroblock, write_block, write_macroblock};

#[cfg(test)]
mod tests;
