//! Inter prediction of blocks by vectors into a reference (RFC 6386, section 18). None takes memory.
#![tactic(auto)]

ghost use Rattle.std.specs.Prelude.{◌≡◌, pos, map, replicate};
ghost use Rattle.sal_tables.specs.Tables.{six_taps_of};
ghost use Rattle.sal_inter.specs.Inter.{gain};

mod block;
mod filter;
mod gather;
mod interpolate;
mod rows;
mod span;
mod taps;

pub use block::predict_block;

#[cfg(test)]
mod tests;

/// The taps of each of the eight filters sum to 128, so that where all samples are alike they stay as they are.
pub fn filters_keep_the_level()
    ensures { map gain six_taps_of ≡ replicate 8 (pos 128) }
{}
