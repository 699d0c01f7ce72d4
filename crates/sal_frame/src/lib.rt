//! What decoding and encoding of a frame have in common: the record of all that its bits say, and the samples, the state
//! and the picture that follow from it.
#![tactic(auto)]

mod adding;
mod after;
mod building;
mod cropping;
mod decoded;
mod empty;
mod heads;
mod inter;
mod intra;
mod macroblock;
mod next;
mod raster;
mod residues;
mod segment_map;
mod segments;
mod square;
mod subs;

pub use after::refreshes;
pub use building::build;
pub use cropping::crop;
pub use decoded::finish;
pub use empty::{blanks, blocks_of};
pub use heads::{filter_head, info_of};
pub use macroblock::Macroblock;
pub use next::next_state;
pub use raster::{one_macroblock_more, sizes_stay};
pub use segment_map::map_after;
pub use segments::frame_factors;

#[cfg(test)]
mod tests;
