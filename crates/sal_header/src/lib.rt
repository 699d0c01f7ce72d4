//! The frame tag, the header and the places of the partitions (RFC 6386, sections 9 and 19).
#![tactic(auto)]

mod fields;
mod header;
mod parts;
mod places;
mod put;
mod read;
mod sizes;
mod tag;
mod write;

pub use header::{Header, Kept};
pub use places::{Parts, partitions};
pub use read::read_header;
pub use sizes::header_in_few_bits;
pub use tag::{Tag, first_part, read_tag};
pub use write::write_header;

#[cfg(test)]
mod tests;
