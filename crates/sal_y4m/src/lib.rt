//! Raw pictures, read and written as YUV4MPEG2.
#![tactic(auto)]

mod fault;
mod head;
mod line;
mod parameters;
mod parts;
mod reader;
mod values;
mod writer;

pub use fault::{Why, WriteFault, Y4mFault};
pub use head::Head;
pub use reader::Reader;
pub use writer::Writer;

#[cfg(test)]
mod tests;
