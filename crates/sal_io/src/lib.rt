//! The outside: sources, sinks and shelves of named bytes, in memory and over std.
#![tactic(auto)]

mod answers;
mod contents;
mod host;
mod ledger;
mod line;
mod mem_file;
mod mem_shelf;
mod mem_sink;
mod mem_source;
mod std_shelf;
mod traits;
mod whole;

pub use answers::{ShelfFault, Took, Wrote};
pub use contents::{Contents, read_all};
pub use host::Host;
pub use ledger::{Ledger, Shut};
pub use line::{LineRead, read_line};
pub use mem_file::MemFile;
pub use mem_shelf::MemShelf;
pub use mem_sink::MemSink;
pub use mem_source::MemSource;
pub use std_shelf::{StdShelf, StdSink, StdSource};
pub use traits::{Shelf, Sink, Source};
pub use whole::{Filled, Put, fill, put_all, put_parts};

#[cfg(test)]
mod tests;
