//! Why a journal isn't read.

/// Why there is no journal.
#[derive(Clone, Copy, Debug, PartialEq, Eq)]
pub enum JournalFault {
    /// The line of this number, from 1, is the first that isn't in the grammar or comes behind the end; where there is none
    /// and the end is missing, the number is one more than there are lines.
    Bad(u32),
    /// The source failed.
    ReadFault,
    /// It has more than 1,073,741,824 bytes.
    TooLong,
    /// There is no memory.
    Memory,
}
