//! Why a script isn't read.

/// Why there is no script.
#[derive(Clone, Copy, Debug, PartialEq, Eq)]
pub enum ScriptFault {
    /// The line of this number, from 1, is the first that isn't in the grammar.
    Bad(u32),
    /// The source failed.
    ReadFault,
    /// There is no memory.
    Memory,
}
