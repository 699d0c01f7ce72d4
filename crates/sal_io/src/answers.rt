//! What the outside answers.

/// What a read took.
#[derive(Clone, Copy, Debug, PartialEq, Eq)]
pub enum Took {
    /// So many bytes, at least one, at the front of the buffer.
    Got(usize),
    /// Nothing is left.
    End,
    /// The source failed; nothing was taken.
    Failed,
}

/// What a write did.
#[derive(Clone, Copy, Debug, PartialEq, Eq)]
pub enum Wrote {
    /// So many bytes, at least one, were appended.
    Wrote(usize),
    /// The sink failed; nothing was appended.
    Failed,
}

/// Why a shelf didn't open.
#[derive(Clone, Copy, Debug, PartialEq, Eq)]
pub enum ShelfFault {
    /// The shelf failed.
    Failed,
    /// There is no memory.
    Memory,
}
