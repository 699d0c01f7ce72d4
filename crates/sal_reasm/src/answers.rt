//! What is answered to a fragment that is offered.

use sal_base::Bytes;

/// How much a place counts in the values of a clash of names or data.
pub const CLASH_PLACE: u64 = 256;

/// Where a fragment differs from what is kept of its frame.
#[derive(Clone, Copy, Debug, PartialEq, Eq)]
pub enum ClashField {
    /// The name of the state that the frame is decoded from.
    Source,
    /// The name of the state that decoding gives.
    Target,
    /// How many fragments the frame has.
    Count,
    /// How many bytes the fragment with this index has.
    Length,
    /// The data of the fragment with this index.
    Data,
}

/// What is answered to a fragment that is offered: the first of these that holds.
#[derive(Drop)]
pub enum Offered {
    /// Its frame number is below the floor.
    Stale,
    /// It differs from what is kept of its frame: the first field that differs, then the kept and the new value. Of a
    /// count or a length the values are these; of a name or of data each is 256 times the place of the first difference,
    /// plus the byte there.
    Clash(ClashField, u64, u64),
    /// The fragment with this index is kept already.
    Repeat,
    /// The fragment with this index was the last one missing: the bytes of the frame.
    Complete(Bytes),
    /// The fragment is kept now, and others of its frame are missing.
    Kept,
}
