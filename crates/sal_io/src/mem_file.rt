//! Bytes under a name.

use sal_base::Bytes;

/// The bytes under a name, and which calls on what is opened under it fail.
#[derive(Drop)]
pub struct MemFile {
    pub name: Bytes,
    pub bytes: Bytes,
    /// The calls that fail, counted from 1.
    pub failing: Vec<u64>,
}
