//! A state under its frame number and its name.

use sal_base::Name;

/// A state, or a share of one, under its frame number and its name.
#[derive(Drop)]
pub struct StoredState<T> {
    /// The frame number, 1 to 1,048,575.
    pub number: u32,
    /// The state's name.
    pub name: Name,
    /// The state, or a share of it.
    pub state: T,
}
