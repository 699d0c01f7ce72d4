//! All of the outside that a run is given.

/// The outside: files by their names, and what is printed.
#[derive(Drop)]
pub struct Host<F, K> {
    /// A shelf.
    pub files: F,
    /// The sink of what is printed.
    pub screen: K,
}
