//! How the program ends: its status, the number of it, and the text that is printed.
#![tactic(auto)]

mod status;
mod text;

pub use status::{Named, Shows, Status};
pub use text::show;

#[cfg(test)]
mod tests;
