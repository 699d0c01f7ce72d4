//! The words after `salsify`: which command they ask for, with its names and numbers (docs/FORMATS.md, "Words").
#![tactic(auto)]

mod address;
mod command;
mod number;
mod reading;
mod said;
mod verb;

pub use address::Address;
pub use command::{Command, WordsFault};
pub use reading::read_words;

#[cfg(test)]
mod tests;
