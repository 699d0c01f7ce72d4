//! The boolean entropy coder: bits at their probabilities, read from bytes and written to them (RFC 6386, section 7).
#![tactic(auto)]

mod carry;
mod decoder;
mod encoder;
mod range;
mod sizes;
mod tree;

pub use decoder::Decoder;
pub use encoder::Encoder;
pub use sizes::written_in_few_bytes;

#[cfg(test)]
mod tests;
