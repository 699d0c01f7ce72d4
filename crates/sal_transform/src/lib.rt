//! Residues out of coefficients: dequantisation and the two inverse transforms (RFC 6386, section 14); and, for the encoder, coefficients
//! out of residues: the two forward transforms and the quantiser. None takes memory.
#![tactic(auto)]

mod dct;
mod factors;
mod forward_dct;
mod forward_wht;
mod quantise;
mod quantiser;
mod residue;
mod wht;

pub use dct::inverse;
pub use factors::{Factors, cut_off};
pub use forward_dct::forward;
pub use forward_wht::forward_y2;
pub use quantise::quant;
pub use quantiser::{dequant, dequantise};
pub use residue::{block_residue, chroma_residues, luma_residues};
pub use wht::inverse_y2;

#[cfg(test)]
mod tests;
