//! Intra prediction of blocks from the samples around them (RFC 6386, section 12). None takes memory.
#![tactic(auto)]

mod edge;
mod edges;
mod sub;
mod whole;

pub use edge::{ChromaEdge, LumaEdge, SubEdge};
pub use edges::{chroma_edge, luma_edge, sub_edge};
pub use sub::predict_sub;
pub use whole::{predict_chroma, predict_luma};

#[cfg(test)]
mod tests;
