//! Encoding of a frame: from a plan, which is all that the frame is to say, to its bytes.
#![tactic(auto)]

mod coefficients;
mod first;
mod frame;
mod head;
mod laws;
mod picture;
mod plan;
mod quantised;
mod source;
mod tokens;

pub use frame::assemble;
pub use laws::{a_frame_has_few_bytes, a_plan_is_decoded_as_its_record};
pub use plan::{Levels, Modes, Plan};
