//! The top call.
#![tactic(auto)]

mod app;
mod looping;
mod stop;

pub use app::{salsify, salsify_alone};
pub use looping::run_loop;
pub use sal_status::{Named, Shows, Status};
pub use stop::Stop;

#[cfg(test)]
mod tests;
