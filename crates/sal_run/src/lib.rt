//! The run of a script over a clip: both ends of a session in one world.
#![tactic(auto)]

mod counted;
mod end;
mod events;
mod input;
mod laws;
mod named;
mod play;
mod run;
mod script;
mod stage;
mod stop;
#[cfg(test)]
mod tests;

pub use end::{RunEnd, Summary, Which};
pub use laws::every_run_keeps_its_promises;
pub use run::run_alone;
