//! Scripts: what a run does, line by line.
#![tactic(auto)]

mod fault;
mod grammar;
mod line;
mod numbered;
mod reading;

pub use fault::ScriptFault;
pub use line::ScriptLine;
pub use numbered::Script;
pub use reading::read_script;

#[cfg(test)]
mod tests;
