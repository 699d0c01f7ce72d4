//! States by frame number and name: what a sender keeps of its chain, and a receiver of what it decoded.
#![tactic(auto)]

mod store;
mod stored_state;
mod stored_states;

pub use store::Store;

#[cfg(test)]
mod tests;
