//! How much may be sent: the moving average of the gaps between arrivals, and the budget of a choice.
#![tactic(auto)]

mod flight;
mod gap;
mod least;

pub use flight::{Flight, MAX_IN_FLIGHT, QUEUE, SILENCE, budget};
pub use gap::{AVERAGE_PARTS, FIRST_AVERAGE, Gap, MAX_AVERAGE};
pub use least::{LEAST_WINDOW, MACROBLOCK, MACROBLOCKS_EACH};

#[cfg(test)]
mod tests;
