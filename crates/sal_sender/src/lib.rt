//! The sender: which state is encoded from, what is sent, and what is known to be held.
#![tactic(auto)]

mod ack_state;
mod answers;
mod choice;
mod job;
mod job_plan;
mod laws;
mod lists;
mod named_states;
mod open_picture;
mod outcome;
mod outgoing_frame;
mod outstanding;
mod prepared_frame;
mod report;
mod selection;
mod sender;
mod sent_frame;

pub use answers::{Chosen, HeardAck, Ignore, Next, Reported};
pub use choice::{Choice, JobRole, Size};
pub use job::Job;
pub use laws::{fits_its_budget, jobs_cross_threads, keeps_its_window, sends_as_one_thread};
pub use lists::{Burst, FrameNumbers, Sizes};
pub use outcome::{Gave, Outcome};
pub use report::Report;
pub use sender::Sender;

#[cfg(test)]
mod tests;
