//! Both ends in one world, in which any datagram may come any number of times, in any order, or never.
#![tactic(auto)]

mod diary;
mod event;
mod laws;
mod lines;
mod world;

pub use diary::{CallKind, Diary, DiaryFault, Entry, Line, NoDiary, ReportSize};
pub use event::{Answer, ChooseAnswer, Event, Unsent};
pub use laws::{
    a_script_keeps_every_promise, a_script_leaves_nothing_ready, each_event_keeps_the_invariant,
    keeps_every_promise, keeps_its_promises, sends_in_every_world,
};
pub use lines::{
    choice_line, decoded_line, down_line, ready_line, size_of_report, start_line, take_line,
    up_line,
};
pub use world::{World, rate_fits};

#[cfg(test)]
mod tests;
