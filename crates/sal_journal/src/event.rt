//! What happened, as a journal of both ends says it.

use sal_sender::{JobRole, Size};
use sal_world::ReportSize;

/// What a line between the head and the end of a journal says. Pictures, numbers of choices, ids of jobs, datagrams and
/// acknowledgements are counted from 1.
#[derive(Clone, Copy, Debug, PartialEq, Eq)]
pub enum JournalEvent {
    /// It is this moment, in microseconds.
    Moment(u64),
    /// The picture of this number is started.
    Next(u32),
    /// The job of this id is handed out, which has this role.
    Take(u32, JobRole),
    /// The job of this id is reported: how large its frame is, and whether the report is late, that is, after the choice.
    Report(u32, ReportSize, bool),
    /// This number is chosen, made by the job of this id from this source (0 for the initial state), in so many datagrams.
    Choose(u32, u32, u32, u32),
    /// Nothing is chosen: how many datagrams may be sent, and the sizes of the one or two candidates, none of which fits.
    Nothing(u32, Size, Option<Size>),
    /// The datagram of this number is taken.
    Down(u32),
    /// The acknowledgement of this number comes back, and whether it is heard; it is old where it isn't.
    Up(u64, bool),
    /// The frame of this number is handed out.
    Ready(u32),
    /// The frame of this number is decoded, and whether it is shown; a number at least as great was shown before where it
    /// isn't.
    Decoded(u32, bool),
}
