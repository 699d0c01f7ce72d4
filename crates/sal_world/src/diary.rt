//! What is written down of a session, line by line.

ghost use Rattle.std.specs.Prelude.{◌≡◌, ◌≢◌, ℕ, Bool, true, false, List, [], Option, None, Err, IfErr, IfSome, is_some};
ghost use Rattle.sal_io.specs.Calls.{HasCause};

use sal_base::{Bytes, Name, Picture};
use sal_sender::{JobRole, Sizes};
use sal_y4m::Head;
use std::snapshot::Snapshot;

/// Why a line isn't written down.
#[derive(Clone, Copy, Debug, PartialEq, Eq)]
pub enum DiaryFault {
    /// What it is written to failed.
    Failed,
    /// The text would be longer than a journal may be.
    TooLong,
    /// There is no memory.
    Memory,
}

/// How large the frame of a report is.
#[derive(Clone, Copy, Debug, PartialEq, Eq)]
pub enum ReportSize {
    /// The length of the frame in bytes, and the name of its target state.
    Frame(u32, Name),
    /// There is no frame, since its first partition would be too long: the length of that in bytes.
    Oversize(u32),
}

/// One of the nine events of a world.
#[derive(Clone, Copy, Debug, PartialEq, Eq)]
pub enum CallKind {
    /// A picture is started.
    Next,
    /// A job is handed out.
    Take,
    /// A job is reported.
    Report,
    /// One of the reports is chosen.
    Choose,
    /// A datagram comes to the receiver.
    Down,
    /// An acknowledgement comes back to the sender.
    Up,
    /// A ready frame is handed out.
    Ready,
    /// A frame was decoded.
    Decoded,
    /// A moment comes.
    Moment,
}

/// One line of what happened. Pictures, numbers of choices, ids of jobs, datagrams and acknowledgements are counted from 1.
#[derive(Drop)]
pub enum Line {
    /// A session of both ends begins, with this size and rate.
    Head(Head),
    /// It is this moment, in microseconds.
    Moment(u64),
    /// The picture of this number is started.
    Next(u32),
    /// The job of this id is handed out, which has this role.
    Take(u32, JobRole),
    /// The job of this id is reported: how large its frame is, and whether the report is late, that is, after the choice.
    Report(u32, ReportSize, bool),
    /// This number is chosen, made by the job of this id from this source (0 for the initial state), in so many datagrams.
    Choose(u32, u32, u32, u32),
    /// Nothing is chosen: how many datagrams may be sent now, and the sizes of the candidates, none of which fits.
    Nothing(u32, Sizes),
    /// The datagram of this number is taken.
    Down(u32),
    /// The acknowledgement of this number comes back, and whether it is heard; it is old where it isn't.
    Up(u64, bool),
    /// The frame of this number is handed out.
    Ready(u32),
    /// The frame of this number is decoded, and whether it is shown; a number at least as great was shown before where it isn't.
    Decoded(u32, bool),
    /// A session of a sender alone begins, with this size and rate.
    Sender(Head),
    /// This datagram came to a sender.
    Heard(Bytes),
    /// The datagram of this serial was not sent, since its send failed.
    Lost(u32),
    /// The report of the job of this id says that the job was given up, and whether the report is late.
    GivenUp(u32, bool),
    /// The session ends.
    End,
}

/// What is kept of an event.
#[derive(Drop)]
pub enum Entry {
    /// It has this line.
    Line(Line),
    /// The picture of this number, which contracts alone see, is started; its line is that of `Line::Next`.
    Next(u32, Snapshot<Picture>),
    /// It has no line: the event; the id of the job that is reported or the number of the frame that is decoded, 0 for every other
    /// event and where the answer is Memory; and whether there was no memory for what it reports.
    Idle(CallKind, u32, bool),
}

/// Where a session writes down what happens.
pub trait Diary {
    ghost use Rattle.sal_world.specs.declared.diary.DiaryFault.{DiaryFault};
    ghost use Rattle.sal_world.specs.LineText.{line_text, WritesLine, KeepsLimit};

    /// Whether it ever gives this fault.
    ghost gives: { DiaryFault → Bool };

    /// How often it has failed.
    ghost faults: { Self → ℕ };

    /// The name of what it is written to.
    ghost name: { Self → List ℕ } = { λ _. [] };

    /// What was written of the lines so far, where it tells.
    ghost text: { Self → Option (List ℕ) } = { λ _. None };

    /// That it knows how long its text is, which it does until a line fails.
    ghost is_counted: { Self → Type 0 } = { λ _. ⊥ };

    /// How often it has failed; it stays at the greatest u64.
    fn faults(&self) -> u64
        ensures { result ≡ faults self.now };

    /// Writes a line down.
    ///
    /// # Errors
    ///
    /// Failed, only where the count of faults rose, and no line is given after that; a front of the line was written then.
    /// TooLong where the text would pass 1,073,741,824 bytes, and Memory; nothing was written then.
    fn line(&mut self, line: &Line) -> Result<(), DiaryFault>
        ensures gives { IfErr result (λ fault. gives fault ≡ true) }
        ensures cause { HasCause (Err DiaryFault.Failed) (faults self.old) (faults self.new) result }
        ensures text { WritesLine (text self.old) (text self.new) result (line_text line.now) }
        ensures limit { is_counted self.old → IfSome (text self.old) (λ text. KeepsLimit text (line_text line.now) result) }
        ensures counted { is_counted self.old → result ≢ Err DiaryFault.Failed → is_counted self.new }
        ensures name { name self.new ≡ name self.old }
        ensures tells { is_some (text self.new) ≡ is_some (text self.old) };
}

/// Writes nothing down, and gives no fault.
#[derive(Clone, Copy, Debug, PartialEq, Eq)]
pub struct NoDiary;

impl Diary for NoDiary {
    ghost gives = { λ fault. false };

    ghost faults = { λ d. 0 };

    fn faults(&self) -> u64 {
        0
    }

    fn line(&mut self, _line: &Line) -> Result<(), DiaryFault> {
        Ok(())
    }
}
