//! The jobs that are planned for the next picture.

ghost use Rattle.std.specs.Prelude.{◌≡◌, ◌+◌, ◌≤◌, ◌-◌, ◌^◌, ◌<◌};
ghost use Rattle.std.specs.Prelude.{if◌then◌else◌};
ghost use Rattle.sal_sender.specs.Jobs.{kind_of};
ghost use Rattle.sal_sender.specs.Planned.{fine_id, job_count, coarse_q, open_picture_of};

use crate::choice::JobRole;
use crate::open_picture::{Candidate, OpenPicture};
use sal_base::Kind;

/// The base: the frame number whose state the next picture goes on from.
pub(crate) fn base_of(is_full: bool, is_lost: bool, safe: u32, tip: u32) -> u32
    ensures { result ≡ (if is_full then 0 else if is_lost then safe else tip) }
{
    if is_full {
        0
    } else if is_lost {
        safe
    } else {
        tip
    }
}

/// How a picture is encoded from the state of this frame number.
pub(crate) fn kind_of(source: u32) -> Kind
    ensures { result ≡ kind_of source }
{
    if source == 0 { Kind::Key } else { Kind::Inter }
}

/// What decides the jobs of a picture: its states, its quantiser, and the first id.
#[derive(Clone, Copy, Debug)]
pub struct JobPlan {
    /// The id of the first job, from 1; the others follow it.
    pub first: u32,
    /// The base: the frame number whose state the next picture goes on from.
    pub base: u32,
    /// The newest acknowledged frame number on the tip's chain, 0 where there is none.
    pub safe: u32,
    /// Whether there is a spare job, which encodes from the safe state.
    pub has_spare: bool,
    /// Whether the base is the tip.
    pub from_tip: bool,
    /// The quantiser index that the jobs lie around, 0 to 127.
    pub q: u8,
}

// A candidate without a report.
fn unreported<R: Drop>(id: u32, role: JobRole, source: u32, q: u8) -> Candidate<R>
    ensures { result ≡ Rattle.sal_sender.specs.Planned.unreported id role source q }
{
    Candidate {
        id,
        role,
        source,
        q,
        report: None,
    }
}

impl JobPlan {
    /// The fine job's id.
    pub(crate) fn fine_id(&self) -> u32
        requires { self.now.first + 2 < 2 ^ 32 }
        ensures { result ≡ fine_id self.now }
    {
        if self.has_spare {
            self.first + 2
        } else {
            self.first + 1
        }
    }

    /// How many jobs there are.
    pub(crate) fn count(&self) -> u32
        ensures { result ≡ job_count self.now }
    {
        if self.has_spare { 3 } else { 2 }
    }

    /// The quantiser index of the coarse and the spare job.
    pub(crate) fn coarse_q(&self) -> u8
        requires { self.now.q ≤ 127 }
        ensures value { result ≡ coarse_q self.now }
        ensures high { result ≤ 127 }
    {
        (self.q + 4).min(127)
    }

    /// The open picture with these jobs, none of them reported.
    pub(crate) fn open_picture<R: Drop>(&self) -> OpenPicture<R>
        requires first { self.now.first + 2 < 2 ^ 32 }
        requires q { self.now.q ≤ 127 }
        ensures { result ≡ open_picture_of self.now }
    {
        let coarse = self.coarse_q();
        let spare = if self.has_spare {
            Some(unreported(self.first + 1, JobRole::Spare, self.safe, coarse))
        } else {
            None
        };
        OpenPicture {
            from_tip: self.from_tip,
            coarse: unreported(self.first, JobRole::Coarse, self.base, coarse),
            spare,
            fine: unreported(
                self.fine_id(),
                JobRole::Fine,
                self.base,
                self.q.saturating_sub(4),
            ),
        }
    }
}
