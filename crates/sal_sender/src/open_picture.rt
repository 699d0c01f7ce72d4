//! The open picture, whose candidates wait for their reports, and the jobs that aren't handed out yet.

ghost use Rattle.std.specs.Prelude.{◌≡◌, [], drop};
ghost use Rattle.std.specs.Option.{option_map, option_copied};
ghost use Rattle.sal_sender.specs.Choosing.{first_in};
ghost use Rattle.sal_sender.specs.Candidates.{queued, is_job_of, is_open_job, with_report};

use crate::choice::JobRole;

/// A candidate for the choice: one job of the open picture, and its report where that is in.
#[derive(Drop)]
pub struct Candidate<R> {
    /// The job's id, from 1.
    pub id: u32,
    /// What it is for.
    pub role: JobRole,
    /// The frame number of the state that it is encoded from, 0 for the initial one.
    pub source: u32,
    /// The quantiser index, 0 to 127.
    pub q: u8,
    /// Its report, where that is in.
    pub report: Option<R>,
}

/// A picture for which nothing was chosen yet, with its candidates.
#[derive(Drop)]
pub struct OpenPicture<R> {
    /// Whether its base was the tip when it was started.
    pub from_tip: bool,
    /// The coarse candidate.
    pub coarse: Candidate<R>,
    /// The spare candidate, where there is one.
    pub spare: Option<Candidate<R>>,
    /// The fine candidate.
    pub fine: Candidate<R>,
}

/// The jobs of the newest picture that aren't handed out yet, in rising order of ids.
#[derive(Drop)]
pub struct JobQueue<J> {
    /// The coarse job, which is handed out first.
    pub coarse: Option<J>,
    /// The spare job, where there is one.
    pub spare: Option<J>,
    /// The fine job, which is handed out last.
    pub fine: Option<J>,
}

impl<J: Drop> JobQueue<J> {
    /// No jobs.
    pub(crate) fn new() -> JobQueue<J>
        ensures { queued result ≡ [] }
    {
        JobQueue {
            coarse: None,
            spare: None,
            fine: None,
        }
    }

    /// The first one, lent.
    pub(crate) fn first(&self) -> Option<&J>
        ensures { option_copied result ≡ first_in (queued self.now) }
    {
        if self.coarse.is_some() {
            return self.coarse.as_ref();
        }
        if self.spare.is_some() {
            return self.spare.as_ref();
        }
        self.fine.as_ref()
    }

    /// Takes the first one out.
    pub(crate) fn take(&mut self) -> Option<J>
        ensures first { result ≡ first_in (queued self.old) }
        ensures rest { queued self.new ≡ drop 1 (queued self.old) }
    {
        if self.coarse.is_some() {
            return self.coarse.take();
        }
        if self.spare.is_some() {
            return self.spare.take();
        }
        self.fine.take()
    }
}

impl<R: Drop> OpenPicture<R> {
    /// Keeps a report under its job, and says whether that is one of this picture.
    pub(crate) fn keep(&mut self, id: u32, report: R) -> bool
        ensures known { result ≡ is_job_of id self.old }
        ensures kept { self.new ≡ with_report id report self.old }
    {
        if self.coarse.id == id {
            self.coarse.report = Some(report);
            return true;
        }
        if self.fine.id == id {
            self.fine.report = Some(report);
            return true;
        }
        match &mut self.spare {
            Some(spare) if spare.id == id => {
                spare.report = Some(report);
                true
            }
            _ => false,
        }
    }
}

/// Keeps a report under its job, and says whether a picture is open and has that job.
pub(crate) fn keep<R: Drop>(open_picture: &mut Option<OpenPicture<R>>, id: u32, report: R) -> bool
    ensures known { result ≡ is_open_job id open_picture.old }
    ensures kept { open_picture.new ≡ option_map (with_report id report) open_picture.old }
{
    match open_picture {
        Some(open) => open.keep(id, report),
        None => false,
    }
}
