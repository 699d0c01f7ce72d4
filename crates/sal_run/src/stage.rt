//! What is done with a picture: its jobs, its choice, and the frames that are ready.

ghost use Rattle.std.specs.Prelude.{◌≡◌, ◌≢◌, is_some, false, ◌&&◌, ℕ, List, Option, length, IfOk, OnOk, Ok, Err};
ghost use Rattle.sal_io.specs.Calls.{HasCause};
ghost use Rattle.sal_y4m.specs.declared.head.Head.{Head as HeadData};
ghost use Rattle.sal_world.specs.World.{acks};
ghost use Rattle.sal_world.specs.Promises.{HasSize};
ghost use Rattle.sal_world.specs.Script.{Run, run_jobs, next_picture, drained};
ghost use Rattle.sal_run.specs.Loop.{session_of};
ghost use Rattle.sal_run.specs.Running.{IsRunning, Goes};
ghost use Rattle.sal_run.specs.Turns.{is_fine_role, is_late, is_job, is_frame, one_job, one_frame};

use crate::counted::Counted;
use crate::events::{choose, decoded, ready, report, start, take};
use crate::stop::RunStop;
use sal_base::Picture;
use sal_codec::Codec;
use sal_io::Sink;
use sal_sender::JobRole;
use sal_world::{Diary, DiaryFault};
use sal_y4m::Writer;
use std::alloc::Global;
use std::sync::Arc;

/// Both ends, and the codec by which their jobs and frames run.
#[derive(Drop)]
pub(crate) struct BothEnds<C: Codec> {
    pub alloc: Global,
    pub codec: C,
    pub world: Counted<C>,
}

/// A picture has at most so many jobs.
const MOST_JOBS: u32 = 3;

/// Whether a job comes after the choice.
fn comes_late(late: bool, role: JobRole) -> bool
    ensures { result ≡ (late && is_fine_role role) }
{
    late && matches!(role, JobRole::Fine)
}

impl<C: Codec> BothEnds<C> {
    /// Runs the next job, if one waits that doesn't come late.
    fn job<J: Diary>(&mut self, late: bool, journal: &mut J) -> Result<bool, RunStop>
        requires runs { (head : HeadData) × ((r : Run C.State) × ((held : Option (List ℕ)) × IsRunning C.coding head self.old.world held r)) }
        ensures goes { (head : HeadData) (r : Run C.State) (held : Option (List ℕ)) → IsRunning C.coding head self.old.world held r → Goes C.coding head J.gives self.new.world held (one_job C.coding (session_of head) late r) result }
        ensures more { (head : HeadData) (r : Run C.State) (held : Option (List ℕ)) → IsRunning C.coding head self.old.world held r → IfOk result (λ more. more ≡ is_job late r) }
        ensures journal_cause { HasCause (Err (RunStop.Diary DiaryFault.Failed)) (J.faults journal.old) (J.faults journal.new) result }
        ensures never { result ≢ Err RunStop.Out }
    {
        let Some(role) = self.world.next_role() else {
            return Ok(false);
        };
        if comes_late(late, role) {
            return Ok(false);
        }
        let job = take(&mut self.world, journal)?;
        let done = job.run(self.alloc, &self.codec);
        report(&mut self.world, done, journal)?;
        Ok(true)
    }

    /// Runs the jobs that wait, up to the first that comes late.
    fn jobs<J: Diary>(&mut self, late: bool, journal: &mut J) -> Result<(), RunStop>
        requires runs { (head : HeadData) × ((r : Run C.State) × ((held : Option (List ℕ)) × IsRunning C.coding head self.old.world held r)) }
        ensures goes { (head : HeadData) (r : Run C.State) (held : Option (List ℕ)) → IsRunning C.coding head self.old.world held r → Goes C.coding head J.gives self.new.world held (run_jobs C.coding (session_of head) (is_late late) 3 r) result }
        ensures journal_cause { HasCause (Err (RunStop.Diary DiaryFault.Failed)) (J.faults journal.old) (J.faults journal.new) result }
        ensures never { result ≢ Err RunStop.Out }
    {
        for _run in 0..MOST_JOBS {
            let more = self.job(late, journal)?;
            if !more {
                return Ok(());
            }
        }
        Ok(())
    }

    /// Starts a picture, runs its jobs and chooses; the late ones come after the choice.
    pub(crate) fn next_picture<J: Diary>(
        &mut self,
        number: u32,
        late: bool,
        picture: Picture,
        journal: &mut J,
    ) -> Result<(), RunStop>
        requires runs { (head : HeadData) × ((r : Run C.State) × ((held : Option (List ℕ)) × (IsRunning C.coding head self.old.world held r × HasSize (session_of head) picture))) }
        ensures goes { (head : HeadData) (r : Run C.State) (held : Option (List ℕ)) → IsRunning C.coding head self.old.world held r → HasSize (session_of head) picture → Goes C.coding head J.gives self.new.world held (next_picture C.coding (session_of head) (is_late late) picture r) result }
        ensures journal_cause { HasCause (Err (RunStop.Diary DiaryFault.Failed)) (J.faults journal.old) (J.faults journal.new) result }
        ensures never { result ≢ Err RunStop.Out }
    {
        let Ok(samples) = Arc::new(self.alloc, picture) else {
            return Err(RunStop::Memory);
        };
        start(&mut self.world, number, samples, journal)?;
        self.jobs(late, journal)?;
        choose(&mut self.world, journal)?;
        self.jobs(false, journal)
    }

    /// Decodes the next ready frame, if there is one.
    fn frame<K: Sink, J: Diary>(
        &mut self,
        out: &mut Writer<K>,
        journal: &mut J,
    ) -> Result<bool, RunStop>
        requires open { out.old.failed ≡ false }
        requires runs { (head : HeadData) × ((r : Run C.State) × IsRunning C.coding head self.old.world (K.held out.old.sink) r) }
        ensures goes { (head : HeadData) (r : Run C.State) → IsRunning C.coding head self.old.world (K.held out.old.sink) r → Goes C.coding head J.gives self.new.world (K.held out.new.sink) (one_frame C.coding (session_of head) r) result }
        ensures more { (head : HeadData) (r : Run C.State) → IsRunning C.coding head self.old.world (K.held out.old.sink) r → IfOk result (λ more. more ≡ is_frame C.coding r) }
        ensures open { OnOk result (out.new.failed ≡ false) }
        ensures out_cause { HasCause (Err RunStop.Out) (K.faults out.old.sink) (K.faults out.new.sink) result }
        ensures journal_cause { HasCause (Err (RunStop.Diary DiaryFault.Failed)) (J.faults journal.old) (J.faults journal.new) result }
        ensures out_name { K.name out.new.sink ≡ K.name out.old.sink }
        ensures out_tells { is_some (K.held out.new.sink) ≡ is_some (K.held out.old.sink) }
    {
        let Some(frame) = ready(&mut self.world, journal)? else {
            return Ok(false);
        };
        let decoding = frame.run(self.alloc, &self.codec);
        decoded(&mut self.world, decoding, out, journal)?;
        Ok(true)
    }

    /// Decodes each ready frame, until none is ready; there are at most as many as acknowledgements.
    pub(crate) fn frames<K: Sink, J: Diary>(
        &mut self,
        out: &mut Writer<K>,
        journal: &mut J,
    ) -> Result<(), RunStop>
        requires open { out.old.failed ≡ false }
        requires runs { (head : HeadData) × ((r : Run C.State) × IsRunning C.coding head self.old.world (K.held out.old.sink) r) }
        ensures goes { (head : HeadData) (r : Run C.State) → IsRunning C.coding head self.old.world (K.held out.old.sink) r → Goes C.coding head J.gives self.new.world (K.held out.new.sink) (drained C.coding (session_of head) (length (acks r.world)) r) result }
        ensures open { OnOk result (out.new.failed ≡ false) }
        ensures out_cause { HasCause (Err RunStop.Out) (K.faults out.old.sink) (K.faults out.new.sink) result }
        ensures journal_cause { HasCause (Err (RunStop.Diary DiaryFault.Failed)) (J.faults journal.old) (J.faults journal.new) result }
        ensures out_name { K.name out.new.sink ≡ K.name out.old.sink }
        ensures out_tells { is_some (K.held out.new.sink) ≡ is_some (K.held out.old.sink) }
    {
        for _round in 0..self.world.acks() {
            let more = self.frame(out, journal)?;
            if !more {
                return Ok(());
            }
        }
        ready(&mut self.world, journal)?;
        Ok(())
    }
}
