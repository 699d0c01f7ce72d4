//! The report of a job: what it gave.

ghost use Rattle.std.specs.Prelude.{◌≡◌, ◌⊎◌, ◌≤◌, length};
ghost use Rattle.sal_codec.specs.Coding.{MayEncode};
ghost use Rattle.sal_wire.specs.Fragmentation.{fragment_count};
ghost use Rattle.sal_chain.specs.Held.{name_in};
ghost use Rattle.sal_sender.specs.Choosing.{datagram_count};
ghost use Rattle.sal_sender.specs.Selecting.{size_of_report};
ghost use Rattle.sal_sender.specs.JobWork.{JobWork, IsOutcome, IsTargetName, IsTargetDigest, gave_of, given, encoded};
ghost use Rattle.sal_sender.specs.declared.outcome.Gave.TheVariants.{NoMemory as GaveNoMemory};

use crate::choice::{JobRole, Size};
use crate::job::Job;
use crate::outcome::{Gave, Outcome};
use sal_base::{Bytes, Kind, Name};
use sal_codec::{Codec, keeps_the_law, name_of};
use sal_wire::MAX_DATA;
use std::marker::Model;
use std::sync::Arc;

/// A job with its outcome, which is the codec's encoding of the job's source and samples, or want of memory.
#[derive(Drop)]
pub struct Report<C: Codec> {
    job: Job<C>,
    target_digest: [u8; 32],
    outcome: Outcome<Arc<C::State>>,
}

impl<C: Codec> Model for Report<C> {
    ghost use Rattle.sal_sender.specs.JobWork.{JobReport, IsOutcome, IsTargetDigest, gave_of, encoded};

    ghost Value = { JobReport C.State };

    ghost view = { λ r. record { work = r.job; gave = gave_of r.outcome } };

    ghost invariant = { λ r. IsOutcome (encoded C.coding r.job) r.outcome × IsTargetDigest C.coding r.target_digest r.outcome };
}

// How many datagrams a frame has: its bytes by those of one, rounded up.
fn count(frame: &Bytes) -> u32
    requires { length frame.now ≤ 4294967295 }
    ensures { result ≡ fragment_count frame.now }
{
    ((frame.len() + MAX_DATA - 1) / MAX_DATA) as u32
}

impl<C: Codec> Report<C> {
    /// The report of a job that gave this.
    pub(crate) fn new(
        job: Job<C>,
        target_digest: [u8; 32],
        outcome: Outcome<Arc<C::State>>,
    ) -> Report<C>
        requires outcome { IsOutcome (encoded C.coding job) outcome }
        requires digest { IsTargetDigest C.coding target_digest outcome }
        ensures { result ≡ record { work = job; gave = gave_of outcome } }
    {
        Report {
            job,
            target_digest,
            outcome,
        }
    }

    /// The job's id, from 1.
    pub fn id(&self) -> u32
        ensures { result ≡ self.now.work.id }
    {
        self.job.id()
    }

    /// The picture number, from 1.
    pub fn picture(&self) -> u32
        ensures { result ≡ self.now.work.picture }
    {
        self.job.picture()
    }

    /// What the job is for.
    pub fn role(&self) -> JobRole
        ensures { result ≡ self.now.work.role }
    {
        self.job.role()
    }

    /// The quantiser index, 0 to 127.
    pub fn q(&self) -> u8
        ensures { result ≡ self.now.work.q }
    {
        self.job.q()
    }

    /// Whether the job makes a key frame.
    pub fn kind(&self) -> Kind
        ensures { result ≡ self.now.work.kind }
    {
        self.job.kind()
    }

    /// What the job gave, lent.
    pub fn outcome(&self) -> &Outcome<Arc<C::State>>
        ensures encoding { IsOutcome (encoded C.coding self.now.work) result.now }
        ensures gave { gave_of result.now ≡ self.now.gave }
    {
        &self.outcome
    }

    /// What the job gave, without the frame itself.
    #[tactic(auto, using(crate::proofs::Picks::given_or_none))]
    pub fn gave(&self) -> Gave
        ensures value { result ≡ self.now.gave }
        ensures given { (result ≡ GaveNoMemory) ⊎ (result ≡ given (encoded C.coding self.now.work)) }
    {
        self.outcome.gave()
    }

    /// The name of the state that the frame was encoded from.
    pub(crate) fn source_name(&self) -> Name
        ensures named { result.0 ≡ name_in C.coding self.now.work.source }
        ensures may { MayEncode C.coding self.now.work.source self.now.work.samples self.now.work.q self.now.work.kind }
    {
        self.job.source_name()
    }

    /// What the job gave, with the name of the state that a frame leads to.
    #[tactic(auto, using(crate::proofs::Picks::named_by))]
    pub fn named_outcome(&self) -> (Name, &Outcome<Arc<C::State>>)
        ensures encoding { IsOutcome (encoded C.coding self.now.work) result.1.now }
        ensures named { IsTargetName C.coding result.0 result.1.now }
        ensures gave { gave_of result.1.now ≡ self.now.gave }
    {
        (name_of(&self.target_digest), &self.outcome)
    }

    /// How many datagrams its frame has, 0 where there is no frame.
    pub(crate) fn count(&self) -> u32
        ensures { result ≡ datagram_count (size_of_report C.coding self.now) }
    {
        match self.size() {
            Size::Datagrams(count) => count,
            Size::Oversize(_) | Size::NoMemory => 0,
        }
    }

    /// What sending it takes: the datagrams of its frame, or why there is no frame.
    pub fn size(&self) -> Size
        ensures { result ≡ size_of_report C.coding self.now }
    {
        keeps_the_law::<C>();
        let _name = self.job.source_name();
        match &self.outcome {
            Outcome::Frame(bytes, _, _) => Size::Datagrams(count(bytes)),
            Outcome::Oversize(first) => Size::Oversize(*first),
            Outcome::NoMemory => Size::NoMemory,
        }
    }
}
