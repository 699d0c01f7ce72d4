//! What holds of every sender, whatever it hears in whatever order.

ghost use Rattle.sal_sender.specs.Past.{Past};
ghost use Rattle.sal_sender.specs.OneThread.{Session};
ghost use Rattle.sal_sender.specs.Promises.{IsLegalSender, IsWhatOneThreadSends, FitsItsBudget};
ghost use Rattle.sal_sender.specs.Sound.{IsSound};

use crate::job::Job;
use crate::report::Report;
use sal_codec::Codec;

/// Sent is what one thread sends that makes the same choices.
#[tactic(auto, using(crate::proofs::Thread::thread))]
pub fn sends_as_one_thread<C: Codec>()
    ensures { (session : Session) (past : Past) → IsLegalSender C.coding session past → IsWhatOneThreadSends C.coding session past }
{}

/// A choice fits its budget, and nothing is chosen exactly where nothing fits, but for want of memory.
#[tactic(auto, using(crate::proofs::Budgets::budget_of_legal))]
pub fn fits_its_budget<C: Codec>()
    ensures { (session : Session) (past : Past) → IsLegalSender C.coding session past → FitsItsBudget C.coding session past }
{}

/// Frames are numbered from 1, their sources are older, floors never fall, and the window has sixteen frame numbers.
#[tactic(auto, using(crate::proofs::Sound::sound))]
pub fn keeps_its_window<C: Codec>()
    ensures { (session : Session) (past : Past) → IsLegalSender C.coding session past → IsSound past }
{}

// What has this bound may go to another thread.
fn crosses_threads<T: Send>() {}

/// A job may go to another thread, which runs it, and its report may come back, with all that they hold.
pub fn jobs_cross_threads<C: Codec>() {
    crosses_threads::<Job<C>>();
    crosses_threads::<Report<C>>();
}
