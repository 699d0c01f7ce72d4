//! What holds of every run.

ghost use Rattle.std.specs.Prelude.{ℕ, List};
ghost use Rattle.sal_y4m.specs.declared.head.Head.{Head};
ghost use Rattle.sal_script.specs.Numbered.{Numbered};
ghost use Rattle.sal_world.specs.Promises.{IsSession};
ghost use Rattle.sal_run.specs.Loop.{session_of};
ghost use Rattle.sal_run.specs.Ends.{KeepsPromises};

use sal_codec::{Codec, keeps_the_law};

/// After any of the events of a run all promises of both ends hold.
pub fn every_run_keeps_its_promises<C: Codec>()
    ensures { (head : Head) (lines : List Numbered) (bytes : List ℕ) → IsSession (session_of head) → KeepsPromises C.coding head lines bytes }
{
    keeps_the_law::<C>()
}
