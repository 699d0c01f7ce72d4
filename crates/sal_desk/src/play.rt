//! One call of the machine that lies in the slot.

ghost use Rattle.std.specs.Prelude.{◌≡◌, ◌<◌, ◌^◌, List, length};
ghost use Rattle.sal_desk.specs.Stored.{items_of};
ghost use Rattle.sal_desk.specs.Calls.{Played};

use crate::machine::Machine;
use crate::view::Kept;

/// Makes one call, whose entry goes to the end of the history; or, where there is no memory for the entry, adds a Void.
pub(crate) fn play<M: Machine>(
    kept: Kept<M, M::Entry>,
    call: M::Call,
) -> (M::Reply, Kept<M, M::Entry>)
    requires may { (start : M) × ((log : List M.Entry) × (M.stands start kept.machine log × M.may start log call)) }
    requires room { length (items_of kept.history) < 2 ^ 63 }
    ensures { (start : M) (log : List M.Entry) → M.stands start kept.machine log → M.may start log call → Played M.stands M.answers M.follows M.voided start log call kept result.1 result.0 }
{
    let Kept {
        mut machine,
        mut history,
    } = kept;
    if history.has_room() {
        let (reply, entry) = machine.step(call);
        history.push(entry);
        (reply, Kept { machine, history })
    } else {
        history.push_void();
        (M::void(), Kept { machine, history })
    }
}
