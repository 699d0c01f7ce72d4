//! What holds of every world, whatever is lost, repeated or reordered.

ghost use Rattle.std.specs.Prelude.{◌≡◌, List, Some};
ghost use Rattle.sal_base.specs.declared.picture.Picture.{Picture};
ghost use Rattle.sal_base.specs.Lists.{Each};
ghost use Rattle.sal_sender.specs.OneThread.{Session};
ghost use Rattle.sal_world.specs.World.{WorldEvent, after};
ghost use Rattle.sal_world.specs.Promises.{IsSession, HasSize, NamesDifferIn, HoldsAlways, HoldsWhereNamesDiffer, Promises, AllInterleavings, NothingIsLeft, AllIsServed};
ghost use Rattle.sal_world.specs.Invariant.{Invariant, IsKept, HoldsEverywhere};
ghost use Rattle.sal_script.specs.declared.line.ScriptLine.{ScriptLine};
ghost use Rattle.sal_world.specs.Script.{Run, begun, played};

use sal_codec::{Codec, keeps_the_law};

/// After all events, whatever the names of states are: sent is what one thread sends that makes the same choices, each choice
/// fits its budget and counts its datagrams, choices and open jobs are sound, and a late report changes nothing.
pub fn sends_in_every_world<C: Codec>()
    ensures { (session : Session) (events : List WorldEvent) → HoldsAlways C.coding session (after C.coding session events) }
{}

/// Each event keeps the invariant: a picture, a job, a report, a choice, a datagram or an acknowledgement that comes
/// once more or late, a frame handed out, a decoding, and a moment.
pub fn each_event_keeps_the_invariant<C: Codec>()
    ensures kept { (session : Session) → IsKept C.coding session }
    ensures everywhere { (session : Session) → HoldsEverywhere C.coding session }
{
    keeps_the_law::<C>()
}

/// Where the invariant holds after all events, all promises do.
pub fn keeps_its_promises<C: Codec>()
    ensures always { (session : Session) (events : List WorldEvent) → Invariant C.coding session (after C.coding session events) → HoldsAlways C.coding session (after C.coding session events) }
    ensures named { (session : Session) (events : List WorldEvent) → Invariant C.coding session (after C.coding session events) → HoldsWhereNamesDiffer C.coding (after C.coding session events) }
{}

/// After every list of events all promises hold, where pictures have the session's size: what `sends_in_every_world` says, and,
/// where states that differ have names that differ, shown is the decoding, a complete frame whose source is held is shown unless
/// a number at least as great was shown before, what was acknowledged stays held, and nothing is refused.
pub fn keeps_every_promise<C: Codec>()
    ensures { (session : Session) → AllInterleavings C.coding session }
{
    keeps_the_law::<C>()
}

/// What the lines of a script make of the world keeps all promises.
pub fn a_script_keeps_every_promise<C: Codec>()
    ensures { (session : Session) → IsSession session → (pictures : List Picture) → Each (HasSize session) pictures → (lines : List ScriptLine) (run : Run C.State) → played C.coding session lines (Some (begun pictures)) ≡ Some run → Promises C.coding session run.world }
{
    keeps_the_law::<C>()
}

/// After the lines of a script no frame waits to be decoded and none is out: each frame that was ready was shown, or a
/// number at least as great was shown before.
pub fn a_script_leaves_nothing_ready<C: Codec>()
    ensures left { (session : Session) (pictures : List Picture) (lines : List ScriptLine) (run : Run C.State) → played C.coding session lines (Some (begun pictures)) ≡ Some run → NothingIsLeft C.coding run.world.receiver }
    ensures served { (session : Session) → IsSession session → (pictures : List Picture) → Each (HasSize session) pictures → (lines : List ScriptLine) (run : Run C.State) → played C.coding session lines (Some (begun pictures)) ≡ Some run → NamesDifferIn C.coding run.world → AllIsServed C.coding run.world.receiver }
{
    keeps_the_law::<C>()
}
