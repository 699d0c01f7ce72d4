//! Why a run stops.

ghost use Rattle.std.specs.Prelude.{◌≡◌};
ghost use Rattle.sal_run.specs.Stops.{end_of, stop_of};

use crate::end::{RunEnd, Which};
use sal_world::DiaryFault;
use sal_y4m::{Why, Y4mFault};

/// Why a run stops before its end.
#[derive(Clone, Copy, Debug, PartialEq, Eq)]
pub(crate) enum RunStop {
    /// The input isn't in the grammar: at this byte, for this reason.
    BadInput(u64, Why),
    /// This line needs a picture and none is left, or names a number that wasn't sent.
    BadScript(u32),
    /// The input has more pictures than a session takes.
    TooMany,
    /// The samples of the input are more than a session takes.
    TooLong,
    /// The input failed.
    ReadFault,
    /// The output failed.
    Out,
    /// The diary gave this fault.
    Diary(DiaryFault),
    /// There is no memory.
    Memory,
}

/// How a run ends that stops so.
pub(crate) fn end_of(stop: RunStop) -> RunEnd
    ensures { result ≡ end_of stop }
{
    match stop {
        RunStop::BadInput(place, why) => RunEnd::BadInput(place, why),
        RunStop::BadScript(line) => RunEnd::BadScript(line),
        RunStop::TooMany => RunEnd::TooMany,
        RunStop::TooLong => RunEnd::TooLong,
        RunStop::ReadFault => RunEnd::ReadFault,
        RunStop::Out => RunEnd::WriteFault(Which::Out),
        RunStop::Diary(DiaryFault::Failed) => RunEnd::WriteFault(Which::Journal),
        RunStop::Diary(DiaryFault::TooLong) => RunEnd::TooLong,
        RunStop::Diary(DiaryFault::Memory) | RunStop::Memory => RunEnd::Memory,
    }
}

/// Why a run stops at a fault of the input.
pub(crate) fn stop_of(fault: Y4mFault) -> RunStop
    ensures { result ≡ stop_of fault }
{
    match fault {
        Y4mFault::Bad(place, why) => RunStop::BadInput(place, why),
        Y4mFault::ReadFault => RunStop::ReadFault,
        Y4mFault::Memory => RunStop::Memory,
    }
}
