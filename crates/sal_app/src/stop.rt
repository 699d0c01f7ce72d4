//! Why a run stops.

use sal_y4m::Why;

/// Why a run stops.
#[derive(Clone, Copy, Debug, PartialEq, Eq)]
pub enum Stop {
    BadInput(u64, Why),
    BadScript(u32),
    /// The source of pictures failed.
    InputFault,
    /// The source of the script failed.
    ScriptFault,
    WriteFault,
    TooLong,
    TooMany,
    Memory,
}
