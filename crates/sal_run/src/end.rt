//! How a run ends.

use sal_y4m::Why;

/// What a fault is about.
#[derive(Clone, Copy, Debug, PartialEq, Eq)]
pub enum Which {
    Pictures,
    Script,
    Out,
    Journal,
}

/// What a run counted; each count but that of the datagrams stays at the greatest u32.
#[derive(Clone, Copy, Debug, PartialEq, Eq)]
pub struct Summary {
    /// The pictures that were started.
    pub pictures: u32,
    /// The choices of a frame.
    pub chosen: u32,
    /// The choices of nothing, where nothing fitted.
    pub nothing: u32,
    /// The choices of a key frame.
    pub keys: u32,
    /// The datagrams that were sent.
    pub datagrams: u32,
    /// The pictures that were shown.
    pub shown: u32,
}

/// How a run ends.
#[derive(Clone, Copy, Debug, PartialEq, Eq)]
pub enum RunEnd {
    /// All lines were run, and the input was read to its end.
    Ok(Summary),
    /// The input isn't in the grammar: at this byte, for this reason.
    BadInput(u64, Why),
    /// This line of the script, counted from 1, needs a picture and none is left, or names a number that wasn't sent.
    BadScript(u32),
    /// The input failed.
    ReadFault,
    /// The output or the journal failed.
    WriteFault(Which),
    /// The samples of the input, or the journal's text, are more than a session takes.
    TooLong,
    /// The input has more pictures than a session takes.
    TooMany,
    /// There is no memory.
    Memory,
}
