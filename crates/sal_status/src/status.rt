//! How the program ends.

ghost use Rattle.std.specs.Prelude.{◌≡◌};
ghost use Rattle.sal_status.specs.Numbers.{number_of};
ghost use Rattle.sal_status.specs.Texts.{counts_of};

use sal_run::Summary;
use sal_y4m::Why;

/// What a status is about.
#[derive(Clone, Copy, Debug, PartialEq, Eq)]
pub enum Named {
    /// The word of this index, from 0 at the command.
    Word(u32),
    /// The screen.
    Screen,
}

/// What is printed where all went well.
#[derive(Clone, Copy, Debug, PartialEq, Eq)]
pub enum Shows {
    /// What a run of both ends counted.
    Loop(Summary),
}

impl Shows {
    /// What a run of both ends counted.
    pub fn counts(self) -> Summary
        ensures { result ≡ counts_of self }
    {
        match self {
            Shows::Loop(summary) => summary,
        }
    }
}

/// How the program ends.
#[derive(Clone, Copy, Debug, PartialEq, Eq)]
pub enum Status {
    /// All went well: of `loop`, all lines were run, and the input was read to its end.
    Ok(Shows),
    /// The words aren't in the grammar.
    Usage,
    /// The input isn't in the grammar: at this byte, counted from 0, for this reason.
    BadInput(Named, u64, Why),
    /// This line of the script, counted from 1, isn't in the grammar, needs a picture and none is left, or names a
    /// number that wasn't sent.
    BadScript(u32),
    /// This source failed.
    ReadFault(Named),
    /// This sink failed.
    WriteFault(Named),
    /// This file wasn't opened.
    OpenFault(Named),
    /// The samples of the input are more than a session takes.
    TooLong,
    /// The input has more pictures than a session takes.
    TooMany,
    /// There was no memory.
    Memory,
}

impl Status {
    /// The number that the program ends with.
    pub fn number(self) -> u8
        ensures { result ≡ number_of self }
    {
        match self {
            Status::Ok(_) => 0,
            Status::Usage => 2,
            Status::BadInput(..) => 3,
            Status::BadScript(_) => 4,
            Status::ReadFault(_) => 6,
            Status::WriteFault(_) => 7,
            Status::OpenFault(_) => 8,
            Status::TooLong => 11,
            Status::TooMany => 12,
            Status::Memory => 15,
        }
    }
}
