//! Commands, as words ask for them.

ghost use Rattle.std.specs.Prelude.{◌≡◌, slice_get};
ghost use Rattle.std.specs.Option.{option_map};
ghost use Rattle.sal_words.specs.Commands.{asks, opened};

use crate::address::Address;

/// A command, with its words and numbers.
#[derive(Clone, Copy, Debug, PartialEq, Eq)]
pub enum Command<'a> {
    /// Both ends in one process, under a script.
    Loop {
        /// The file of the pictures that are sent.
        input: &'a str,
        /// The file of the script.
        script: &'a str,
        /// The file of the pictures that are shown.
        output: &'a str,
        /// The file of the journal.
        journal: &'a str,
        /// How many threads encode, 0 to 64.
        threads: u32,
    },
    /// Sends pictures to an address.
    Send {
        /// The file of the pictures that are sent.
        input: &'a str,
        /// The word of the address.
        address: &'a str,
        /// What it says.
        to: Address,
        /// The file of the journal.
        journal: &'a str,
    },
    /// Receives at an address.
    Receive {
        /// The word of the address.
        address: &'a str,
        /// What it says.
        at: Address,
        /// The file of the pictures that are shown.
        output: &'a str,
    },
    /// Replays a journal of `loop`.
    Check {
        /// The file of the journal.
        journal: &'a str,
        /// The file of the pictures that were sent.
        input: &'a str,
        /// The file of the pictures that were shown.
        output: &'a str,
    },
    /// Makes a clip and runs it.
    Generate {
        /// Where the random numbers start.
        start: u64,
        /// How many pictures, 1 to 10,000.
        count: u32,
        /// How wide they are, 1 to 1,280.
        width: u16,
        /// How high they are, 1 to 720.
        height: u16,
    },
}

/// Why words weren't read.
#[derive(Clone, Copy, Debug, PartialEq, Eq)]
pub enum WordsFault {
    /// They aren't in the grammar.
    Usage,
    /// There is no memory.
    Memory,
}

impl<'a> Command<'a> {
    /// The word at this place, from 0, among those that are opened, in the order of the words: they name files or an address.
    pub fn opened(&self, place: usize) -> Option<&'a str>
        ensures { option_map (λ word. word.now) result ≡ slice_get (opened (asks self.now)) place }
    {
        match *self {
            Command::Loop {
                input,
                script,
                output,
                journal,
                ..
            } => { [input, script, output, journal].get(place).copied() }
            Command::Send {
                input,
                address,
                journal,
                ..
            } => { [input, address, journal].get(place).copied() }
            Command::Receive {
                address,
                output,
                ..
            } => [address, output].get(place).copied(),
            Command::Check {
                journal,
                input,
                output,
            } => { [journal, input, output].get(place).copied() }
            Command::Generate { .. } => None,
        }
    }
}
