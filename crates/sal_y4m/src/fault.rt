//! Why reading and writing fail.

ghost use Rattle.std.specs.Prelude.{◌≡◌};
ghost use Rattle.sal_y4m.specs.Words.{word_of};

/// Why the bytes are not in the grammar, and which place is told with it.
#[derive(Clone, Copy, Debug, PartialEq, Eq)]
pub enum Why {
    /// The input doesn't begin with the word `YUV4MPEG2`, after which a space or a newline stands: at its start.
    Magic,
    /// The input ends inside a line or a picture: at its end.
    Cut,
    /// A line has no newline among its first 256 bytes: at its start.
    Line,
    /// A side has no number, or one outside the limits: at the letter W or H.
    Side,
    /// The rate isn't two numbers of at least 1, nor `0:0`: at the letter F.
    Rate,
    /// The interlacing isn't `p` or `?`: at the letter I.
    Interlace,
    /// The samples aren't 4:2:0 of 8 bits: at the letter C.
    Colour,
    /// The aspect isn't two numbers, or no parameter has that letter: at the letter.
    Param,
    /// A side is missing: at the newline of the header.
    Missing,
    /// The line before a picture isn't a FRAME line: at its start.
    Frame,
}

impl Why {
    /// The word that is printed.
    pub fn word(self) -> &'static [u8]
        ensures { result.now ≡ word_of self }
    {
        match self {
            Why::Magic => b"magic",
            Why::Cut => b"cut",
            Why::Line => b"line",
            Why::Side => b"side",
            Why::Rate => b"rate",
            Why::Interlace => b"interlace",
            Why::Colour => b"colour",
            Why::Param => b"param",
            Why::Missing => b"missing",
            Why::Frame => b"frame",
        }
    }
}

/// What is wrong with some bytes, and how many of them there are from its place on.
#[derive(Clone, Copy, Debug, PartialEq, Eq)]
pub struct Flaw {
    pub left: usize,
    pub why: Why,
}

/// Why the next part wasn't read.
#[derive(Clone, Copy, Debug, PartialEq, Eq)]
pub enum Y4mFault {
    /// The bytes are not in the grammar: the place of the first fault, in bytes from the start of the input (one past the
    /// greatest u64 is that number), and the reason.
    Bad(u64, Why),
    /// The source failed.
    ReadFault,
    Memory,
}

/// The sink failed.
#[derive(Clone, Copy, Debug, PartialEq, Eq)]
pub struct WriteFault;
