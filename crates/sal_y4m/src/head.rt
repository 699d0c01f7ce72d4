//! The head of a clip.

ghost use Rattle.std.specs.Prelude.{◌≡◌};
ghost use Rattle.sal_y4m.specs.Grammar.{begins_header};
ghost use Rattle.sal_y4m.specs.Parameters.{head_of};

use crate::fault::{Flaw, Why};
use crate::parameters::{Settings, all};

/// The sides of each picture, in samples of luma, and the rate: so many pictures in so many seconds.
#[derive(Clone, Copy, Debug, PartialEq, Eq)]
pub struct Head {
    pub width: u16,
    pub height: u16,
    pub rate: (u32, u32),
}

/// The word that a header line begins with.
pub const MAGIC: &[u8] = b"YUV4MPEG2";

/// Whether a text begins with the word, after which a space or a newline stands, or nothing.
pub fn begins_header(text: &[u8]) -> bool
    ensures { result ≡ begins_header text.now }
{
    match text.strip_prefix(MAGIC) {
        Some(rest) => match rest.first() {
            Some(byte) => *byte == b' ' || *byte == b'\n',
            None => true,
        },
        None => false,
    }
}

/// The head that the parameters after the word represent, up to the newline.
pub fn head_of(text: &[u8]) -> Result<Head, Flaw>
    ensures { result ≡ head_of text.now }
{
    let settings = all(text)?;
    match (settings.width, settings.height) {
        (Some(width), Some(height)) => Ok(Head {
            width,
            height,
            rate: settings.rate,
        }),
        _ => Err(Flaw {
            left: 0,
            why: Why::Missing,
        }),
    }
}
