//! What the blocks of a macroblock leave for those below and to the right of it (RFC 6386, section 13.3).

ghost use Rattle.std.specs.Prelude.{◌≡◌, ◌<◌, slice_set};
ghost use Rattle.sal_bool.specs.Syntax.{bit_of};
ghost use Rattle.sal_tokens.specs.Blocks.{no_contexts, is_set, cleared};

/// Whether the first token of each block at one side of a macroblock isn't the end of the block: four blocks of luma, two of
/// U, two of V, and Y2.
#[derive(Clone, Copy, Debug, PartialEq, Eq)]
pub struct Contexts(pub [bool; 9]);

impl Contexts {
    /// Those of a macroblock outside the picture.
    pub fn none() -> Contexts
        ensures { result.0 ≡ no_contexts }
    {
        Contexts([false; 9])
    }

    // 1 where it is set.
    pub(crate) fn bit(&self, place: u8) -> u8
        requires { place < 9 }
        ensures { result ≡ bit_of (is_set self.now.0 place) }
    {
        self.0[place as usize] as u8
    }

    pub(crate) fn set(&mut self, place: u8, has_coefficients: bool)
        requires { place < 9 }
        ensures { self.new.0 ≡ slice_set self.old.0 place has_coefficients }
    {
        self.0[place as usize] = has_coefficients;
    }

    // What a skipped macroblock leaves: without Y2 that of Y2 stays.
    pub(crate) fn clear(&mut self, has_y2: bool)
        ensures { self.new.0 ≡ cleared has_y2 self.old.0 }
    {
        let y2 = !has_y2 && self.0[8];
        self.0 = [false; 9];
        self.0[8] = y2;
    }
}
