//! One line of a source.

ghost use Rattle.std.specs.Prelude.{is_some, ◌≡◌, ◌≢◌, ◌<◌, [], length, IfSome};
ghost use Rattle.sal_io.specs.Calls.{HasCause};
ghost use Rattle.sal_io.specs.Lines.{LineGives, LineTakes};

use crate::traits::Source;
use crate::whole::{Filled, fill};

/// What reading a line came to.
#[derive(Clone, Copy, Debug, PartialEq, Eq)]
pub enum LineRead {
    /// So many bytes stand before the newline.
    Whole(usize),
    /// Nothing was left.
    End,
    /// The source ended, or the buffer is full, with no newline.
    Broken,
    /// The source failed.
    Failed,
}

/// Reads a line, whose newline is taken and not stored.
pub fn read_line<S: Source>(source: &mut S, line: &mut [u8]) -> LineRead
    ensures told { LineGives (S.left source.old) (S.left source.new) result line.new }
    ensures taken { LineTakes (S.left source.old) (S.left source.new) result line.new }
    ensures some { result ≡ LineRead.Broken → 0 < length line.new → IfSome (S.left source.old) (λ xs. xs ≢ []) }
    ensures cause { HasCause LineRead.Failed (S.faults source.old) (S.faults source.new) result }
    ensures name { S.name source.new ≡ S.name source.old }
    ensures had { S.had source.new ≡ S.had source.old }
    ensures tells { is_some (S.left source.new) ≡ is_some (S.left source.old) }
{
    for i in 0..line.len() {
        let mut one = [0u8; 1];
        match fill(source, &mut one) {
            Filled::Full => {}
            Filled::Short(_) => {
                if i == 0 {
                    return LineRead::End;
                }
                return LineRead::Broken;
            }
            Filled::Failed => return LineRead::Failed,
        }
        let byte = one[0];
        if byte == b'\n' {
            return LineRead::Whole(i);
        }
        line[i] = byte;
    }
    LineRead::Broken
}
