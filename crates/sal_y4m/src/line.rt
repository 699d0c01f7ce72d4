//! One line of the input.

ghost use Rattle.std.specs.Prelude.{is_some, ◌≡◌, length};
ghost use Rattle.sal_io.specs.Calls.{HasCause};
ghost use Rattle.sal_y4m.specs.Parts.{LineGives};

use sal_io::{Filled, Source, fill};

/// What reading a line came to.
#[derive(Clone, Copy, Debug, PartialEq, Eq)]
pub enum LineRead {
    /// So many bytes stand before the newline.
    Whole(usize),
    /// The buffer is full, with no newline.
    Long,
    /// So many bytes were left, with no newline.
    Ended(usize),
    /// The source failed.
    Failed,
}

/// Reads a line, whose newline is taken and not stored.
pub fn read_line<S: Source>(source: &mut S, line: &mut [u8]) -> LineRead
    ensures told { LineGives (S.left source.old) (S.left source.new) result line.new }
    ensures cause { HasCause LineRead.Failed (S.faults source.old) (S.faults source.new) result }
    ensures name { S.name source.new ≡ S.name source.old }
    ensures had { S.had source.new ≡ S.had source.old }
    ensures tells { is_some (S.left source.new) ≡ is_some (S.left source.old) }
    ensures len { length line.new ≡ length line.old }
{
    for i in 0..line.len() {
        let mut one = [0u8; 1];
        match fill(source, &mut one) {
            Filled::Full => {}
            Filled::Short(_) => return LineRead::Ended(i),
            Filled::Failed => return LineRead::Failed,
        }
        let byte = one[0];
        if byte == b'\n' {
            return LineRead::Whole(i);
        }
        line[i] = byte;
    }
    LineRead::Long
}
