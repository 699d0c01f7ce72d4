//! All that a source has left, up to a limit.

ghost use Rattle.std.specs.Prelude.{is_some, ◌≡◌, ◌+◌, length, IfOk};
ghost use Rattle.sal_io.specs.Calls.{HasCause, AllGives};
ghost use Rattle.sal_io.specs.Told.{TakesUpTo};

use crate::answers::Took;
use crate::traits::Source;
use sal_base::Bytes;
use std::alloc::{AllocError, Global};

/// What reading all came to.
#[derive(Debug, Drop)]
pub enum Contents {
    /// All that was left, no more than the limit.
    All(Bytes),
    /// More than the limit: these bytes came, and others may be left.
    More(Bytes),
    /// The source failed.
    Failed,
    /// There is no memory.
    Memory,
}

// How many bytes are asked for at once.
const PIECE: usize = 65536;

// Room for so many bytes.
fn room(alloc: Global, count: usize) -> Result<Vec<u8>, AllocError>
    ensures { IfOk result (λ v. length v.items ≡ count) }
{
    vec![in alloc; 0u8; count].map_err(|_| AllocError)
}

/// Reads until the source ends, or until more than `most` bytes came. Whatever it answers, it takes no more than one
/// piece of 65,536 bytes past the limit.
pub fn read_all<S: Source>(alloc: Global, source: &mut S, most: usize) -> Contents
    ensures bytes { AllGives (S.left source.old) (S.left source.new) result most }
    ensures limit { TakesUpTo (most + 65536) (S.left source.old) (S.left source.new) }
    ensures cause { HasCause Contents.Failed (S.faults source.old) (S.faults source.new) result }
    ensures name { S.name source.new ≡ S.name source.old }
    ensures had { S.had source.new ≡ S.had source.old }
    ensures tells { is_some (S.left source.new) ≡ is_some (S.left source.old) }
{
    let mut bytes = Bytes::new(alloc);
    let Ok(mut piece) = room(alloc, PIECE) else {
        return Contents::Memory;
    };
    while bytes.len() <= most {
        match source.read(piece.as_mut_slice()) {
            Took::Got(count) => {
                if bytes.extend(&piece[..count]).is_err() {
                    return Contents::Memory;
                }
            }
            Took::End => return Contents::All(bytes),
            Took::Failed => return Contents::Failed,
        }
    }
    Contents::More(bytes)
}
