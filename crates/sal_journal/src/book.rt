//! A journal that is written.

ghost use Rattle.std.specs.Prelude.{◌≡◌, [], true, IfSome};
ghost use Rattle.sal_journal.specs.Counted.{IsCounted};

use crate::writing::write_event;
use sal_io::{Put, Sink, put_all};
use sal_world::{Diary, DiaryFault, Line};
use std::alloc::Global;

// A journal has at most so many bytes.
const MOST_JOURNAL: u64 = 1_073_741_824;

/// A diary whose lines are written to a sink, one after the other.
#[derive(Drop)]
pub struct Book<K> {
    alloc: Global,
    sink: K,
    // How many bytes of lines were written, as long as none failed.
    written: u64,
}

impl<K: Sink> Book<K> {
    /// A book with no line yet; it counts its lines where the sink holds nothing. It takes no memory.
    pub fn new(alloc: Global, sink: K) -> Self
        ensures sink { result.sink ≡ sink }
        ensures counted { IfSome (K.held sink) (λ text. text ≡ []) → IsCounted (K.held sink) result.written }
    {
        Book {
            alloc,
            sink,
            written: 0,
        }
    }
}

impl<K> Book<K> {
    /// The sink, with the lines.
    pub fn into_sink(self) -> K
        ensures { result ≡ self.sink }
    {
        self.sink
    }
}

impl<K: Sink> Diary for Book<K> {
    ghost gives = { λ fault. true };

    ghost faults = { λ b. K.faults b.sink };

    ghost name = { λ b. K.name b.sink };

    ghost text = { λ b. K.held b.sink };

    ghost is_counted = { λ b. IsCounted (K.held b.sink) b.written };

    fn faults(&self) -> u64 {
        self.sink.faults()
    }

    fn line(&mut self, line: &Line) -> Result<(), DiaryFault> {
        let Ok(mut text) = write_event(self.alloc, line) else {
            return Err(DiaryFault::Memory);
        };
        if text.push(b'\n').is_err() {
            return Err(DiaryFault::Memory);
        }
        let size = text.len() as u64;
        if size > MOST_JOURNAL.saturating_sub(self.written) {
            return Err(DiaryFault::TooLong);
        }
        match put_all(&mut self.sink, text.as_slice()) {
            Put::Done => {
                self.written += size;
                Ok(())
            }
            Put::Failed => Err(DiaryFault::Failed),
        }
    }
}
