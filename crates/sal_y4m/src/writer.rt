//! A writer of pictures.

ghost use Rattle.std.specs.Prelude.{is_some, is_err, ◌≡◌, true, false, IsErr};
ghost use Rattle.std.specs.List.{flat_map};
ghost use Rattle.sal_io.specs.Calls.{ErrHasCause};
ghost use Rattle.sal_y4m.specs.Grammar.{header_line, head_text, picture_text};
ghost use Rattle.sal_y4m.specs.Answers.{Writes};

use crate::fault::WriteFault;
use crate::head::Head;
use itoa::Buffer;
use sal_base::Picture;
use sal_io::{Put, Sink, put_parts};

/// Writes the header line, and then the pictures. After a WriteFault it answers that again, and writes no more.
#[derive(Drop)]
pub struct Writer<K> {
    sink: K,
    failed: bool,
}

fn put<K: Sink>(sink: &mut K, parts: &[&[u8]]) -> Result<(), WriteFault>
    ensures told { Writes (K.held sink.old) (K.held sink.new) result (flat_map (λ part. part.now) parts.now) }
    ensures cause { ErrHasCause (K.faults sink.old) (K.faults sink.new) result }
    ensures name { K.name sink.new ≡ K.name sink.old }
    ensures tells { is_some (K.held sink.new) ≡ is_some (K.held sink.old) }
{
    match put_parts(sink, parts) {
        Put::Done => Ok(()),
        Put::Failed => Err(WriteFault),
    }
}

// The header line of these digits.
fn put_line<K: Sink>(
    sink: &mut K,
    width: &[u8],
    height: &[u8],
    pictures: &[u8],
    seconds: &[u8],
) -> Result<(), WriteFault>
    ensures told { Writes (K.held sink.old) (K.held sink.new) result (header_line width.now height.now pictures.now seconds.now) }
    ensures cause { ErrHasCause (K.faults sink.old) (K.faults sink.new) result }
    ensures name { K.name sink.new ≡ K.name sink.old }
    ensures tells { is_some (K.held sink.new) ≡ is_some (K.held sink.old) }
{
    let parts: [&[u8]; 9] = [
        b"YUV4MPEG2 W",
        width,
        b" H",
        height,
        b" F",
        pictures,
        b":",
        seconds,
        b" Ip A0:0 C420jpeg\n",
    ];
    put(sink, &parts)
}

fn put_head<K: Sink>(sink: &mut K, head: Head) -> Result<(), WriteFault>
    ensures told { Writes (K.held sink.old) (K.held sink.new) result (head_text head) }
    ensures cause { ErrHasCause (K.faults sink.old) (K.faults sink.new) result }
    ensures name { K.name sink.new ≡ K.name sink.old }
    ensures tells { is_some (K.held sink.new) ≡ is_some (K.held sink.old) }
{
    let mut width = Buffer::new();
    let mut height = Buffer::new();
    let mut pictures = Buffer::new();
    let mut seconds = Buffer::new();
    put_line(
        sink,
        width.format(head.width).as_bytes(),
        height.format(head.height).as_bytes(),
        pictures.format(head.rate.0).as_bytes(),
        seconds.format(head.rate.1).as_bytes(),
    )
}

fn put_picture<K: Sink>(sink: &mut K, picture: &Picture) -> Result<(), WriteFault>
    ensures told { Writes (K.held sink.old) (K.held sink.new) result (picture_text picture.now) }
    ensures cause { ErrHasCause (K.faults sink.old) (K.faults sink.new) result }
    ensures name { K.name sink.new ≡ K.name sink.old }
    ensures tells { is_some (K.held sink.new) ≡ is_some (K.held sink.old) }
{
    let parts = [
        b"FRAME\n".as_slice(),
        picture.y.samples.as_slice(),
        picture.u.samples.as_slice(),
        picture.v.samples.as_slice(),
    ];
    put(sink, &parts)
}

impl<K> Writer<K> {
    /// A writer that has written nothing yet.
    pub fn new(sink: K) -> Self
        ensures sink { result.sink ≡ sink }
        ensures fresh { result.failed ≡ false }
    {
        Writer {
            sink,
            failed: false,
        }
    }

    /// The sink, with what was written.
    pub fn into_sink(self) -> K
        ensures { result ≡ self.sink }
    {
        self.sink
    }
}

impl<K: Sink> Writer<K> {
    /// Writes the header line. Where it fails, a front of the line was written.
    pub fn open(&mut self, head: Head) -> Result<(), WriteFault>
        ensures again { self.old.failed ≡ true → IsErr result }
        ensures rests { self.old.failed ≡ true → self.new ≡ self.old }
        ensures told { Writes (K.held self.old.sink) (K.held self.new.sink) result (head_text head) }
        ensures cause { self.old.failed ≡ false → ErrHasCause (K.faults self.old.sink) (K.faults self.new.sink) result }
        ensures kept { self.new.failed ≡ is_err result }
        ensures name { K.name self.new.sink ≡ K.name self.old.sink }
        ensures tells { is_some (K.held self.new.sink) ≡ is_some (K.held self.old.sink) }
    {
        if self.failed {
            return Err(WriteFault);
        }
        let written = put_head(&mut self.sink, head);
        self.failed = written.is_err();
        written
    }

    /// Writes a picture. Where it fails, a front of its text was written.
    pub fn put(&mut self, picture: &Picture) -> Result<(), WriteFault>
        ensures again { self.old.failed ≡ true → IsErr result }
        ensures rests { self.old.failed ≡ true → self.new ≡ self.old }
        ensures told { Writes (K.held self.old.sink) (K.held self.new.sink) result (picture_text picture.now) }
        ensures cause { self.old.failed ≡ false → ErrHasCause (K.faults self.old.sink) (K.faults self.new.sink) result }
        ensures kept { self.new.failed ≡ is_err result }
        ensures name { K.name self.new.sink ≡ K.name self.old.sink }
        ensures tells { is_some (K.held self.new.sink) ≡ is_some (K.held self.old.sink) }
    {
        if self.failed {
            return Err(WriteFault);
        }
        let done = put_picture(&mut self.sink, picture);
        self.failed = done.is_err();
        done
    }
}
