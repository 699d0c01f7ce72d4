//! A reader of pictures.

ghost use Rattle.std.specs.Prelude.{is_some, ◌≡◌, ◌≢◌, ◌+◌, length, drop, IsTrue, OnOk, OnErr, IfOk, IfSome, Err, None};
ghost use Rattle.std.specs.Option.{ForSome, ForNone};
ghost use Rattle.sal_base.specs.Picture.{IsPicture};
ghost use Rattle.sal_io.specs.Calls.{HasCause};
ghost use Rattle.sal_io.specs.Told.{TakesUpTo};
ghost use Rattle.sal_y4m.specs.Head.{IsHead};
ghost use Rattle.sal_y4m.specs.Grammar.{begins_header, magic, samples_of};
ghost use Rattle.sal_y4m.specs.Parameters.{head_of};
ghost use Rattle.sal_y4m.specs.Parts.{line_head_of};
ghost use Rattle.sal_y4m.specs.Answers.{Counts, HeadGives, NextGives, OpenGives, HeaderUnread, PictureUnread, lasting};

use crate::fault::{Why, Y4mFault};
use crate::head::{Head, MAGIC, begins_header, head_of};
use crate::line::{LineRead, read_line};
use crate::parts::{counted, read_picture};
use sal_base::Picture;
use sal_io::Source;
use std::alloc::Global;

/// Reads the header line, and then the pictures. After Bad or ReadFault it answers that fault again, and reads no more.
#[derive(Drop)]
pub struct Reader<S> {
    source: S,
    head: Head,
    // How many bytes were taken.
    place: u64,
    kept: Option<Y4mFault>,
}

// The head of a line without its newline, which begins with the word at this place.
fn line_head(line: &[u8], start: u64) -> Result<Head, Y4mFault>
    requires { IsTrue (begins_header line.now) }
    ensures value { result ≡ line_head_of start line.now (head_of (drop (length magic) line.now)) }
    ensures legal { IfOk result IsHead }
    ensures never { result ≢ Err Y4mFault.Memory }
    ensures reads { result ≢ Err Y4mFault.ReadFault }
{
    match head_of(&line[MAGIC.len()..]) {
        Ok(head) => Ok(head),
        Err(flaw) => Err(Y4mFault::Bad(counted(start, line.len() - flaw.left), flaw.why)),
    }
}

// The header line; the place moves by it and its newline.
fn read_head<S: Source>(source: &mut S, place: &mut u64) -> Result<Head, Y4mFault>
    ensures told { HeadGives place.old (S.left source.old) (S.left source.new) result }
    ensures unread { result ≡ Err Y4mFault.ReadFault → HeaderUnread (S.left source.old) (S.left source.new) }
    ensures count { OnOk result (Counts place.old place.new (S.left source.old) (S.left source.new)) }
    ensures front { TakesUpTo 256 (S.left source.old) (S.left source.new) }
    ensures legal { IfOk result IsHead }
    ensures never { result ≢ Err Y4mFault.Memory }
    ensures cause { HasCause (Err Y4mFault.ReadFault) (S.faults source.old) (S.faults source.new) result }
    ensures name { S.name source.new ≡ S.name source.old }
    ensures had { S.had source.new ≡ S.had source.old }
    ensures tells { is_some (S.left source.new) ≡ is_some (S.left source.old) }
{
    let start = *place;
    let mut line = [0u8; 256];
    match read_line(source, &mut line) {
        LineRead::Whole(count) => {
            if !begins_header(&line[..count]) {
                return Err(Y4mFault::Bad(start, Why::Magic));
            }
            let head = line_head(&line[..count], start)?;
            *place = counted(start, count + 1);
            Ok(head)
        }
        LineRead::Long => {
            if begins_header(&line) {
                Err(Y4mFault::Bad(start, Why::Line))
            } else {
                Err(Y4mFault::Bad(start, Why::Magic))
            }
        }
        LineRead::Ended(count) => {
            if begins_header(&line[..count]) {
                Err(Y4mFault::Bad(counted(start, count), Why::Cut))
            } else {
                Err(Y4mFault::Bad(start, Why::Magic))
            }
        }
        LineRead::Failed => Err(Y4mFault::ReadFault),
    }
}

impl<S> Reader<S> {
    /// A reader that has read nothing yet; its head is that of pictures of one sample.
    pub fn new(source: S) -> Self
        ensures source { result.source ≡ source }
        ensures head { result.head ≡ record { width = 1; height = 1; rate = (30, 1) } }
        ensures place { result.place ≡ 0 }
        ensures fresh { result.kept ≡ None }
    {
        Reader {
            source,
            head: Head {
                width: 1,
                height: 1,
                rate: (30, 1),
            },
            place: 0,
            kept: None,
        }
    }

    /// The source, as it stands.
    pub fn into_source(self) -> S
        ensures { result ≡ self.source }
    {
        self.source
    }

    /// The head of the clip, once `open` was Ok.
    pub fn head(&self) -> Head
        ensures { result ≡ self.now.head }
    {
        self.head
    }
}

impl<S: Source> Reader<S> {
    /// Reads the header line. It takes no memory and never lacks it. Whatever it answers, it takes no more than the 256
    /// bytes of the longest line.
    #[tactic(auto, using(sal_io::proofs::ToldLemmas::takes_none))]
    pub fn open(&mut self) -> Result<(), Y4mFault>
        ensures again { ForSome self.old.kept (λ fault. result ≡ Err fault) }
        ensures rests { ForSome self.old.kept (λ fault. self.new ≡ self.old) }
        ensures told { ForNone self.old.kept (OpenGives self.old.place (S.left self.old.source) (S.left self.new.source) result self.new.head) }
        ensures unread { ForNone self.old.kept (result ≡ Err Y4mFault.ReadFault → HeaderUnread (S.left self.old.source) (S.left self.new.source)) }
        ensures count { OnOk result (Counts self.old.place self.new.place (S.left self.old.source) (S.left self.new.source)) }
        ensures front { TakesUpTo 256 (S.left self.old.source) (S.left self.new.source) }
        ensures never { ForNone self.old.kept (result ≢ Err Y4mFault.Memory) }
        ensures cause { ForNone self.old.kept (HasCause (Err Y4mFault.ReadFault) (S.faults self.old.source) (S.faults self.new.source) result) }
        ensures kept { ForNone self.old.kept (self.new.kept ≡ lasting result) }
        ensures legal { OnOk result (IsHead self.new.head) }
        ensures head { OnErr result (self.new.head ≡ self.old.head) }
        ensures name { S.name self.new.source ≡ S.name self.old.source }
        ensures had { S.had self.new.source ≡ S.had self.old.source }
        ensures tells { is_some (S.left self.new.source) ≡ is_some (S.left self.old.source) }
    {
        if let Some(fault) = self.kept {
            return Err(fault);
        }
        match read_head(&mut self.source, &mut self.place) {
            Ok(head) => {
                self.head = head;
                Ok(())
            }
            Err(fault) => {
                self.kept = Some(fault);
                Err(fault)
            }
        }
    }

    /// Reads the next picture; None at the end, on a boundary between pictures. Where memory is lacking nothing is read,
    /// and it may be asked again. Whatever it answers, it takes no more than the bytes
    /// of a picture.
    #[tactic(auto, using(sal_io::proofs::ToldLemmas::takes_none))]
    pub fn next(&mut self, alloc: Global) -> Result<Option<Picture>, Y4mFault>
        ensures again { ForSome self.old.kept (λ fault. result ≡ Err fault) }
        ensures rests { ForSome self.old.kept (λ fault. self.new ≡ self.old) }
        ensures told { ForNone self.old.kept (NextGives self.old.head self.old.place (S.left self.old.source) (S.left self.new.source) result) }
        ensures unread { ForNone self.old.kept (result ≡ Err Y4mFault.ReadFault → PictureUnread self.old.head (S.left self.old.source) (S.left self.new.source)) }
        ensures count { OnOk result (Counts self.old.place self.new.place (S.left self.old.source) (S.left self.new.source)) }
        ensures front { TakesUpTo (256 + samples_of self.old.head.width self.old.head.height) (S.left self.old.source) (S.left self.new.source) }
        ensures cause { ForNone self.old.kept (HasCause (Err Y4mFault.ReadFault) (S.faults self.old.source) (S.faults self.new.source) result) }
        ensures kept { ForNone self.old.kept (self.new.kept ≡ lasting result) }
        ensures memory { result ≡ Err Y4mFault.Memory → self.new ≡ self.old }
        ensures picture { IfOk result (λ found. IfSome found IsPicture) }
        ensures width { IfOk result (λ found. IfSome found (λ p. p.width ≡ self.old.head.width)) }
        ensures height { IfOk result (λ found. IfSome found (λ p. p.height ≡ self.old.head.height)) }
        ensures head { self.new.head ≡ self.old.head }
        ensures name { S.name self.new.source ≡ S.name self.old.source }
        ensures had { S.had self.new.source ≡ S.had self.old.source }
        ensures tells { is_some (S.left self.new.source) ≡ is_some (S.left self.old.source) }
    {
        if let Some(fault) = self.kept {
            return Err(fault);
        }
        // Before anything is read: an open head's sides are within the limits, so memory alone can be lacking.
        let Ok(blank) = Picture::new(alloc, self.head.width, self.head.height, 0) else {
            return Err(Y4mFault::Memory);
        };
        let found = read_picture(&mut self.source, self.head, blank, &mut self.place);
        if let Err(fault) = &found {
            self.kept = Some(*fault);
        }
        found
    }
}
