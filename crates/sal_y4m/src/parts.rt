//! The parts of a picture, read one after the other.

ghost use Rattle.std.specs.Prelude.{is_some, ◌≡◌, ◌≢◌, ◌*◌, ◌+◌, length, IfOk, IfSome, OnOk, Err};
ghost use Rattle.sal_base.specs.Picture.{IsPlane, IsPicture};
ghost use Rattle.sal_io.specs.Calls.{HasCause};
ghost use Rattle.sal_io.specs.Told.{TakesUpTo};
ghost use Rattle.sal_y4m.specs.Grammar.{is_mark, samples_of};
ghost use Rattle.sal_y4m.specs.Answers.{counted, Counts, NextGives, PictureUnread};
ghost use Rattle.sal_y4m.specs.Parts.{PlaneGives, PlanesGive, MarkGives};

use crate::fault::{Why, Y4mFault};
use crate::head::Head;
use crate::line::{LineRead, read_line};
use sal_base::{Bytes, Picture, Plane};
use sal_io::{Filled, Source, fill};

/// A count of bytes and so many more, which stays at the greatest u64.
pub fn counted(before: u64, more: usize) -> u64
    ensures { result ≡ counted before more }
{
    before.saturating_add(more as u64)
}

// The samples of a plane, read over those that are there; the place moves by them.
fn read_plane<S: Source>(
    source: &mut S,
    samples: Bytes,
    width: u16,
    height: u16,
    place: &mut u64,
) -> Result<Plane, Y4mFault>
    requires room { length samples ≡ width * height }
    ensures told { PlaneGives width height place.old place.new (S.left source.old) (S.left source.new) result }
    ensures front { TakesUpTo (width * height) (S.left source.old) (S.left source.new) }
    ensures whole { IfOk result (IsPlane width height) }
    ensures never { result ≢ Err Y4mFault.Memory }
    ensures cause { HasCause (Err Y4mFault.ReadFault) (S.faults source.old) (S.faults source.new) result }
    ensures name { S.name source.new ≡ S.name source.old }
    ensures had { S.had source.new ≡ S.had source.old }
    ensures tells { is_some (S.left source.new) ≡ is_some (S.left source.old) }
{
    let mut samples = samples.into_vec();
    let count = samples.len();
    match fill(source, samples.as_mut_slice()) {
        Filled::Full => {}
        Filled::Short(found) => return Err(Y4mFault::Bad(counted(*place, found), Why::Cut)),
        Filled::Failed => return Err(Y4mFault::ReadFault),
    }
    *place = counted(*place, count);
    Ok(Plane {
        width,
        height,
        samples: Bytes::from_vec(samples),
    })
}

// The samples of a picture, in the planes of a blank one.
fn read_planes<S: Source>(
    source: &mut S,
    head: Head,
    blank: Picture,
    place: &mut u64,
) -> Result<Picture, Y4mFault>
    requires whole { IsPicture blank }
    requires width { blank.width ≡ head.width }
    requires height { blank.height ≡ head.height }
    ensures told { PlanesGive head place.old place.new (S.left source.old) (S.left source.new) result }
    ensures front { TakesUpTo (samples_of head.width head.height) (S.left source.old) (S.left source.new) }
    ensures picture { IfOk result IsPicture }
    ensures width { IfOk result (λ p. p.width ≡ head.width) }
    ensures height { IfOk result (λ p. p.height ≡ head.height) }
    ensures never { result ≢ Err Y4mFault.Memory }
    ensures cause { HasCause (Err Y4mFault.ReadFault) (S.faults source.old) (S.faults source.new) result }
    ensures name { S.name source.new ≡ S.name source.old }
    ensures had { S.had source.new ≡ S.had source.old }
    ensures tells { is_some (S.left source.new) ≡ is_some (S.left source.old) }
{
    let (width, height) = (head.width.div_ceil(2), head.height.div_ceil(2));
    let y = read_plane(source, blank.y.samples, head.width, head.height, place)?;
    let u = read_plane(source, blank.u.samples, width, height, place)?;
    let v = read_plane(source, blank.v.samples, width, height, place)?;
    Ok(Picture {
        width: head.width,
        height: head.height,
        y,
        u,
        v,
    })
}

// The line before a picture, or the end.
enum Mark {
    Frame,
    End,
    Bad(u64, Why),
    Failed,
}

// Whether a line is a FRAME line.
fn is_mark(line: &[u8]) -> bool
    ensures { result ≡ is_mark line.now }
{
    line == b"FRAME".as_slice() || line.strip_prefix(b"FRAME ").is_some()
}

// The line before a picture; the place moves by it and its newline.
fn read_mark<S: Source>(source: &mut S, place: &mut u64) -> Mark
    ensures told { MarkGives place.old place.new (S.left source.old) (S.left source.new) result }
    ensures front { TakesUpTo 256 (S.left source.old) (S.left source.new) }
    ensures cause { HasCause Mark.Failed (S.faults source.old) (S.faults source.new) result }
    ensures name { S.name source.new ≡ S.name source.old }
    ensures had { S.had source.new ≡ S.had source.old }
    ensures tells { is_some (S.left source.new) ≡ is_some (S.left source.old) }
{
    let start = *place;
    let mut line = [0u8; 256];
    match read_line(source, &mut line) {
        LineRead::Whole(count) => {
            if is_mark(&line[..count]) {
                *place = counted(start, count + 1);
                Mark::Frame
            } else {
                Mark::Bad(start, Why::Frame)
            }
        }
        LineRead::Long => Mark::Bad(start, Why::Line),
        LineRead::Ended(0) => Mark::End,
        LineRead::Ended(count) => Mark::Bad(counted(start, count), Why::Cut),
        LineRead::Failed => Mark::Failed,
    }
}

/// The next picture, in the planes of a blank one; None at the end. The place moves by the bytes of what is read.
pub fn read_picture<S: Source>(
    source: &mut S,
    head: Head,
    blank: Picture,
    place: &mut u64,
) -> Result<Option<Picture>, Y4mFault>
    requires whole { IsPicture blank }
    requires width { blank.width ≡ head.width }
    requires height { blank.height ≡ head.height }
    ensures told { NextGives head place.old (S.left source.old) (S.left source.new) result }
    ensures unread { result ≡ Err Y4mFault.ReadFault → PictureUnread head (S.left source.old) (S.left source.new) }
    ensures count { OnOk result (Counts place.old place.new (S.left source.old) (S.left source.new)) }
    ensures front { TakesUpTo (256 + samples_of head.width head.height) (S.left source.old) (S.left source.new) }
    ensures picture { IfOk result (λ found. IfSome found IsPicture) }
    ensures width { IfOk result (λ found. IfSome found (λ p. p.width ≡ head.width)) }
    ensures height { IfOk result (λ found. IfSome found (λ p. p.height ≡ head.height)) }
    ensures never { result ≢ Err Y4mFault.Memory }
    ensures cause { HasCause (Err Y4mFault.ReadFault) (S.faults source.old) (S.faults source.new) result }
    ensures name { S.name source.new ≡ S.name source.old }
    ensures had { S.had source.new ≡ S.had source.old }
    ensures tells { is_some (S.left source.new) ≡ is_some (S.left source.old) }
{
    match read_mark(source, place) {
        Mark::Frame => {}
        Mark::End => return Ok(None),
        Mark::Bad(place, why) => return Err(Y4mFault::Bad(place, why)),
        Mark::Failed => return Err(Y4mFault::ReadFault),
    }
    let picture = read_planes(source, head, blank, place)?;
    Ok(Some(picture))
}
