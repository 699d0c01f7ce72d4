//! The pictures of the input.

ghost use Rattle.std.specs.Prelude.{◌≡◌, ◌+◌, ◌<◌, is_some, Some, None, IfOk, IfErr, IfSome, OnOk, Ok, Err};
ghost use Rattle.sal_base.specs.Picture.{AreSides};
ghost use Rattle.sal_codec.specs.Coding.{HasSides};
ghost use Rattle.sal_io.specs.Calls.{HasCause};
ghost use Rattle.sal_y4m.specs.Grammar.{samples_of};
ghost use Rattle.sal_run.specs.Clip.{fitting, most};
ghost use Rattle.sal_run.specs.Place.{Carries};
ghost use Rattle.sal_run.specs.Input.{TakeGives, FinishGives, IsOverStop};

use crate::stop::{RunStop, stop_of};
use sal_base::Picture;
use sal_io::Source;
use sal_y4m::{Head, Reader};
use std::alloc::Global;

/// A session has at most so many pictures.
const MOST_PICTURES: u32 = 1_048_575;

/// A session has at most so many bytes of samples.
const MOST_SAMPLES: u32 = 1_073_741_824;

/// How many pictures were taken, and how many more a session takes.
#[derive(Clone, Copy, Debug, PartialEq, Eq)]
pub(crate) struct Feed {
    pub taken: u32,
    pub room: u32,
}

/// How many samples the planes of some sides have.
fn samples_of(width: u32, height: u32) -> u32
    requires { AreSides width height }
    ensures value { result ≡ samples_of width height }
    ensures some { 0 < result }
{
    width * height + 2 * (width.div_ceil(2) * height.div_ceil(2))
}

/// How many pictures have few enough samples.
fn fitting(head: Head) -> u32
    requires { AreSides head.width head.height }
    ensures { result ≡ fitting head }
{
    MOST_SAMPLES / samples_of(u32::from(head.width), u32::from(head.height))
}

/// How many pictures a session takes.
pub(crate) fn most(head: Head) -> u32
    requires { AreSides head.width head.height }
    ensures { result ≡ most head }
{
    MOST_PICTURES.min(fitting(head))
}

/// Why a run stops that comes to one picture more.
fn over(head: Head) -> RunStop
    requires { AreSides head.width head.height }
    ensures { IsOverStop head result }
{
    if MOST_PICTURES <= fitting(head) {
        RunStop::TooMany
    } else {
        RunStop::TooLong
    }
}

/// Counts a picture, if there is room for it.
fn admit(head: Head, picture: Picture, feed: &mut Feed) -> Result<Option<Picture>, RunStop>
    requires { AreSides head.width head.height }
    ensures found { IfOk result (λ found. found ≡ Some picture) }
    ensures room { OnOk result (feed.new.room + 1 ≡ feed.old.room) }
    ensures over { IfErr result (λ stop. (feed.old.room ≡ 0) × IsOverStop head stop) }
{
    if feed.room == 0 {
        return Err(over(head));
    }
    feed.room -= 1;
    feed.taken = feed.taken.saturating_add(1);
    Ok(Some(picture))
}

/// The next picture; None at the end.
pub(crate) fn take<S: Source>(
    alloc: Global,
    pictures: &mut Reader<S>,
    feed: &mut Feed,
) -> Result<Option<Picture>, RunStop>
    requires fresh { pictures.old.kept ≡ None }
    requires sides { AreSides pictures.old.head.width pictures.old.head.height }
    ensures told { TakeGives pictures.old.head pictures.old.place feed.old.room (S.left pictures.old.source) (S.left pictures.new.source) result }
    ensures places { OnOk result (Carries pictures.old.place (S.left pictures.old.source) pictures.new.place (S.left pictures.new.source)) }
    ensures room { IfOk result (λ found. IfSome found (λ p. feed.new.room + 1 ≡ feed.old.room)) }
    ensures size { IfOk result (λ found. IfSome found (HasSides pictures.old.head.width pictures.old.head.height)) }
    ensures cause { HasCause (Err RunStop.ReadFault) (S.faults pictures.old.source) (S.faults pictures.new.source) result }
    ensures fresh { OnOk result (pictures.new.kept ≡ None) }
    ensures head { pictures.new.head ≡ pictures.old.head }
    ensures name { S.name pictures.new.source ≡ S.name pictures.old.source }
    ensures had { S.had pictures.new.source ≡ S.had pictures.old.source }
    ensures tells { is_some (S.left pictures.new.source) ≡ is_some (S.left pictures.old.source) }
{
    match pictures.next(alloc) {
        Ok(Some(picture)) => admit(pictures.head(), picture, feed),
        Ok(None) => Ok(None),
        Err(fault) => Err(stop_of(fault)),
    }
}

/// Reads the pictures that are left.
pub(crate) fn finish<S: Source>(
    alloc: Global,
    pictures: &mut Reader<S>,
    feed: &mut Feed,
) -> Result<(), RunStop>
    requires fresh { pictures.old.kept ≡ None }
    requires sides { AreSides pictures.old.head.width pictures.old.head.height }
    ensures told { FinishGives pictures.old.head pictures.old.place feed.old.room (S.left pictures.old.source) (S.left pictures.new.source) result }
    ensures cause { HasCause (Err RunStop.ReadFault) (S.faults pictures.old.source) (S.faults pictures.new.source) result }
    ensures name { S.name pictures.new.source ≡ S.name pictures.old.source }
    ensures had { S.had pictures.new.source ≡ S.had pictures.old.source }
    ensures tells { is_some (S.left pictures.new.source) ≡ is_some (S.left pictures.old.source) }
{
    while let Some(_picture) = take(alloc, pictures, feed)? {}
    Ok(())
}
