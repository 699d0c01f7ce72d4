//! The lines of a script over the pictures of a clip.

ghost use Rattle.std.specs.Prelude.{◌≡◌, ◌≢◌, ◌≤◌, ◌*◌, ◌/◌, ◌∷◌, [], is_some, false, ℕ, List, Option, Some, None, OnOk, Ok, Err};
ghost use Rattle.sal_io.specs.Calls.{HasCause};
ghost use Rattle.sal_y4m.specs.Head.{IsHead};
ghost use Rattle.sal_script.specs.declared.line.ScriptLine.TheVariants.{Rest};
ghost use Rattle.sal_y4m.specs.declared.head.Head.{Head as HeadData};
ghost use Rattle.sal_world.specs.Script.{Run, is_number};
ghost use Rattle.sal_run.specs.Place.{Carries};
ghost use Rattle.sal_run.specs.Running.{IsAt};
ghost use Rattle.sal_run.specs.Input.{LineGoes, LinesGo, next_said};

use crate::input::{Feed, take};
use crate::play::Play;
use crate::stop::RunStop;
use sal_codec::Codec;
use sal_io::{Sink, Source};
use sal_script::ScriptLine;
use sal_world::{Diary, DiaryFault};
use sal_y4m::{Head, Reader, Writer};

/// Takes the next picture, and starts, encodes and chooses it.
fn next<C: Codec, S: Source, J: Diary>(
    play: &mut Play<C>,
    number: u32,
    late: bool,
    pictures: &mut Reader<S>,
    feed: &mut Feed,
    journal: &mut J,
) -> Result<(), RunStop>
    requires fresh { pictures.old.kept ≡ None }
    requires legal { IsHead pictures.old.head }
    requires runs { (r : Run C.State) × ((held : Option (List ℕ)) × IsAt C.coding pictures.old.head play.old.stage.world play.old.downs play.old.ups held r) }
    ensures goes { (r : Run C.State) (held : Option (List ℕ)) → IsAt C.coding pictures.old.head play.old.stage.world play.old.downs play.old.ups held r → LineGoes C.coding pictures.old.head J.gives pictures.old.place (number, next_said late) feed.old.room feed.new.room (S.left pictures.old.source) (S.left pictures.new.source) play.new.stage.world play.new.downs play.new.ups held r result }
    ensures cause { HasCause (Err RunStop.ReadFault) (S.faults pictures.old.source) (S.faults pictures.new.source) result }
    ensures journal_cause { HasCause (Err (RunStop.Diary DiaryFault.Failed)) (J.faults journal.old) (J.faults journal.new) result }
    ensures never { result ≢ Err RunStop.Out }
    ensures places { OnOk result (Carries pictures.old.place (S.left pictures.old.source) pictures.new.place (S.left pictures.new.source)) }
    ensures fresh { OnOk result (pictures.new.kept ≡ None) }
    ensures head { pictures.new.head ≡ pictures.old.head }
    ensures name { S.name pictures.new.source ≡ S.name pictures.old.source }
    ensures had { S.had pictures.new.source ≡ S.had pictures.old.source }
    ensures tells { is_some (S.left pictures.new.source) ≡ is_some (S.left pictures.old.source) }
{
    let alloc = play.stage.alloc;
    let Some(picture) = take(alloc, pictures, feed)? else {
        return Err(RunStop::BadScript(number));
    };
    play.next(feed.taken, late, picture, journal)
}

/// Whether a number is one of those up to the last.
fn is_number(which: u64, last: u64) -> bool
    ensures { result ≡ is_number which last }
{
    1 <= which && which <= last
}

/// The datagram that a line names comes to the receiver.
fn down<C: Codec, K: Sink, J: Diary>(
    play: &mut Play<C>,
    number: u32,
    which: u32,
    out: &mut Writer<K>,
    journal: &mut J,
) -> Result<(), RunStop>
    requires open { out.old.failed ≡ false }
    requires runs { (head : HeadData) × ((r : Run C.State) × IsAt C.coding head play.old.stage.world play.old.downs play.old.ups (K.held out.old.sink) r) }
    ensures goes { (head : HeadData) (before m : ℕ) (left : Option (List ℕ)) (r : Run C.State) → IsAt C.coding head play.old.stage.world play.old.downs play.old.ups (K.held out.old.sink) r → LineGoes C.coding head J.gives before (number, ScriptLine.Down which) m m left left play.new.stage.world play.new.downs play.new.ups (K.held out.new.sink) r result }
    ensures open { OnOk result (out.new.failed ≡ false) }
    ensures out_cause { HasCause (Err RunStop.Out) (K.faults out.old.sink) (K.faults out.new.sink) result }
    ensures journal_cause { HasCause (Err (RunStop.Diary DiaryFault.Failed)) (J.faults journal.old) (J.faults journal.new) result }
    ensures unread { result ≢ Err RunStop.ReadFault }
    ensures out_name { K.name out.new.sink ≡ K.name out.old.sink }
    ensures out_tells { is_some (K.held out.new.sink) ≡ is_some (K.held out.old.sink) }
{
    let last = u64::from(play.stage.world.datagrams());
    if !is_number(u64::from(which), last) {
        return Err(RunStop::BadScript(number));
    }
    play.down(which, out, journal)
}

/// The acknowledgement that a line names comes back to the sender.
fn up<C: Codec, J: Diary>(
    play: &mut Play<C>,
    number: u32,
    which: u32,
    journal: &mut J,
) -> Result<(), RunStop>
    requires runs { (head : HeadData) × ((r : Run C.State) × ((held : Option (List ℕ)) × IsAt C.coding head play.old.stage.world play.old.downs play.old.ups held r)) }
    ensures goes { (head : HeadData) (before m : ℕ) (left : Option (List ℕ)) (r : Run C.State) (held : Option (List ℕ)) → IsAt C.coding head play.old.stage.world play.old.downs play.old.ups held r → LineGoes C.coding head J.gives before (number, ScriptLine.Up which) m m left left play.new.stage.world play.new.downs play.new.ups held r result }
    ensures journal_cause { HasCause (Err (RunStop.Diary DiaryFault.Failed)) (J.faults journal.old) (J.faults journal.new) result }
    ensures never { result ≢ Err RunStop.Out }
    ensures unread { result ≢ Err RunStop.ReadFault }
{
    let wanted = u64::from(which);
    if !is_number(wanted, play.stage.world.acks()) {
        return Err(RunStop::BadScript(number));
    }
    play.up(wanted, journal)
}

/// The time of one picture, in microseconds.
fn period(head: Head) -> u64
    requires { 1 ≤ head.rate.0 }
    ensures { result ≡ (1000000 * head.rate.1) / head.rate.0 }
{
    1_000_000 * u64::from(head.rate.1) / u64::from(head.rate.0)
}

/// Each picture left is sent, and all that comes of it is delivered, one period after the other.
fn rest<C: Codec, S: Source, K: Sink, J: Diary>(
    play: &mut Play<C>,
    pictures: &mut Reader<S>,
    feed: &mut Feed,
    out: &mut Writer<K>,
    journal: &mut J,
) -> Result<(), RunStop>
    requires fresh { pictures.old.kept ≡ None }
    requires legal { IsHead pictures.old.head }
    requires open { out.old.failed ≡ false }
    requires runs { (r : Run C.State) × IsAt C.coding pictures.old.head play.old.stage.world play.old.downs play.old.ups (K.held out.old.sink) r }
    ensures goes { (n : ℕ) (r : Run C.State) → IsAt C.coding pictures.old.head play.old.stage.world play.old.downs play.old.ups (K.held out.old.sink) r → LineGoes C.coding pictures.old.head J.gives pictures.old.place (n, Rest) feed.old.room feed.new.room (S.left pictures.old.source) (S.left pictures.new.source) play.new.stage.world play.new.downs play.new.ups (K.held out.new.sink) r result }
    ensures cause { HasCause (Err RunStop.ReadFault) (S.faults pictures.old.source) (S.faults pictures.new.source) result }
    ensures places { OnOk result (Carries pictures.old.place (S.left pictures.old.source) pictures.new.place (S.left pictures.new.source)) }
    ensures fresh { OnOk result (pictures.new.kept ≡ None) }
    ensures head { pictures.new.head ≡ pictures.old.head }
    ensures name { S.name pictures.new.source ≡ S.name pictures.old.source }
    ensures had { S.had pictures.new.source ≡ S.had pictures.old.source }
    ensures tells { is_some (S.left pictures.new.source) ≡ is_some (S.left pictures.old.source) }
    ensures open { OnOk result (out.new.failed ≡ false) }
    ensures out_cause { HasCause (Err RunStop.Out) (K.faults out.old.sink) (K.faults out.new.sink) result }
    ensures journal_cause { HasCause (Err (RunStop.Diary DiaryFault.Failed)) (J.faults journal.old) (J.faults journal.new) result }
    ensures out_name { K.name out.new.sink ≡ K.name out.old.sink }
    ensures out_tells { is_some (K.held out.new.sink) ≡ is_some (K.held out.old.sink) }
{
    let alloc = play.stage.alloc;
    let time = period(pictures.head());
    while let Some(picture) = take(alloc, pictures, feed)? {
        play.exchange(feed.taken, picture, out, journal)?;
        play.wait(time, journal)?;
    }
    Ok(())
}

/// Does what one line says.
fn line<C: Codec, S: Source, K: Sink, J: Diary>(
    play: &mut Play<C>,
    number: u32,
    said: ScriptLine,
    pictures: &mut Reader<S>,
    feed: &mut Feed,
    out: &mut Writer<K>,
    journal: &mut J,
) -> Result<(), RunStop>
    requires fresh { pictures.old.kept ≡ None }
    requires legal { IsHead pictures.old.head }
    requires open { out.old.failed ≡ false }
    requires runs { (r : Run C.State) × IsAt C.coding pictures.old.head play.old.stage.world play.old.downs play.old.ups (K.held out.old.sink) r }
    ensures goes { (r : Run C.State) → IsAt C.coding pictures.old.head play.old.stage.world play.old.downs play.old.ups (K.held out.old.sink) r → LineGoes C.coding pictures.old.head J.gives pictures.old.place (number, said) feed.old.room feed.new.room (S.left pictures.old.source) (S.left pictures.new.source) play.new.stage.world play.new.downs play.new.ups (K.held out.new.sink) r result }
    ensures cause { HasCause (Err RunStop.ReadFault) (S.faults pictures.old.source) (S.faults pictures.new.source) result }
    ensures places { OnOk result (Carries pictures.old.place (S.left pictures.old.source) pictures.new.place (S.left pictures.new.source)) }
    ensures fresh { OnOk result (pictures.new.kept ≡ None) }
    ensures head { pictures.new.head ≡ pictures.old.head }
    ensures name { S.name pictures.new.source ≡ S.name pictures.old.source }
    ensures had { S.had pictures.new.source ≡ S.had pictures.old.source }
    ensures tells { is_some (S.left pictures.new.source) ≡ is_some (S.left pictures.old.source) }
    ensures open { OnOk result (out.new.failed ≡ false) }
    ensures out_cause { HasCause (Err RunStop.Out) (K.faults out.old.sink) (K.faults out.new.sink) result }
    ensures journal_cause { HasCause (Err (RunStop.Diary DiaryFault.Failed)) (J.faults journal.old) (J.faults journal.new) result }
    ensures out_name { K.name out.new.sink ≡ K.name out.old.sink }
    ensures out_tells { is_some (K.held out.new.sink) ≡ is_some (K.held out.old.sink) }
{
    match said {
        ScriptLine::Next => next(play, number, false, pictures, feed, journal),
        ScriptLine::NextLate => next(play, number, true, pictures, feed, journal),
        ScriptLine::Down(which) => down(play, number, which, out, journal),
        ScriptLine::Up(which) => up(play, number, which, journal),
        ScriptLine::DownAll => play.down_all(out, journal),
        ScriptLine::UpAll => play.up_all(journal),
        ScriptLine::Wait(time) => play.wait(u64::from(time), journal),
        ScriptLine::Rest => rest(play, pictures, feed, out, journal),
    }
}

/// Does what the lines say, in order.
pub(crate) fn lines<C: Codec, S: Source, K: Sink, J: Diary>(
    play: &mut Play<C>,
    script: &[(u32, ScriptLine)],
    pictures: &mut Reader<S>,
    feed: &mut Feed,
    out: &mut Writer<K>,
    journal: &mut J,
) -> Result<(), RunStop>
    requires fresh { pictures.old.kept ≡ None }
    requires legal { IsHead pictures.old.head }
    requires open { out.old.failed ≡ false }
    requires runs { (r : Run C.State) × IsAt C.coding pictures.old.head play.old.stage.world play.old.downs play.old.ups (K.held out.old.sink) r }
    ensures goes { (r : Run C.State) → IsAt C.coding pictures.old.head play.old.stage.world play.old.downs play.old.ups (K.held out.old.sink) r → LinesGo C.coding pictures.old.head J.gives pictures.old.place script.now feed.old.room feed.new.room (S.left pictures.old.source) (S.left pictures.new.source) play.new.stage.world play.new.downs play.new.ups (K.held out.new.sink) r result }
    ensures cause { HasCause (Err RunStop.ReadFault) (S.faults pictures.old.source) (S.faults pictures.new.source) result }
    ensures places { OnOk result (Carries pictures.old.place (S.left pictures.old.source) pictures.new.place (S.left pictures.new.source)) }
    ensures fresh { OnOk result (pictures.new.kept ≡ None) }
    ensures head { pictures.new.head ≡ pictures.old.head }
    ensures name { S.name pictures.new.source ≡ S.name pictures.old.source }
    ensures had { S.had pictures.new.source ≡ S.had pictures.old.source }
    ensures tells { is_some (S.left pictures.new.source) ≡ is_some (S.left pictures.old.source) }
    ensures open { OnOk result (out.new.failed ≡ false) }
    ensures out_cause { HasCause (Err RunStop.Out) (K.faults out.old.sink) (K.faults out.new.sink) result }
    ensures journal_cause { HasCause (Err (RunStop.Diary DiaryFault.Failed)) (J.faults journal.old) (J.faults journal.new) result }
    ensures out_name { K.name out.new.sink ≡ K.name out.old.sink }
    ensures out_tells { is_some (K.held out.new.sink) ≡ is_some (K.held out.old.sink) }
{
    for numbered in script {
        line(play, numbered.0, numbered.1, pictures, feed, out, journal)?;
    }
    Ok(())
}
