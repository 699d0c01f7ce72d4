//! What lines do to both ends.

ghost use Rattle.std.specs.Prelude.{◌≡◌, ◌≢◌, [], is_some, false, ℕ, List, Option, IfOk, IfErr, OnOk, Ok, Err, if◌then◌else◌};
ghost use Rattle.sal_io.specs.Calls.{HasCause};
ghost use Rattle.sal_y4m.specs.declared.head.Head.{Head as HeadData};
ghost use Rattle.sal_y4m.specs.Head.{IsHead};
ghost use Rattle.sal_world.specs.Promises.{HasSize};
ghost use Rattle.sal_world.specs.Stands.{Stands};
ghost use Rattle.sal_world.specs.Script.{Run, next_picture, down, up, down_all, up_all, wait};
ghost use Rattle.sal_run.specs.Loop.{session_of};
ghost use Rattle.sal_run.specs.Counts.{no_counts};
ghost use Rattle.sal_run.specs.Named.{IsMarked};
ghost use Rattle.sal_run.specs.Running.{IsAt, Comes};
ghost use Rattle.sal_run.specs.Turns.{is_late, exchange};
ghost use Rattle.sal_run.specs.Walk.{unless_marked};

use crate::counted::Counted;
use crate::events::{deliver, hear, pass};
use crate::named::NamedNumbers;
use crate::stage::BothEnds;
use crate::stop::RunStop;
use sal_base::Picture;
use sal_codec::Codec;
use sal_io::Sink;
use sal_world::{Diary, DiaryFault};
use sal_y4m::{Head, Writer};
use std::alloc::Global;

/// Both ends, and which datagrams and acknowledgements came by number.
#[derive(Drop)]
pub(crate) struct Play<C: Codec> {
    pub stage: BothEnds<C>,
    pub downs: NamedNumbers,
    pub ups: NamedNumbers,
}

impl<C: Codec> Play<C> {
    /// A session in which nothing happened yet.
    pub(crate) fn new(alloc: Global, codec: C, head: Head) -> Result<Play<C>, RunStop>
        requires { IsHead head }
        ensures stands { IfOk result (λ p. Stands C.coding (session_of head) p.stage.world.world []) }
        ensures counts { IfOk result (λ p. p.stage.world.counts ≡ no_counts) }
        ensures downs { IfOk result (λ p. p.downs ≡ record { marks = []; known = 0 }) }
        ensures ups { IfOk result (λ p. p.ups ≡ record { marks = []; known = 0 }) }
        ensures memory { IfErr result (λ stop. stop ≡ RunStop.Memory) }
    {
        let world = Counted::new(alloc, codec, head)?;
        Ok(Play {
            stage: BothEnds {
                alloc,
                codec,
                world,
            },
            downs: NamedNumbers::new(alloc),
            ups: NamedNumbers::new(alloc),
        })
    }

    /// The picture of a number is started, encoded and chosen.
    pub(crate) fn next<J: Diary>(
        &mut self,
        number: u32,
        late: bool,
        picture: Picture,
        journal: &mut J,
    ) -> Result<(), RunStop>
        requires runs { (head : HeadData) × ((r : Run C.State) × ((held : Option (List ℕ)) × (IsAt C.coding head self.old.stage.world self.old.downs self.old.ups held r × HasSize (session_of head) picture))) }
        ensures comes { (head : HeadData) (r : Run C.State) (held : Option (List ℕ)) → IsAt C.coding head self.old.stage.world self.old.downs self.old.ups held r → HasSize (session_of head) picture → Comes C.coding head J.gives self.new.stage.world self.new.downs self.new.ups held (next_picture C.coding (session_of head) (is_late late) picture r) result }
        ensures journal_cause { HasCause (Err (RunStop.Diary DiaryFault.Failed)) (J.faults journal.old) (J.faults journal.new) result }
        ensures never { result ≢ Err RunStop.Out }
    {
        self.stage.next_picture(number, late, picture, journal)
    }

    /// The datagram of a number comes to the receiver, and what is ready then is decoded.
    pub(crate) fn down<K: Sink, J: Diary>(
        &mut self,
        number: u32,
        out: &mut Writer<K>,
        journal: &mut J,
    ) -> Result<(), RunStop>
        requires open { out.old.failed ≡ false }
        requires runs { (head : HeadData) × ((r : Run C.State) × IsAt C.coding head self.old.stage.world self.old.downs self.old.ups (K.held out.old.sink) r) }
        ensures comes { (head : HeadData) (r : Run C.State) → IsAt C.coding head self.old.stage.world self.old.downs self.old.ups (K.held out.old.sink) r → Comes C.coding head J.gives self.new.stage.world self.new.downs self.new.ups (K.held out.new.sink) (down C.coding (session_of head) number r) result }
        ensures marked { OnOk result (IsMarked number self.old.downs self.new.downs) }
        ensures open { OnOk result (out.new.failed ≡ false) }
        ensures out_cause { HasCause (Err RunStop.Out) (K.faults out.old.sink) (K.faults out.new.sink) result }
        ensures journal_cause { HasCause (Err (RunStop.Diary DiaryFault.Failed)) (J.faults journal.old) (J.faults journal.new) result }
        ensures out_name { K.name out.new.sink ≡ K.name out.old.sink }
        ensures out_tells { is_some (K.held out.new.sink) ≡ is_some (K.held out.old.sink) }
    {
        self.downs.mark(u64::from(number))?;
        deliver(&mut self.stage.world, number, journal)?;
        self.stage.frames(out, journal)
    }

    /// The acknowledgement of a number comes back to the sender.
    pub(crate) fn up<J: Diary>(&mut self, number: u64, journal: &mut J) -> Result<(), RunStop>
        requires runs { (head : HeadData) × ((r : Run C.State) × ((held : Option (List ℕ)) × IsAt C.coding head self.old.stage.world self.old.downs self.old.ups held r)) }
        ensures comes { (head : HeadData) (r : Run C.State) (held : Option (List ℕ)) → IsAt C.coding head self.old.stage.world self.old.downs self.old.ups held r → Comes C.coding head J.gives self.new.stage.world self.new.downs self.new.ups held (up C.coding (session_of head) number r) result }
        ensures marked { OnOk result (IsMarked number self.old.ups self.new.ups) }
        ensures journal_cause { HasCause (Err (RunStop.Diary DiaryFault.Failed)) (J.faults journal.old) (J.faults journal.new) result }
        ensures never { result ≢ Err RunStop.Out }
    {
        self.ups.mark(number)?;
        hear(&mut self.stage.world, number, journal)
    }

    /// So many microseconds pass.
    pub(crate) fn wait<J: Diary>(&mut self, time: u64, journal: &mut J) -> Result<(), RunStop>
        requires runs { (head : HeadData) × ((r : Run C.State) × ((held : Option (List ℕ)) × IsAt C.coding head self.old.stage.world self.old.downs self.old.ups held r)) }
        ensures comes { (head : HeadData) (r : Run C.State) (held : Option (List ℕ)) → IsAt C.coding head self.old.stage.world self.old.downs self.old.ups held r → Comes C.coding head J.gives self.new.stage.world self.new.downs self.new.ups held (wait C.coding (session_of head) time r) result }
        ensures journal_cause { HasCause (Err (RunStop.Diary DiaryFault.Failed)) (J.faults journal.old) (J.faults journal.new) result }
        ensures never { result ≢ Err RunStop.Out }
    {
        let moment = self.stage.world.moment().saturating_add(time);
        pass(&mut self.stage.world, moment, journal)
    }

    /// The datagram of a number comes, unless it was named before.
    fn down_unless<K: Sink, J: Diary>(
        &mut self,
        number: u32,
        out: &mut Writer<K>,
        journal: &mut J,
    ) -> Result<(), RunStop>
        requires open { out.old.failed ≡ false }
        requires runs { (head : HeadData) × ((r : Run C.State) × IsAt C.coding head self.old.stage.world self.old.downs self.old.ups (K.held out.old.sink) r) }
        ensures comes { (head : HeadData) (r : Run C.State) → IsAt C.coding head self.old.stage.world self.old.downs self.old.ups (K.held out.old.sink) r → Comes C.coding head J.gives self.new.stage.world self.new.downs self.new.ups (K.held out.new.sink) (unless_marked self.old.downs (down C.coding (session_of head)) number r) result }
        ensures marked { OnOk result (IsMarked number self.old.downs self.new.downs) }
        ensures open { OnOk result (out.new.failed ≡ false) }
        ensures out_cause { HasCause (Err RunStop.Out) (K.faults out.old.sink) (K.faults out.new.sink) result }
        ensures journal_cause { HasCause (Err (RunStop.Diary DiaryFault.Failed)) (J.faults journal.old) (J.faults journal.new) result }
        ensures out_name { K.name out.new.sink ≡ K.name out.old.sink }
        ensures out_tells { is_some (K.held out.new.sink) ≡ is_some (K.held out.old.sink) }
    {
        if self.downs.has(u64::from(number)) {
            return Ok(());
        }
        self.down(number, out, journal)
    }

    /// Each datagram that wasn't named comes to the receiver.
    pub(crate) fn down_all<K: Sink, J: Diary>(
        &mut self,
        out: &mut Writer<K>,
        journal: &mut J,
    ) -> Result<(), RunStop>
        requires open { out.old.failed ≡ false }
        requires runs { (head : HeadData) × ((r : Run C.State) × IsAt C.coding head self.old.stage.world self.old.downs self.old.ups (K.held out.old.sink) r) }
        ensures comes { (head : HeadData) (r : Run C.State) → IsAt C.coding head self.old.stage.world self.old.downs self.old.ups (K.held out.old.sink) r → Comes C.coding head J.gives self.new.stage.world self.new.downs self.new.ups (K.held out.new.sink) (down_all C.coding (session_of head) r) result }
        ensures open { OnOk result (out.new.failed ≡ false) }
        ensures out_cause { HasCause (Err RunStop.Out) (K.faults out.old.sink) (K.faults out.new.sink) result }
        ensures journal_cause { HasCause (Err (RunStop.Diary DiaryFault.Failed)) (J.faults journal.old) (J.faults journal.new) result }
        ensures out_name { K.name out.new.sink ≡ K.name out.old.sink }
        ensures out_tells { is_some (K.held out.new.sink) ≡ is_some (K.held out.old.sink) }
    {
        let last = u64::from(self.stage.world.datagrams());
        for at in self.downs.known()..last {
            self.down_unless(at as u32 + 1, out, journal)?;
        }
        self.downs.pass(last);
        Ok(())
    }

    /// The acknowledgement of a number comes, unless it was named before.
    fn up_unless<J: Diary>(&mut self, number: u64, journal: &mut J) -> Result<(), RunStop>
        requires runs { (head : HeadData) × ((r : Run C.State) × ((held : Option (List ℕ)) × IsAt C.coding head self.old.stage.world self.old.downs self.old.ups held r)) }
        ensures comes { (head : HeadData) (r : Run C.State) (held : Option (List ℕ)) → IsAt C.coding head self.old.stage.world self.old.downs self.old.ups held r → Comes C.coding head J.gives self.new.stage.world self.new.downs self.new.ups held (unless_marked self.old.ups (up C.coding (session_of head)) number r) result }
        ensures marked { OnOk result (IsMarked number self.old.ups self.new.ups) }
        ensures journal_cause { HasCause (Err (RunStop.Diary DiaryFault.Failed)) (J.faults journal.old) (J.faults journal.new) result }
        ensures never { result ≢ Err RunStop.Out }
    {
        if self.ups.has(number) {
            return Ok(());
        }
        self.up(number, journal)
    }

    /// Each acknowledgement that wasn't named comes back to the sender.
    pub(crate) fn up_all<J: Diary>(&mut self, journal: &mut J) -> Result<(), RunStop>
        requires runs { (head : HeadData) × ((r : Run C.State) × ((held : Option (List ℕ)) × IsAt C.coding head self.old.stage.world self.old.downs self.old.ups held r)) }
        ensures comes { (head : HeadData) (r : Run C.State) (held : Option (List ℕ)) → IsAt C.coding head self.old.stage.world self.old.downs self.old.ups held r → Comes C.coding head J.gives self.new.stage.world self.new.downs self.new.ups held (up_all C.coding (session_of head) r) result }
        ensures journal_cause { HasCause (Err (RunStop.Diary DiaryFault.Failed)) (J.faults journal.old) (J.faults journal.new) result }
        ensures never { result ≢ Err RunStop.Out }
    {
        let last = self.stage.world.acks();
        for at in self.ups.known()..last {
            self.up_unless(at + 1, journal)?;
        }
        self.ups.pass(last);
        Ok(())
    }

    /// A picture is started, encoded and chosen, and all that comes of it is delivered.
    pub(crate) fn exchange<K: Sink, J: Diary>(
        &mut self,
        number: u32,
        picture: Picture,
        out: &mut Writer<K>,
        journal: &mut J,
    ) -> Result<(), RunStop>
        requires open { out.old.failed ≡ false }
        requires runs { (head : HeadData) × ((r : Run C.State) × (IsAt C.coding head self.old.stage.world self.old.downs self.old.ups (K.held out.old.sink) r × HasSize (session_of head) picture)) }
        ensures comes { (head : HeadData) (r : Run C.State) → IsAt C.coding head self.old.stage.world self.old.downs self.old.ups (K.held out.old.sink) r → HasSize (session_of head) picture → Comes C.coding head J.gives self.new.stage.world self.new.downs self.new.ups (K.held out.new.sink) (exchange C.coding (session_of head) picture r) result }
        ensures open { OnOk result (out.new.failed ≡ false) }
        ensures out_cause { HasCause (Err RunStop.Out) (K.faults out.old.sink) (K.faults out.new.sink) result }
        ensures journal_cause { HasCause (Err (RunStop.Diary DiaryFault.Failed)) (J.faults journal.old) (J.faults journal.new) result }
        ensures out_name { K.name out.new.sink ≡ K.name out.old.sink }
        ensures out_tells { is_some (K.held out.new.sink) ≡ is_some (K.held out.old.sink) }
    {
        self.next(number, false, picture, journal)?;
        self.down_all(out, journal)?;
        self.up_all(journal)
    }
}
