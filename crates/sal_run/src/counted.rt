//! Both ends, and what a run counts.

ghost use Rattle.std.specs.Prelude.{◌≡◌, [], ℕ, List, length, IfOk, IfErr};
ghost use Rattle.std.specs.Option.{option_map};
ghost use Rattle.sal_y4m.specs.Head.{IsHead};
ghost use Rattle.sal_sender.specs.OneThread.{Session};
ghost use Rattle.sal_sender.specs.Choosing.{first_in};
ghost use Rattle.sal_sender.specs.Answers.{waiting_jobs};
ghost use Rattle.sal_y4m.specs.declared.head.Head.{Head as HeadData};
ghost use Rattle.sal_world.specs.World.{WorldEvent, sent, after};
ghost use Rattle.sal_world.specs.Stands.{Stands};
ghost use Rattle.sal_run.specs.Loop.{session_of};
ghost use Rattle.sal_run.specs.Counts.{no_counts, with_next, with_choice, with_done, summary_with};

use crate::end::Summary;
use crate::stop::RunStop;
use sal_codec::Codec;
use sal_receiver::Done;
use sal_sender::{JobRole, Next};
use sal_world::{ChooseAnswer, World};
use sal_y4m::Head;
use std::alloc::Global;
use std::marker::Model;

/// What a run counted so far; each count stays at the greatest u32.
#[derive(Clone, Copy, Debug, PartialEq, Eq)]
pub(crate) struct Counts {
    pub pictures: u32,
    pub chosen: u32,
    pub nothing: u32,
    pub keys: u32,
    pub shown: u32,
}

/// Both ends in one world, and what was counted of its answers.
#[derive(Drop)]
pub(crate) struct Counted<C: Codec> {
    pub world: World<C>,
    pub counts: Counts,
}

impl<C: Codec> Model for Counted<C> {
    ghost use Rattle.sal_run.specs.CountedParts.{CountedParts};

    ghost Value = { CountedParts C.State };

    ghost view = { λ w. record { world = w.world; counts = w.counts } };
}

impl Counts {
    /// Nothing.
    fn none() -> Counts
        ensures { result ≡ no_counts }
    {
        Counts {
            pictures: 0,
            chosen: 0,
            nothing: 0,
            keys: 0,
            shown: 0,
        }
    }

    /// Counts a picture that was started.
    pub(crate) fn start(&mut self, answer: Next)
        ensures { self.new ≡ with_next answer self.old }
    {
        if let Next::Started(_) = answer {
            self.pictures = self.pictures.saturating_add(1);
        }
    }

    /// Counts a choice, also one of nothing.
    pub(crate) fn choose(&mut self, answer: &ChooseAnswer)
        ensures { self.new ≡ with_choice answer.now self.old }
    {
        match answer {
            ChooseAnswer::Sent(choice) => {
                self.chosen = self.chosen.saturating_add(1);
                if choice.source == 0 {
                    self.keys = self.keys.saturating_add(1);
                }
            }
            ChooseAnswer::Nothing(..) => self.nothing = self.nothing.saturating_add(1),
            ChooseAnswer::NoPicture | ChooseAnswer::Waiting(_) | ChooseAnswer::Memory => {}
        }
    }

    /// Counts a picture that was shown.
    pub(crate) fn show(&mut self, done: &Done)
        ensures { self.new ≡ with_done done.now self.old }
    {
        if let Done::Show(..) = done {
            self.shown = self.shown.saturating_add(1);
        }
    }
}

impl<C: Codec> Counted<C> {
    /// A session in which nothing happened yet.
    pub(crate) fn new(alloc: Global, codec: C, head: Head) -> Result<Counted<C>, RunStop>
        requires { IsHead head }
        ensures stands { IfOk result (λ w. Stands C.coding (session_of head) w.world []) }
        ensures counts { IfOk result (λ w. w.counts ≡ no_counts) }
        ensures memory { IfErr result (λ stop. stop ≡ RunStop.Memory) }
    {
        match World::new(alloc, codec, head) {
            Ok(world) => Ok(Counted {
                world,
                counts: Counts::none(),
            }),
            Err(_) => Err(RunStop::Memory),
        }
    }

    /// How many datagrams were sent.
    pub(crate) fn datagrams(&self) -> u32
        ensures { (session : Session) (events : List WorldEvent) → Stands C.coding session self.now.world events → result ≡ length (sent (after C.coding session events)) }
    {
        self.world.datagrams()
    }

    /// The role of the job that is handed out next, if one waits.
    pub(crate) fn next_role(&self) -> Option<JobRole>
        ensures { (session : Session) (events : List WorldEvent) → Stands C.coding session self.now.world events → result ≡ option_map (λ job. job.role) (first_in (waiting_jobs (after C.coding session events).sender)) }
    {
        self.world.next_role()
    }

    /// How many acknowledgements there are.
    pub(crate) fn acks(&self) -> u64
        ensures { result ≡ length self.now.world.acks }
    {
        self.world.acks()
    }

    /// The moment, in microseconds.
    pub(crate) fn moment(&self) -> u64
        ensures { result ≡ self.now.world.moment }
    {
        self.world.moment()
    }

    /// What was counted, with the datagrams that were sent.
    pub(crate) fn summary(&self) -> Summary
        ensures { (head : HeadData) (events : List WorldEvent) → Stands C.coding (session_of head) self.now.world events → result ≡ summary_with self.now.counts (length (sent (after C.coding (session_of head) events))) }
    {
        let counts = self.counts;
        Summary {
            pictures: counts.pictures,
            chosen: counts.chosen,
            nothing: counts.nothing,
            keys: counts.keys,
            datagrams: self.world.datagrams(),
            shown: counts.shown,
        }
    }
}
