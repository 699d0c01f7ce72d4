ghost use Rattle.std.specs.Prelude.{[], List};
ghost use Rattle.sal_sender.specs.OneThread.{Session};
ghost use Rattle.sal_world.specs.World.{WorldEvent};
ghost use Rattle.sal_world.specs.Stands.{Stands};

use super::*;
use sal_codec::{Codec, Plain};
use sal_y4m::Head;
use std::alloc::Global;
use std::test::Fail;

const HEAD: Head = Head {
    width: 16,
    height: 16,
    rate: (30, 1),
};

// The number and the last one with which a new world answers that no such datagram was sent.
fn first_down<C: Codec>(alloc: Global, codec: C, which: u32) -> Option<(u64, u64)> {
    let Ok(mut world) = World::new(alloc, codec, HEAD) else {
        return None;
    };
    match world.step(Event::Down(which)) {
        Answer::Unsent(number, last) => Some((number, last)),
        _ => None,
    }
}

// What a new world answers.
#[derive(Clone, Copy, Debug, PartialEq, Eq)]
enum First {
    Moment(u64),
    NoJob,
    NoFrame,
    Other,
}

fn kind<C: Codec>(answer: &Answer<C>) -> First {
    match answer {
        Answer::Moment(moment) => First::Moment(*moment),
        Answer::Take(None) => First::NoJob,
        Answer::Ready(None) => First::NoFrame,
        _ => First::Other,
    }
}

// What a world answers where a job is asked for.
fn takes<C: Codec>(mut world: World<C>) -> First
    requires { (session : Session) × ((events : List WorldEvent) × Stands C.coding session world events) }
{
    kind(&world.step(Event::Take))
}

// What a new world answers to a moment, and then where a job is asked for.
fn passes_and_takes<C: Codec>(mut world: World<C>, moment: u64) -> (First, First)
    requires { (session : Session) × Stands C.coding session world [] }
{
    let passed = kind(&world.step(Event::Moment(moment)));
    (passed, takes(world))
}

// What a new world answers where a frame is asked for.
fn hands_out<C: Codec>(mut world: World<C>) -> First
    requires { (session : Session) × Stands C.coding session world [] }
{
    kind(&world.step(Event::Ready))
}

fn first_moment<C: Codec>(alloc: Global, codec: C, moment: u64) -> (First, First) {
    match World::new(alloc, codec, HEAD) {
        Ok(world) => passes_and_takes(world, moment),
        Err(_) => (First::Other, First::Other),
    }
}

fn first_frame<C: Codec>(alloc: Global, codec: C) -> First {
    match World::new(alloc, codec, HEAD) {
        Ok(world) => hands_out(world),
        Err(_) => First::Other,
    }
}

#[test]
fn before_anything_is_sent(rt: HostRuntime) -> Result<(), Fail> {
    let alloc = rt.alloc();
    assert_eq!(rt; first_down(alloc, Plain, 0), Some((0, 0)));
    assert_eq!(rt; first_down(alloc, Plain, 1), Some((1, 0)));
    Ok(())
}

#[test]
fn before_any_picture(rt: HostRuntime) -> Result<(), Fail> {
    let alloc = rt.alloc();
    let (moment, job) = first_moment(alloc, Plain, 5);
    assert_eq!(rt; moment, First::Moment(5));
    assert_eq!(rt; job, First::NoJob);
    assert_eq!(rt; first_frame(alloc, Plain), First::NoFrame);
    Ok(())
}
