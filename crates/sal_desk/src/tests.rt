ghost use Rattle.std.specs.Prelude.{◌≡◌, ◌+◌, ◌%◌, ◌^◌, ◌∷◌, [], sum, Some, None};
ghost use Rattle.sal_desk.specs.Seats.{IsSeatOf};

use crate::desk::Desk;
use crate::history::History;
use crate::machine::Machine;
use crate::seat::Seat;
use std::alloc::AllocError;
use std::sync::Wait;
use std::thread::{self, Threads};

/// Adds what it is given, and answers the total.
#[derive(Drop)]
struct Counter {
    total: u64,
}

impl Machine for Counter {
    type Call = u64;

    type Reply = Option<u64>;

    type Entry = u64;

    ghost stands = { λ start m log. m.total ≡ (start.total + sum log) % 2 ^ 64 };

    ghost may = { λ start log call. Unit {0} };

    ghost answers = { λ start log call reply e. (e ≡ call) × (reply ≡ Some ((start.total + (sum log + call)) % 2 ^ 64)) };

    ghost follows = { λ start log e. Unit {0} };

    ghost voided = { None };

    fn step(&mut self, call: u64) -> (Option<u64>, u64) {
        self.total = self.total.wrapping_add(call);
        (Some(self.total), call)
    }

    fn void() -> Option<u64> {
        None
    }

    ghost may_stays = { λ start log more call ok. tt };
}

/// One call on a seat that travels, and its place in the history.
fn add<R: Wait>(
    rt: &R,
    desk: &Desk<Counter>,
    mut seat: Seat<Counter>,
    by: u64,
) -> (u64, Seat<Counter>)
    requires own { IsSeatOf desk.now seat }
    ensures own { IsSeatOf desk.now result.1 }
    ensures name { result.1.own.name ≡ seat.own.name }
    ensures splits { result.1.own.splits ≡ seat.own.splits }
    ensures joined { result.1.joined ≡ seat.joined }
{
    let (_reply, place) = desk.act(rt, &mut seat, by);
    (place, seat)
}

fn both<R: Threads + Wait + Sync>(
    rt: &R,
    desk: &Desk<Counter>,
    a: Seat<Counter>,
    b: Seat<Counter>,
) -> ((u64, Seat<Counter>), (u64, Seat<Counter>))
    requires a { IsSeatOf desk.now a }
    requires b { IsSeatOf desk.now b }
    ensures a { IsSeatOf desk.now result.0.1 × (result.0.1.own.name ≡ a.own.name) × (result.0.1.own.splits ≡ a.own.splits) × (result.0.1.joined ≡ a.joined) }
    ensures b { IsSeatOf desk.now result.1.1 × (result.1.1.own.name ≡ b.own.name) × (result.1.1.own.splits ≡ b.own.splits) × (result.1.1.joined ≡ b.joined) }
{
    thread::join(rt, || add(rt, desk, a, 1), || add(rt, desk, b, 2))
}

/// Joins the one other seat, makes a last call, and closes.
fn end<R: Wait>(
    rt: &R,
    desk: Desk<Counter>,
    mut first: Seat<Counter>,
    second: Seat<Counter>,
) -> (u64, Counter, History<Counter>)
    requires first { IsSeatOf desk first × (first.own.name ≡ []) × (first.own.splits ≡ 1) × (first.joined ≡ []) }
    requires second { IsSeatOf desk second × (second.own.name ≡ 0 ∷ []) × (second.own.splits ≡ 0) × (second.joined ≡ []) }
{
    desk.join(&mut first, second);
    let (_reply, place) = desk.act(rt, &mut first, 4);
    let (counter, history) = desk.close(first);
    (place, counter, history)
}

#[test]
fn calls_of_two_threads_stand_in_one_history(rt: HostRuntime) -> Result<(), AllocError> {
    let (desk, mut first) = Desk::new(rt.alloc(), Counter { total: 0 })?;
    let second = desk.split(&mut first);
    let ((one, first), (two, second)) = both(&rt, &desk, first, second);
    let (last, counter, history) = end(&rt, desk, first, second);
    assert!(rt; one.min(two) == 0 && one.max(two) == 1 && last == 2);
    assert!(rt; counter.total == 7);
    let earlier = *history
        .get(one as usize)
        .expect(&rt, "an entry of the first thread");
    let later = *history
        .get(two as usize)
        .expect(&rt, "an entry of the second thread");
    assert!(rt; earlier == 1 && later == 2);
    assert!(rt; history.get(2).copied() == Some(4));
    assert!(rt; history.get(3).is_none());
    Ok(())
}
