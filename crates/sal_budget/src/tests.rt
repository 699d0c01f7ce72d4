use super::*;
use std::test::Fail;

#[test]
fn the_average_moves_by_an_eighth(rt: HostRuntime) -> Result<(), Fail> {
    let mut gap = Gap {
        average: 8000,
        last: Some(0),
        greatest: 5,
    };
    assert!(rt; gap.arrive(16000, 6, 0));
    assert_eq!(rt;
        (gap.average, gap.last, gap.greatest),
        (9000, Some(16000), 6)
    );
    assert!(rt; !gap.arrive(99000, 6, 0));
    assert_eq!(rt;
        (gap.average, gap.last, gap.greatest),
        (9000, Some(16000), 6)
    );
    let mut gap = Gap::start();
    assert!(rt; gap.arrive(7, 1, 0));
    assert_eq!(rt; (gap.average, gap.last, gap.greatest), (10000, Some(7), 1));
    assert!(rt; gap.arrive(2007, 3, 3000));
    assert_eq!(rt; gap.average, 8750);
    assert!(rt; gap.arrive(u64::MAX, 4, 0));
    assert_eq!(rt; gap.average, 10_000_000);
    Ok(())
}

#[test]
fn the_budget_is_the_window_less_what_is_on_its_way(rt: HostRuntime) -> Result<(), Fail> {
    let flight = Flight {
        sent: 25,
        heard: 20,
        sent_at: 0,
        heard_at: 0,
    };
    for (average, least, moment, datagrams) in [
        (5000, 16, 0, 15),
        (5000, 16, 499_999, 15),
        (5000, 16, 500_000, 20),
        (10_000, 16, 0, 11),
        (10_000, 4, 0, 5),
        (0, 16, 0, 4091),
        (1, 5000, 500_000, 4096),
        (4_000_000, 5, 0, 0),
        (4_000_000, 3, 0, 0),
    ] {
        assert_eq!(rt; budget(average, least, &flight, moment), datagrams);
    }
    let later = Flight {
        sent: 25,
        heard: 20,
        sent_at: 100,
        heard_at: 7,
    };
    assert_eq!(rt; budget(5000, 16, &later, 500_099), 15);
    assert_eq!(rt; budget(5000, 16, &later, 500_100), 20);
    Ok(())
}
