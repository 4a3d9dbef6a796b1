//! The retransmission timer: when it expires.

use std::test::*;
use t_rto::Rto;

#[test]
fn the_ninth_expiry_is_the_last(rt: HostRuntime) {
    let mut timer = Rto::new();
    assert_eq!(rt; timer.expires(), None);
    timer.started(0);
    let expiries = [
        (1000, false),
        (3000, false),
        (7000, false),
        (15000, false),
        (31000, false),
        (63000, false),
        (123000, false),
        (183000, false),
        (243000, true),
    ];
    for (tick, last) in expiries {
        assert_eq!(rt; timer.expires(), Some(tick));
        assert_eq!(rt; timer.expired(tick), last, "at {tick}");
    }
    assert_eq!(rt; timer.expires(), None);
}

#[test]
fn what_was_heard_counts_anew_and_the_time_stays(rt: HostRuntime) {
    let mut timer = Rto::new();
    timer.started(0);
    for tick in [1000, 3000, 7000, 15000, 31000, 63000, 123000, 183000] {
        assert_eq!(rt; timer.expired(tick), false, "at {tick}");
    }
    timer.heard();
    assert_eq!(rt; timer.expires(), Some(243000));
    for round in 0..8 {
        assert_eq!(rt;
            timer.expired(243000 + round * 60000),
            false,
            "the round {round}"
        );
    }
    assert_eq!(rt; timer.expired(723000), true);
}

#[test]
fn an_acknowledgement_takes_the_time_back(rt: HostRuntime) {
    let mut timer = Rto::new();
    timer.started(10);
    timer.started(500);
    assert_eq!(rt; timer.expires(), Some(1010));
    assert_eq!(rt; timer.expired(1010), false);
    assert_eq!(rt; timer.expires(), Some(3010));
    timer.acked(1100, true);
    assert_eq!(rt; timer.expires(), Some(2100));
    timer.acked(1200, false);
    assert_eq!(rt; timer.expires(), None);
    timer.started(1300);
    assert_eq!(rt; timer.expires(), Some(2300));
}
