//! A timer's record at values that were worked out by hand.

use gt_rec::{GREATEST_TIME, RecKind, Sent, TimerRec};

const MILLISECOND: u64 = 1_000_000;

#[test]
fn ticker_is_received(rt: HostRuntime) {
    let end = GREATEST_TIME;
    let cases = [
        // due, period, now, what is received
        (
            10 * MILLISECOND,
            10 * MILLISECOND,
            35 * MILLISECOND,
            Some((10 * MILLISECOND, Some(40 * MILLISECOND))),
        ),
        (10, 10, 9, None),
        (10, 10, 20, Some((10, Some(30)))),
        (end - 5, 10, end - 1, Some((end - 5, Some(end)))),
        (0, u64::MAX, 5, Some((0, Some(end)))),
    ];
    for (due, period, now, want) in cases {
        assert!(rt; due <= GREATEST_TIME && period > 0);
        let mut rec = TimerRec::unset(1, RecKind::Ticker);
        rec.arm(due, period);
        assert_eq!(rt; rec.take_ready(now), want);
    }
}

#[test]
fn stale_values_are_dropped(rt: HostRuntime) {
    let mut rec = TimerRec::unset(1, RecKind::Timer);
    rec.lawful();
    rec.arm(5, 0);
    assert_eq!(rt; rec.begin_send(7), Some((1, 5)));
    rec.arm(20, 0);
    assert_eq!(rt; rec.end_send(1), Sent::Dropped);
    assert_eq!(rt; rec.shown_due(), Some(20));
    assert_eq!(rt; rec.begin_send(20), Some((2, 20)));
    assert_eq!(rt; rec.end_send(2), Sent::Kept);
    assert!(rt; rec.disarm());
    assert_eq!(rt; rec.shown_due(), None);
}

#[test]
fn bits_follow_the_changes(rt: HostRuntime) {
    let mut rec = TimerRec::unset(1, RecKind::Timer);
    rec.arm(50, 0);
    rec.raise_blocked();
    assert!(rt; rec.needs_heap());
    rec.enter_heap(2);
    rec.arm(30, 0);
    assert_eq!(rt; (rec.key, rec.modified, rec.zombie), (50, true, false));
    rec.lower_blocked();
    assert!(rt; rec.zombie);
    rec.rekey();
    assert_eq!(rt; (rec.key, rec.modified), (30, false));
    rec.leave_heap();
    assert_eq!(rt; (rec.heaped, rec.zombie), (None, false));
}
