//! Tickets are won once, and whoever wins leaves all lists.

use gt_model::Party;
use gt_select::Waiters;
use std::test::Fail;

#[test]
fn ticket_is_won_once(rt: HostRuntime) -> Result<(), Fail> {
    let mut waiters = Waiters::with_room(rt.alloc(), 2, 1)?;
    let ticket = waiters.enrol(2);
    assert!(rt; waiters.live(ticket));
    assert!(rt; waiters.win(ticket));
    assert!(rt; !waiters.win(ticket));
    assert_eq!(rt; waiters.ticket(2), None);
    Ok(())
}

#[test]
fn winner_leaves_sixteen_lists(rt: HostRuntime) -> Result<(), Fail> {
    let mut waiters = Waiters::with_room(rt.alloc(), 1, 16)?;
    let ticket = waiters.enrol(1);
    for case_no in 1..17 {
        waiters.wait(case_no - 1, Party { g: 1, case_no });
    }
    assert!(rt; waiters.first(15).is_some());
    assert!(rt; waiters.win(ticket));
    for list in 0..16 {
        assert_eq!(rt; waiters.first(list), None);
    }
    Ok(())
}

#[test]
fn another_goroutine_is_found(rt: HostRuntime) -> Result<(), Fail> {
    let own = Party { g: 1, case_no: 2 };
    let other = Party { g: 2, case_no: 0 };
    let mut waiters = Waiters::with_room(rt.alloc(), 2, 1)?;
    waiters.enrol(1);
    let ticket = waiters.enrol(2);
    waiters.wait(0, own);
    waiters.wait(0, other);
    waiters.lawful();
    assert_eq!(rt; waiters.first(0), Some(own));
    assert_eq!(rt; waiters.first_other(0, 1), Some(other));
    waiters.forget(0, 1);
    assert_eq!(rt; waiters.first_other(0, 2), None);
    waiters.leave(own);
    waiters.withdraw(ticket);
    assert_eq!(rt; waiters.first(0), None);
    Ok(())
}
