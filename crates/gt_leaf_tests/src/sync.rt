//! A WaitGroup, a mutex and a condition variable at steps that were worked out by hand.

use gt_sync::{AddStep, CondQ, LockStep, Mu, Queues, UnlockStep, WaitStep, Wg};
use std::test::Fail;

#[test]
fn locked_mutex_parks(rt: HostRuntime) -> Result<(), Fail> {
    let mut queues = Queues::with_room(rt.alloc(), 1)?;
    let mut mutex = Mu::new();
    assert_eq!(rt; mutex.lock(1, &mut queues), LockStep::Done);
    assert_eq!(rt; mutex.lock(1, &mut queues), LockStep::Park);
    Ok(())
}

#[test]
fn mutex_is_handed_on(rt: HostRuntime) -> Result<(), Fail> {
    let mut queues = Queues::with_room(rt.alloc(), 3)?;
    let mut mutex = Mu::new();
    assert_eq!(rt; mutex.unlock(&mut queues), UnlockStep::NotLocked);
    mutex.lock(1, &mut queues);
    mutex.lock(3, &mut queues);
    mutex.lock(2, &mut queues);
    assert_eq!(rt; mutex.unlock(&mut queues), UnlockStep::Next(3));
    assert_eq!(rt; mutex.unlock(&mut queues), UnlockStep::Next(2));
    assert_eq!(rt; mutex.unlock(&mut queues), UnlockStep::Free);
    mutex.lawful();
    Ok(())
}

#[test]
fn counter_at_0_wakes_all(rt: HostRuntime) -> Result<(), Fail> {
    let mut queues = Queues::with_room(rt.alloc(), 3)?;
    let mut group = Wg::new();
    assert_eq!(rt; group.wait(2, &mut queues), WaitStep::Done);
    assert_eq!(rt; group.add(1, &mut queues), AddStep::Plain);
    assert_eq!(rt; group.wait(2, &mut queues), WaitStep::Park);
    assert_eq!(rt; group.add(-2, &mut queues), AddStep::Negative);
    assert_eq!(rt; group.add(-1, &mut queues), AddStep::Woken);
    group.lawful();
    assert_eq!(rt; queues.take_woken(), Some(2));
    assert_eq!(rt; queues.take_woken(), None);
    Ok(())
}

#[test]
fn suspended_are_woken_in_order(rt: HostRuntime) -> Result<(), Fail> {
    let mut queues = Queues::with_room(rt.alloc(), 3)?;
    let mut cond = CondQ::new();
    assert_eq!(rt; cond.signal(&mut queues), None);
    cond.wait(3, &mut queues);
    cond.wait(1, &mut queues);
    cond.wait(2, &mut queues);
    queues.lawful();
    assert_eq!(rt; cond.signal(&mut queues), Some(3));
    assert_eq!(rt; cond.broadcast(&mut queues), 2);
    assert_eq!(rt; cond.broadcast(&mut queues), 0);
    assert_eq!(rt; queues.take_woken(), Some(1));
    assert_eq!(rt; queues.take_woken(), Some(2));
    assert_eq!(rt; queues.take_woken(), None);
    Ok(())
}
