//! Members join and leave two queues.

use gt_queue::Queues;
use std::test::Fail;

#[test]
fn members_join_and_leave(rt: HostRuntime) -> Result<(), Fail> {
    let mut queues = Queues::with_room(rt.alloc(), 2, 6)?;
    queues.lawful();
    assert!(rt; queues.is_empty(0));
    queues.enqueue(0, 3);
    assert!(rt; !queues.contains(5));
    queues.enqueue(0, 5);
    assert!(rt; !queues.contains(4));
    queues.enqueue(1, 4);
    assert_eq!(rt; queues.first(0), Some(3));
    assert_eq!(rt; queues.dequeue(0), Some(3));
    assert_eq!(rt; queues.dequeue(1), Some(4));
    assert_eq!(rt; queues.first(0), Some(5));
    Ok(())
}

#[test]
fn removed_member_is_gone(rt: HostRuntime) -> Result<(), Fail> {
    let mut queues = Queues::with_room(rt.alloc(), 1, 6)?;
    queues.enqueue(0, 5);
    queues.remove(0, 5);
    assert_eq!(rt; queues.dequeue(0), None);
    Ok(())
}
