//! A room is made and filled.

use gt_room::Room;
use std::test::Fail;

#[test]
fn memory_is_given(rt: HostRuntime) -> Result<(), Fail> {
    let mut room = Room::with_room(rt.alloc(), 3)?;
    assert!(rt; room.is_empty());
    room.put(7u32);
    room.put(8);
    room.put(9);
    room.set(1, 5);
    *room.at_mut(2) += 1;
    assert_eq!(rt; room.len(), 3);
    assert_eq!(rt; *room.at(0), 7);
    assert_eq!(rt; room.as_slice(), [7, 5, 10].as_slice());
    Ok(())
}

#[test]
fn a_room_is_filled(rt: HostRuntime) -> Result<(), Fail> {
    let room = Room::fill(rt.alloc(), 3, 4u8)?;
    assert_eq!(rt; room.as_slice(), [4, 4, 4].as_slice());
    Ok(())
}
