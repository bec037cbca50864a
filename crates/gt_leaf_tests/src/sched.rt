//! Turns are read and drawn; drawn words are those of a generator outside of this repository.

use gt_sched::{SchedFault, Schedule};
use std::test::Fail;

// The first words of PCG32 seeded by 7, modulo 16, worked out apart.
const DRAWN: [u32; 8] = [9, 14, 13, 4, 12, 13, 4, 0];

#[test]
fn turns_are_read_and_drawn(rt: HostRuntime) -> Result<(), Fail> {
    let mut schedule = Schedule::read(rt.alloc(), b"0x2 1", 2)?;
    assert_eq!(rt; schedule.next(), Some(0));
    assert_eq!(rt; schedule.next(), Some(0));
    assert_eq!(rt; schedule.next(), Some(1));
    assert_eq!(rt; schedule.next(), None);
    schedule.draw(7, 1, 1)?;
    assert_eq!(rt; schedule.next(), Some(0));
    assert_eq!(rt; schedule.next(), None);
    schedule.draw(7, 8, 16)?;
    for want in DRAWN {
        assert_eq!(rt; schedule.next(), Some(want));
    }
    Ok(())
}

#[test]
fn faults_are_told(rt: HostRuntime) -> Result<(), Fail> {
    for (text, want) in [
        (b"".as_slice(), None),
        (b" 01x0002\r\n\t0x0 ", None),
        (b"0x1000000", None),
        (b"0x1000000 1", Some(SchedFault::Long)),
        (
            b"0x99999999999999999999 2",
            Some(SchedFault::Worker { at: 23 }),
        ),
        (b"0 2", Some(SchedFault::Worker { at: 2 })),
        (b"0 x", Some(SchedFault::Item { at: 2 })),
        (b"2 x", Some(SchedFault::Worker { at: 0 })),
        (b"0x1x1", Some(SchedFault::Item { at: 0 })),
        (b"0x", Some(SchedFault::Item { at: 0 })),
        (b"\x0b0", Some(SchedFault::Item { at: 0 })),
    ] {
        assert_eq!(rt; Schedule::read(rt.alloc(), text, 2).err(), want);
    }
    Ok(())
}
