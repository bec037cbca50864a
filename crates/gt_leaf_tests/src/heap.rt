//! Where equal keys stand, which no clause says, and each call once.
ghost use Rattle.std.specs.Prelude.{◌≡◌, ◌<◌};

use gt_heap::{Quad, Steps};
use std::alloc::{AllocError, Global};
use std::marker::Brand;
use std::process::Abort;
use std::sync::ledger::{Blank, Ledger};
use std::test::Fail;

// A heap with these keys and ids, in which each entry carries a hundred more than its id.
fn filled<L: Ledger>(
    alloc: Global,
    pushed: &[(u64, u32)],
    steps: &mut Steps<L>,
) -> Result<Quad<u64>, AllocError> {
    let mut heap = Quad::with_room(alloc, pushed.len())?;
    for (key, id) in pushed {
        heap.push(*key, *id, u64::from(*id) + 100, steps);
    }
    Ok(heap)
}

fn pops<L: Ledger>(
    rt: &impl Abort,
    alloc: Global,
    blank: Blank,
    pushed: &[(u64, u32)],
    popped: &[(u64, u32)],
) -> Result<(), AllocError>
    requires { (blank.name ≡ L.name) × (blank.parts ≡ L.parts) × (0 < L.parts) }
{
    let mut steps: Steps<L> = Steps::of(blank);
    let mut heap = filled(alloc, pushed, &mut steps)?;
    for (key, id) in popped {
        assert_eq!(rt; heap.head(), Some((*key, *id)));
        assert_eq!(rt;
            heap.pop(&mut steps),
            Some((*key, *id, u64::from(*id) + 100))
        );
    }
    assert!(rt; heap.is_empty());
    Ok(())
}

#[test]
fn the_first_of_the_least_children_goes_up(rt: HostRuntime) -> Result<(), Fail> {
    let table = [
        (
            [(1, 0), (2, 1), (2, 2), (2, 3), (2, 4)].as_slice(),
            [(1, 0), (2, 4), (2, 3), (2, 2), (2, 1)].as_slice(),
        ),
        (
            [(1, 0), (3, 1), (2, 2), (2, 3), (3, 4), (5, 5)].as_slice(),
            [(1, 0), (2, 2), (2, 3), (3, 4), (3, 1), (5, 5)].as_slice(),
        ),
    ];
    for (pushed, popped) in table {
        pops::<Brand>(&rt, rt.alloc(), Blank::new(1), pushed, popped)?;
    }
    Ok(())
}

fn reads_and_writes<L: Ledger>(
    rt: &impl Abort,
    alloc: Global,
    blank: Blank,
) -> Result<(), AllocError>
    requires { (blank.name ≡ L.name) × (blank.parts ≡ L.parts) × (0 < L.parts) }
{
    let mut steps: Steps<L> = Steps::of(blank);
    let mut heap = filled(alloc, &[(5, 1), (3, 2), (9, 3)], &mut steps)?;
    assert_eq!(rt; heap.len(), 3);
    assert_eq!(rt; heap.key_at(1), (5, 1));
    *heap.at_mut(1) = 7;
    assert_eq!(rt; heap.len(), 3);
    assert_eq!(rt; *heap.at(1), 7);
    heap.set_key(1, 1, &mut steps);
    assert_eq!(rt; heap.head(), Some((1, 1)));
    assert_eq!(rt; heap.remove(0, &mut steps), 7);
    Ok(())
}

#[test]
fn each_place_is_read_and_written(rt: HostRuntime) -> Result<(), Fail> {
    reads_and_writes::<Brand>(&rt, rt.alloc(), Blank::new(1))?;
    Ok(())
}
