//! A heap of one record: late changes, scans and runs, at values that were worked out by hand.
ghost use Rattle.std.specs.Prelude.{◌≡◌, IfOk};
ghost use Rattle.gt_rec.specs.Rec.{BitsRight};
ghost use Rattle.gt_lazy.specs.Slots.{StandsAt};

use gt_lazy::{Lazy, Ran, Scanned, change};
use gt_rec::{RecKind, TimerRec};
use std::alloc::{AllocError, Global};
use std::process::Abort;
use std::test::Fail;

// Makes sure that the entry at place `i` is the record's.
fn assert_stands(rt: &impl Abort, heap: &Lazy, i: usize, rec: &TimerRec)
    ensures { StandsAt heap.now i rec.now }
{
    assert!(rt; i < heap.len());
    let (key, id, _) = heap.entry(i);
    assert_eq!(rt; key, rec.key);
    assert_eq!(rt; id, rec.id);
    assert_eq!(rt; rec.heaped, Some(heap.number()));
}

// Scans the entry at the highest unscanned place, which is the record's.
fn scan_next(rt: &impl Abort, heap: &mut Lazy, rec: &mut TimerRec) -> Option<Scanned>
    requires { BitsRight rec.old }
    ensures { BitsRight rec.new }
{
    let i = heap.next_unscanned()?;
    assert_stands(rt, heap, i, rec);
    Some(heap.scan_one(i, rec))
}

// Runs the head, which is the record's.
fn run_next(rt: &impl Abort, heap: &mut Lazy, rec: &mut TimerRec, now: u64) -> Ran
    requires { BitsRight rec.old }
    ensures { BitsRight rec.new }
{
    assert_stands(rt, heap, 0, rec);
    heap.run_head(rec, now)
}

// A heap with one record of this kind, which is due at 10 and then each 10 later, and at which somebody waits.
fn alone(rt: &impl Abort, alloc: Global, kind: RecKind) -> Result<(Lazy, TimerRec), AllocError>
    ensures { IfOk result (λ made. BitsRight made.1) }
{
    let mut heap = Lazy::with_room(alloc, 3, 1)?;
    let mut rec = TimerRec::unset(7, kind);
    rec.arm(10, 10);
    rec.raise_blocked();
    assert!(rt; rec.needs_heap());
    heap.add(&mut rec);
    Ok((heap, rec))
}

#[test]
fn late_changes_reach_the_heap(rt: HostRuntime) -> Result<(), Fail> {
    let (mut heap, mut rec) = alone(&rt, rt.alloc(), RecKind::Func)?;
    heap.lawful();
    assert_eq!(rt; change(&mut rec, 4, 1), Some(4));
    assert_eq!(rt; heap.head(), Some((10, 7)));
    heap.begin_pass();
    assert_eq!(rt; scan_next(&rt, &mut heap, &mut rec), Some(Scanned::Moved));
    assert_eq!(rt; heap.head(), Some((4, 7)));
    assert_eq!(rt; heap.next_unscanned(), None);
    assert!(rt; rec.disarm());
    assert_stands(&rt, &heap, 0, &rec);
    assert_eq!(rt; heap.clean_head(&mut rec), Scanned::Swept);
    assert!(rt; heap.is_empty());
    Ok(())
}

#[test]
fn heads_are_run(rt: HostRuntime) -> Result<(), Fail> {
    let fired = |next| Ran::Fired {
        due: 10,
        seq: 1,
        next,
    };
    let table = [
        // kind, now, what is done, the key that is left
        (RecKind::Func, 9, Ran::NotDue(10), Some(10)),
        (RecKind::Timer, 13, fired(None), None),
        (RecKind::Ticker, 25, fired(Some(30)), Some(30)),
    ];
    for (kind, now, want, left) in table {
        let (mut heap, mut rec) = alone(&rt, rt.alloc(), kind)?;
        assert_eq!(rt; run_next(&rt, &mut heap, &mut rec, now), want);
        assert_eq!(rt; heap.head(), left.map(|key| (key, 7)));
    }
    Ok(())
}
