//! Each call on ties once; memory is given, and ties may be shared by threads.

use gt_tie::{OpenTies, agree, agree_place, open_ties, set_due, set_place};
use std::test::Fail;

fn is_shared<T: Sync>(_: &T) {}

fn is_sent<T: Send>(_: &T) {}

#[test]
fn ties_are_opened(rt: HostRuntime) -> Result<(), Fail> {
    let OpenTies {
        ties,
        book: _,
        recs,
        heaps,
    } = open_ties(rt.alloc(), 2, 1)?;
    is_shared(&ties);
    is_sent(&recs);
    is_sent(&heaps);
    assert_eq!(rt; recs.len(), 2);
    assert_eq!(rt; heaps.len(), 1);
    Ok(())
}

#[test]
fn sides_are_set_and_agree(rt: HostRuntime) -> Result<(), Fail> {
    let mut opened = open_ties(rt.alloc(), 2, 1)?;
    let rec = &mut opened.recs[1];
    let heap = &mut opened.heaps[0];
    agree(&opened.ties, &mut opened.book, rec);
    set_due(&opened.ties, &mut opened.book, rec, Some(7), 2);
    agree_place(&opened.ties, heap, rec);
    set_place(&opened.ties, heap, rec, Some(7));
    Ok(())
}
