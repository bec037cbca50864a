//! Notes are found, memory is given, and the table may be shared by threads.

use gt_word_table::{Wake, open_words, wake_seen};
use gt_words::NONE;
use std::test::Fail;

fn is_shared<T: Sync>(_: &T) {}

fn is_sent<T: Send>(_: &T) {}

#[test]
fn a_note_is_found(rt: HostRuntime) -> Result<(), Fail> {
    let (words, mut workers, heaps) = open_words(rt.alloc(), 2, 2)?;
    is_shared(&words);
    is_sent(&workers);
    is_sent(&heaps);
    let mut worker = workers.pop().ok_or("no worker")?;
    assert_eq!(rt;
        wake_seen(&mut worker, &words, 0),
        Wake { at: NONE, count: 0 }
    );
    assert_eq!(rt;
        wake_seen(&mut worker, &words, 1),
        Wake { at: NONE, count: 0 }
    );
    worker.note(&words, 1, 7);
    assert_eq!(rt; wake_seen(&mut worker, &words, 1), Wake { at: 7, count: 0 });
    Ok(())
}

#[test]
fn a_heap_is_looked_through(rt: HostRuntime) -> Result<(), Fail> {
    let (words, mut workers, mut heaps) = open_words(rt.alloc(), 1, 1)?;
    let mut worker = workers.pop().ok_or("no worker")?;
    let mut heap = heaps.pop().ok_or("no heap")?;
    worker.note(&words, 0, 7);
    let seen = heap.load_mod(&words);
    heap.lower(&words, seen);
    heap.try_clear(&words, seen);
    assert!(rt; heap.bump(&words));
    heap.raise(&words, 12);
    assert_eq!(rt;
        wake_seen(&mut worker, &words, 0),
        Wake { at: 12, count: 1 }
    );
    Ok(())
}
