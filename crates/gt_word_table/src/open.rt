//! How a table is made.

ghost use Rattle.std.specs.Prelude.{◌≡◌, ◌+◌, ◌<◌, ◌≤◌, [], All, IfOk, vec_len};
ghost use Rattle.gt_word_table.specs.Rule.{rest};
ghost use Rattle.gt_word_table.specs.Opening.{AreEmpty, IsFreshWorker, IsFreshHeap, AreFreshHeaps};

use crate::heap::HeapSeat;
use crate::table::{NextHeap, NextWorker, TableWords};
use crate::view::View;
use crate::worker::WorkerSeat;
use atomic_table::{Seat, Table};
use gt_words::NONE;
use std::alloc::{AllocError, Global};

// The words of so many heaps: no due time in any of them, and counts of 0.
fn empty_words(alloc: Global, heaps: usize) -> Result<Vec<u64>, AllocError>
    ensures { IfOk result (λ words. AreEmpty heaps words.items) }
{
    let mut words = Vec::new(alloc);
    for _ in 0..heaps {
        words.push(NONE)?;
        words.push(NONE)?;
        words.push(0)?;
    }
    Ok(words)
}

// A worker's seat off the rest.
fn next_worker(words: &TableWords, remaining: &mut Seat<(), View>) -> WorkerSeat
    requires heaps { 1 ≤ words.now.heaps }
    requires table { remaining.old.table_id ≡ words.now.table }
    requires rest { remaining.old.me ≡ (rest words.now.heaps 0, []) }
    ensures table { remaining.new.table_id ≡ words.now.table }
    ensures rest { remaining.new.me ≡ (rest words.now.heaps 0, []) }
    ensures seat { IsFreshWorker words.now result }
{
    let seat = words.words.shared.split_seat::<NextWorker>(remaining);
    WorkerSeat { seat }
}

// The seat of the next heap off the rest.
fn next_heap(words: &TableWords, remaining: &mut Seat<(), View>, heap: u32) -> HeapSeat
    requires heap { heap < words.now.heaps }
    requires table { remaining.old.table_id ≡ words.now.table }
    requires rest { remaining.old.me ≡ (rest words.now.heaps heap, []) }
    ensures table { remaining.new.table_id ≡ words.now.table }
    ensures rest { remaining.new.me ≡ (rest words.now.heaps (heap + 1), []) }
    ensures seat { IsFreshHeap words.now heap result }
{
    let seat = words.words.shared.split_seat::<NextHeap>(remaining);
    HeapSeat {
        seat,
        heap,
        count: 0,
    }
}

fn worker_seats(
    alloc: Global,
    words: &TableWords,
    remaining: &mut Seat<(), View>,
    workers: u32,
) -> Result<Vec<WorkerSeat>, AllocError>
    requires heaps { 1 ≤ words.now.heaps }
    requires table { remaining.old.table_id ≡ words.now.table }
    requires rest { remaining.old.me ≡ (rest words.now.heaps 0, []) }
    ensures table { remaining.new.table_id ≡ words.now.table }
    ensures rest { remaining.new.me ≡ (rest words.now.heaps 0, []) }
    ensures count { IfOk result (λ seats. vec_len seats ≡ workers) }
    ensures seats { IfOk result (λ seats. All (IsFreshWorker words.now) seats.items) }
{
    let mut seats = Vec::new(alloc);
    for _ in 0..workers {
        seats.push(next_worker(words, remaining))?;
    }
    Ok(seats)
}

fn heap_seats(
    alloc: Global,
    words: &TableWords,
    remaining: &mut Seat<(), View>,
    heaps: u32,
) -> Result<Vec<HeapSeat>, AllocError>
    requires heaps { heaps ≡ words.now.heaps }
    requires table { remaining.old.table_id ≡ words.now.table }
    requires rest { remaining.old.me ≡ (rest words.now.heaps 0, []) }
    ensures count { IfOk result (λ seats. vec_len seats ≡ heaps) }
    ensures seats { IfOk result (λ seats. AreFreshHeaps words.now seats.items) }
{
    let mut seats = Vec::new(alloc);
    for heap in 0..heaps {
        seats.push(next_heap(words, remaining, heap))?;
    }
    Ok(seats)
}

/// The words of `ps` heaps, and a seat for each of so many workers and for each heap in turn. Both numbers are 1 to 16. No
/// due time is in any word, and each count is 0. It takes memory.
pub fn open_words(
    alloc: Global,
    ps: u32,
    workers: u32,
) -> Result<(TableWords, Vec<WorkerSeat>, Vec<HeapSeat>), AllocError>
    requires ps { (1 ≤ ps) × (ps ≤ 16) }
    requires workers { (1 ≤ workers) × (workers ≤ 16) }
    ensures heaps { IfOk result (λ opened. opened.0.heaps ≡ ps) }
    ensures worker_count { IfOk result (λ opened. vec_len opened.1 ≡ workers) }
    ensures worker_seats { IfOk result (λ opened. All (IsFreshWorker opened.0) opened.1.items) }
    ensures heap_count { IfOk result (λ opened. vec_len opened.2 ≡ ps) }
    ensures heap_seats { IfOk result (λ opened. AreFreshHeaps opened.0 opened.2.items) }
{
    let heaps = ps as usize;
    let empty = empty_words(alloc, heaps)?;
    let (words, mut remaining) = Table::of_words(alloc, empty.as_slice(), &heaps)?;
    let words = TableWords { words, heaps };
    let workers = worker_seats(alloc, &words, &mut remaining, workers)?;
    let heaps = heap_seats(alloc, &words, &mut remaining, ps)?;
    Ok((words, workers, heaps))
}
