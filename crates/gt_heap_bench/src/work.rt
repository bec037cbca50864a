//! The fill and the calls.

ghost use Rattle.std.specs.Prelude.{◌≡◌, ◌+◌, ◌<◌, ◌≤◌, length, IfOk};
ghost use Rattle.gt_heap_bench.specs.Task.{entry_count, count_after};

use crate::draws::Draws;
use crate::task::{Calls, Task};
use gt_heap::{Quad, Steps};
use std::alloc::{AllocError, Global};
use std::sync::ledger::{Blank, Ledger};

// How many calls are made.
const CALLS: u32 = 1000;

/// Fills a heap, makes a thousand calls on it, and returns how many entries it has then.
///
/// # Errors
/// No memory for the entries and a thousand more.
pub fn final_length<L: Ledger>(alloc: Global, blank: Blank, task: Task) -> Result<usize, AllocError>
    requires { (blank.name ≡ L.name) × (blank.parts ≡ L.parts) × (0 < L.parts) }
    ensures { IfOk result (λ n. n ≡ count_after task.calls (entry_count task.size)) }
{
    let mut steps: Steps<L> = Steps::of(blank);
    let mut draws = Draws::new();
    let size = task.size.entries();
    let mut heap = Quad::with_room(alloc, (size + CALLS) as usize)?;
    push_drawn(&mut heap, size, &mut draws, &mut steps);
    match task.calls {
        Calls::Fill => {}
        Calls::Push => push_drawn(&mut heap, CALLS, &mut draws, &mut steps),
        Calls::Pop => pop_heads(&mut heap, CALLS, &mut steps),
        Calls::Change => change_drawn(&mut heap, CALLS, &mut draws, &mut steps),
    }
    Ok(heap.len())
}

/// Pushes so many entries with drawn keys.
fn push_drawn<L: Ledger>(heap: &mut Quad<u64>, count: u32, draws: &mut Draws, steps: &mut Steps<L>)
    requires { count ≤ heap.old.spare }
    ensures len { length heap.new.entries ≡ length heap.old.entries + count }
    ensures spare { heap.new.spare + count ≡ heap.old.spare }
{
    for id in 0..count {
        heap.push(draws.key(), id, u64::from(id), steps);
    }
}

/// Pops so many entries.
fn pop_heads<L: Ledger>(heap: &mut Quad<u64>, count: u32, steps: &mut Steps<L>)
    requires { count ≤ length heap.old.entries }
    ensures { length heap.new.entries + count ≡ length heap.old.entries }
{
    for call in 0..count {
        let _ = heap.pop(steps);
    }
}

/// Gives entries at so many drawn places drawn keys.
fn change_drawn<L: Ledger>(
    heap: &mut Quad<u64>,
    count: u32,
    draws: &mut Draws,
    steps: &mut Steps<L>,
)
    requires { 0 < length heap.old.entries }
    ensures { length heap.new.entries ≡ length heap.old.entries }
{
    for call in 0..count {
        let place = draws.place(heap.len());
        heap.set_key(place, draws.key(), steps);
    }
}
