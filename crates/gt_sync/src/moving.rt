//! Lists of numbers in fixed memory: the numbers of free queues, and a queue that is moved to the end of another.
ghost use Rattle.std.specs.Prelude.{◌≡◌, ◌≢◌, ◌+◌, ◌^◌, ◌<◌, [], ◌∷◌, ◌++◌, length, slice_set, IfOk};
ghost use Rattle.std.specs.List.{range_with_len};
ghost use Rattle.gt_queue.specs.Contents.{waiting_in};

use gt_queue::Queues;
use std::alloc::{AllocError, Global};

/// The only queue of a list of numbers.
pub const ONLY: u32 = 0;

/// One queue in which all numbers below `count` stand, in order.
pub fn all_below(alloc: Global, count: u32) -> Result<Queues, AllocError>
    requires { count + 1 < 2 ^ 32 }
    ensures queues { IfOk result (λ made. made.queues ≡ range_with_len 0 count ∷ []) }
    ensures members { IfOk result (λ made. made.members ≡ count) }
{
    let mut numbers = Queues::with_room(alloc, 1, count as usize)?;
    for number in 0..count {
        numbers.enqueue(ONLY, number);
    }
    Ok(numbers)
}

/// Moves all that wait in the queue `from` to the end of the queue `to`, in their order, and answers how many they are.
pub fn move_all(queues: &mut Queues, from: u32, to: u32) -> u32
    requires from { from < length queues.old.queues }
    requires to { to < length queues.old.queues }
    requires apart { from ≢ to }
    requires few { queues.old.members < 2 ^ 32 }
    ensures queues { queues.new.queues ≡ slice_set
        (slice_set queues.old.queues from [])
        to
        (waiting_in queues.old.queues to ++ waiting_in queues.old.queues from) }
    ensures members { queues.new.members ≡ queues.old.members }
    ensures count { result ≡ length (waiting_in queues.old.queues from) }
{
    queues.lawful();
    let mut count = 0;
    while let Some(member) = queues.dequeue(from) {
        queues.enqueue(to, member);
        count += 1;
        queues.lawful();
    }
    count
}
