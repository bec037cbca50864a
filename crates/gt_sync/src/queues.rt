//! The queues of the goroutines that wait at objects.
ghost use Rattle.std.specs.Prelude.{◌≡◌, ◌↔◌, [], length, slice_get, IsNone, IfOk};
ghost use Rattle.gt_sync.specs.Waiting.{IsLawful, no_waiters, handed_out, waiters, HasQueue, MayPark, Parks, queue_left, first_gone, all_woken};

use crate::moving::{ONLY, all_below, move_all};
use std::alloc::{AllocError, Global};
use std::marker::Model;

/// Above every number of goroutines for which there can be room.
const TOO_MANY: usize = 0x7fff_ffff;

/// The queue of those that were woken and not yet handed out. An object's queue `n` comes `n + 1` places after it.
const WOKEN: u32 = 0;

/// The queues of goroutines. They are seen as the list of the objects' queues, each the list of those that wait there with the
/// longest waiting first; the list `woken` of those that were woken and are still to be handed out, in that order; and the
/// greatest number `goroutines` of a goroutine.
///
/// A goroutine waits at one object at most, so that one link for each is enough. An object has a queue only while somebody waits
/// at it, so that one queue for each goroutine is enough.
#[derive(Drop)]
pub struct Queues {
    waiting: gt_queue::Queues,
    /// The numbers of the queues in which nobody waits.
    free: gt_queue::Queues,
}

impl Model for Queues {
    ghost use Rattle.gt_sync.specs.Waiting.{Waiting};

    ghost Value = { Waiting };

    ghost use Rattle.gt_sync.specs.Kept.{waiting_of, IsKept};

    ghost view = { λ q. waiting_of q.waiting };

    ghost invariant = { λ q. IsKept q.waiting q.free };
}

impl Queues {
    /// Room for the goroutines with the numbers from 1 to `goroutines`. Nobody waits yet. It alone takes memory; room for
    /// 2^31 - 1 goroutines or more is never given.
    pub fn with_room(alloc: Global, goroutines: usize) -> Result<Queues, AllocError>
        ensures { IfOk result (λ made. made ≡ no_waiters goroutines) }
    {
        if goroutines >= TOO_MANY {
            return Err(AllocError);
        }
        let queues = goroutines + 1;
        let waiting = gt_queue::Queues::with_room(alloc, queues + 1, goroutines + 1)?;
        let free = all_below(alloc, queues as u32)?;
        Ok(Queues { waiting, free })
    }

    /// Tells a proof what is true of the queues at all times. It does nothing.
    pub fn lawful(&self)
        ensures { IsLawful self.now }
    {
        self.waiting.lawful();
    }

    /// Hands out a goroutine that `Wg::add` or `CondQ::broadcast` woke: those of an earlier call first, and of one call the one
    /// that waited longest. None where none is left, and then nothing changes.
    pub fn take_woken(&mut self) -> Option<u32>
        ensures first { result ≡ slice_get self.old.woken 0 }
        ensures none { IsNone result ↔ (self.old.woken ≡ []) }
        ensures queues { self.new ≡ handed_out self.old }
    {
        self.waiting.dequeue(WOKEN)
    }

    // From now on g waits at the object with this queue, behind those that wait there.
    pub(crate) fn join(&mut self, queue: &mut Option<u32>, g: u32)
        requires here { HasQueue self.old queue.old }
        requires may_park { MayPark self.old g }
        ensures parks { Parks self.old queue.old g self.new queue.new }
        ensures here { HasQueue self.new queue.new }
    {
        if let Some(number) = *queue {
            self.waiting.enqueue(number + 1, g);
            return;
        }
        self.waiting.lawful();
        self.free.lawful();
        let number = self.free.dequeue(ONLY).unwrap();
        self.waiting.enqueue(number + 1, g);
        *queue = Some(number);
    }

    // Takes out the one that has waited longest at the object with this queue. None where nobody waits there.
    pub(crate) fn take_first(&mut self, queue: &mut Option<u32>) -> Option<u32>
        requires { HasQueue self.old queue.old }
        ensures first { result ≡ slice_get (waiters self.old queue.old) 0 }
        ensures queue { queue.new ≡ queue_left self.old queue.old }
        ensures queues { self.new ≡ first_gone self.old queue.old }
        ensures here { HasQueue self.new queue.new }
    {
        let number = (*queue)?;
        let first = self.waiting.dequeue(number + 1);
        if self.waiting.is_empty(number + 1) {
            self.free.enqueue(ONLY, number);
            *queue = None;
        }
        first
    }

    // Wakes all that wait at the object with this queue, and answers how many they are.
    pub(crate) fn wake_all(&mut self, queue: &mut Option<u32>) -> u32
        requires { HasQueue self.old queue.old }
        ensures count { result ≡ length (waiters self.old queue.old) }
        ensures queue { queue.new ≡ None }
        ensures queues { self.new ≡ all_woken self.old queue.old }
    {
        let Some(number) = *queue else {
            return 0;
        };
        let count = move_all(&mut self.waiting, number + 1, WOKEN);
        self.free.enqueue(ONLY, number);
        *queue = None;
        count
    }
}
