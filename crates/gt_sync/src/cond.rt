//! A condition variable's suspended goroutines.
ghost use Rattle.std.specs.Prelude.{◌≡◌, ◌↔◌, [], length, slice_get, IsNone};
ghost use Rattle.gt_sync.specs.Waiting.{waiters, HasQueue, MayPark, Parks, queue_left, first_gone, all_woken};

use crate::queues::Queues;
use std::marker::Model;

/// Those that are suspended at a condition variable. It is seen as the number of their `queue`, None where nobody is suspended.
#[derive(Drop)]
pub struct CondQ {
    queue: Option<u32>,
}

impl Model for CondQ {
    ghost use Rattle.gt_sync.specs.Steps.{Suspension};

    ghost Value = { Suspension };

    ghost view = { λ c. record { queue = c.queue } };
}

impl CondQ {
    /// Nobody is suspended.
    pub fn new() -> CondQ
        ensures { result.queue ≡ None }
    {
        CondQ { queue: None }
    }

    /// Suspends g, behind those that are suspended.
    pub fn wait(&mut self, g: u32, q: &mut Queues)
        requires here { HasQueue q.old self.old.queue }
        requires may_park { MayPark q.old g }
        ensures parks { Parks q.old self.old.queue g q.new self.new.queue }
        ensures here { HasQueue q.new self.new.queue }
    {
        q.join(&mut self.queue, g);
    }

    /// Takes out the one that has been suspended longest. None where nobody is suspended, and then nothing changes.
    pub fn signal(&mut self, q: &mut Queues) -> Option<u32>
        requires { HasQueue q.old self.old.queue }
        ensures first { result ≡ slice_get (waiters q.old self.old.queue) 0 }
        ensures none { IsNone result ↔ (waiters q.old self.old.queue ≡ []) }
        ensures queue { self.new.queue ≡ queue_left q.old self.old.queue }
        ensures queues { q.new ≡ first_gone q.old self.old.queue }
        ensures here { HasQueue q.new self.new.queue }
    {
        q.take_first(&mut self.queue)
    }

    /// Wakes all that are suspended, and answers how many they are; `Queues::take_woken` hands them out.
    pub fn broadcast(&mut self, q: &mut Queues) -> u32
        requires { HasQueue q.old self.old.queue }
        ensures count { result ≡ length (waiters q.old self.old.queue) }
        ensures queue { self.new.queue ≡ None }
        ensures queues { q.new ≡ all_woken q.old self.old.queue }
    {
        q.wake_all(&mut self.queue)
    }
}
