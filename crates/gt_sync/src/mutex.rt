//! A mutex.
ghost use Rattle.std.specs.Prelude.{◌≡◌, false, IsTrue};
ghost use Rattle.gt_sync.specs.Waiting.{waiters, HasQueue, MayPark, Parks, queue_left, first_gone};
ghost use Rattle.gt_sync.specs.Steps.{lock_step, unlock_step, is_held};

use crate::queues::Queues;
use std::marker::Model;

/// What comes of an attempt to lock.
#[derive(Clone, Copy, Debug, PartialEq, Eq)]
pub enum LockStep {
    /// The goroutine has the lock.
    Done,
    /// It waits for the lock.
    Park,
}

/// What comes of an unlock.
#[derive(Clone, Copy, Debug, PartialEq, Eq)]
pub enum UnlockStep {
    /// Nobody has the lock.
    Free,
    /// This goroutine, which waited longest, has the lock.
    Next(u32),
    /// Nobody had the lock.
    NotLocked,
}

/// A mutex. It is seen as whether it is `locked`, and the number of the `queue` of those that wait for it, None where nobody
/// waits. Nobody waits for a free mutex.
#[derive(Drop)]
pub struct Mu {
    locked: bool,
    queue: Option<u32>,
}

impl Model for Mu {
    ghost use Rattle.std.specs.Prelude.{◌≡◌, false, None};
    ghost use Rattle.gt_sync.specs.Steps.{Lock};

    ghost Value = { Lock };

    ghost view = { λ m. record { locked = m.locked; queue = m.queue } };

    ghost invariant = { λ m. m.locked ≡ false → m.queue ≡ None };
}

impl Mu {
    /// A mutex that nobody has.
    pub fn new() -> Mu
        ensures locked { result.locked ≡ false }
        ensures queue { result.queue ≡ None }
    {
        Mu {
            locked: false,
            queue: None,
        }
    }

    /// Tells a proof what is true of a mutex at all times. It does nothing.
    pub fn lawful(&self)
        ensures { self.now.locked ≡ false → self.now.queue ≡ None }
    {
        let _locked = self.locked;
    }

    /// Goroutine g takes the mutex where it is free, and else waits for it, behind those that wait.
    pub fn lock(&mut self, g: u32, q: &mut Queues) -> LockStep
        requires here { HasQueue q.old self.old.queue }
        requires may_park { MayPark q.old g }
        ensures step { result ≡ lock_step self.old.locked }
        ensures locked { IsTrue self.new.locked }
        ensures done { result ≡ LockStep.Done → (self.new.queue ≡ self.old.queue) × (q.new ≡ q.old) }
        ensures park { result ≡ LockStep.Park → Parks q.old self.old.queue g q.new self.new.queue }
        ensures here { HasQueue q.new self.new.queue }
    {
        if self.locked {
            q.join(&mut self.queue, g);
            return LockStep::Park;
        }
        self.locked = true;
        LockStep::Done
    }

    /// Hands the mutex to the one that has waited longest, or frees it where nobody waits. Where it is free, nothing changes.
    pub fn unlock(&mut self, q: &mut Queues) -> UnlockStep
        requires { HasQueue q.old self.old.queue }
        ensures step { result ≡ unlock_step self.old.locked (waiters q.old self.old.queue) }
        ensures not_locked { result ≡ UnlockStep.NotLocked → self.old.queue ≡ None }
        ensures locked { self.new.locked ≡ is_held result }
        ensures queue { self.new.queue ≡ queue_left q.old self.old.queue }
        ensures queues { q.new ≡ first_gone q.old self.old.queue }
        ensures here { HasQueue q.new self.new.queue }
    {
        if !self.locked {
            return UnlockStep::NotLocked;
        }
        match q.take_first(&mut self.queue) {
            Some(next) => UnlockStep::Next(next),
            None => {
                self.locked = false;
                UnlockStep::Free
            }
        }
    }
}
