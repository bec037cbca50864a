//! A WaitGroup.
ghost use Rattle.std.specs.Prelude.{◌≡◌, ◌≤ℤ◌, ◌+ℤ◌, pos, FitsSigned};
ghost use Rattle.std.specs.Int.{w64};
ghost use Rattle.gt_sync.specs.Waiting.{waiters, HasQueue, MayPark, Parks};
ghost use Rattle.gt_sync.specs.Steps.{add_step, wait_step, counter_after, queue_after, queues_after};

use crate::queues::Queues;
use std::marker::Model;

/// What comes of a change of the counter.
#[derive(Clone, Copy, Debug, PartialEq, Eq)]
pub enum AddStep {
    /// The counter is the sum, and nobody goes on.
    Plain,
    /// The counter came to 0, and those that waited for it go on.
    Woken,
    /// The sum is below 0; nothing changed.
    Negative,
}

/// What comes of a wait.
#[derive(Clone, Copy, Debug, PartialEq, Eq)]
pub enum WaitStep {
    /// The counter is 0.
    Done,
    /// The goroutine waits until the counter comes to 0.
    Park,
}

/// A WaitGroup. It is seen as its `counter`, and the number of the `queue` of those that wait for 0, None where nobody waits. The
/// counter is never below 0, and where it is 0 nobody waits.
#[derive(Drop)]
pub struct Wg {
    counter: i64,
    queue: Option<u32>,
}

impl Model for Wg {
    ghost use Rattle.std.specs.Prelude.{◌≡◌, ◌≤ℤ◌, pos, None};
    ghost use Rattle.gt_sync.specs.Steps.{Group};

    ghost Value = { Group };

    ghost view = { λ w. record { counter = w.counter; queue = w.queue } };

    ghost invariant = { λ w. (pos 0 ≤ℤ w.counter) × (w.counter ≡ pos 0 → w.queue ≡ None) };
}

impl Wg {
    /// The counter is 0.
    pub fn new() -> Wg
        ensures counter { result.counter ≡ pos 0 }
        ensures queue { result.queue ≡ None }
    {
        Wg {
            counter: 0,
            queue: None,
        }
    }

    /// Tells a proof what is true of a WaitGroup at all times. It does nothing.
    pub fn lawful(&self)
        ensures sign { pos 0 ≤ℤ self.now.counter }
        ensures zero { self.now.counter ≡ pos 0 → self.now.queue ≡ None }
    {
        let _counter = self.counter;
    }

    /// Adds n, which may be below 0, to the counter. Where the counter comes to 0, all that wait are woken, and
    /// `Queues::take_woken` hands them out. Where the sum is below 0, nothing changes.
    pub fn add(&mut self, n: i64, q: &mut Queues) -> AddStep
        requires here { HasQueue q.old self.old.queue }
        requires fits { FitsSigned w64 (self.old.counter +ℤ n) }
        ensures step { result ≡ add_step (self.old.counter +ℤ n) (waiters q.old self.old.queue) }
        ensures counter { self.new.counter ≡ counter_after result self.old.counter n }
        ensures queue { self.new.queue ≡ queue_after result self.old.queue }
        ensures queues { q.new ≡ queues_after result q.old self.old.queue }
        ensures here { HasQueue q.new self.new.queue }
    {
        let sum = self.counter + n;
        if sum < 0 {
            return AddStep::Negative;
        }
        self.counter = sum;
        if sum == 0 && q.wake_all(&mut self.queue) > 0 {
            AddStep::Woken
        } else {
            AddStep::Plain
        }
    }

    /// Goroutine g goes on where the counter is 0, and else waits, behind those that wait.
    pub fn wait(&mut self, g: u32, q: &mut Queues) -> WaitStep
        requires here { HasQueue q.old self.old.queue }
        requires may_park { MayPark q.old g }
        ensures step { result ≡ wait_step self.old.counter }
        ensures counter { self.new.counter ≡ self.old.counter }
        ensures done { result ≡ WaitStep.Done → (self.new.queue ≡ self.old.queue) × (q.new ≡ q.old) }
        ensures park { result ≡ WaitStep.Park → Parks q.old self.old.queue g q.new self.new.queue }
        ensures here { HasQueue q.new self.new.queue }
    {
        if self.counter == 0 {
            return WaitStep::Done;
        }
        q.join(&mut self.queue, g);
        WaitStep::Park
    }
}
