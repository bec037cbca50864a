//! A broadcast: all that wait at a Cond are signalled.

ghost use Rattle.std.specs.Prelude.{◌≡◌};
ghost use Rattle.gt_model.specs.declared.entry.Entry.{Entry};
ghost use Rattle.gt_model.specs.declared.entry.Limits.{Limits};
ghost use Rattle.gt_rules.specs.State.{suspended_count};
ghost use Rattle.gt_machine.specs.Machine.{state_of};
ghost use Rattle.gt_schedule.specs.declared.status.RunStatus.{RunStatus};
ghost use Rattle.gt_schedule.specs.Schedule.{status_of};
ghost use Rattle.gt_schedule.specs.Scheduler.{schedule_of};
ghost use Rattle.gt_book.specs.Run.{CanMake, CanEnter, Makes, Entered};
ghost use Rattle.gt_book.specs.Broadcasts.{CanSignal, Signals};

use crate::run::Run;
use gt_machine::mutex_of;
use gt_model::{Entry, Limits, Script};

impl Run {
    /// All that wait at a Cond are signalled, who has waited longest first: they wait for its mutex. The answer is how many they are.
    fn signal_all(&mut self, script: &Script, k: u32) -> u32
        requires { CanSignal script.now self.old k }
        ensures { Signals script.now self.old k result self.new }
    {
        let _ = script;
        let mut count = 0;
        while let Some(p) = self.scheduler.first_receiver(k) {
            self.machine.relock(p.g, k);
            self.scheduler.relock(p.g, k);
            count += 1;
        }
        count
    }

    /// Makes the entry of a broadcast by a goroutine in hand.
    fn make_broadcast(&mut self, script: &Script, g: u32, k: u32)
        requires in_hand { status_of (schedule_of self.old.scheduler) g ≡ Some RunStatus.InHand }
        requires can { (limits : Limits) × CanMake script.now limits self.old (Entry.Broadcast g k (suspended_count (state_of self.old.machine) k)) }
        ensures { (limits : Limits) → CanMake script.now limits self.old (Entry.Broadcast g k (suspended_count (state_of self.old.machine) k))
            → Makes script.now limits self.old (Entry.Broadcast g k (suspended_count (state_of self.old.machine) k)) self.new }
    {
        let count = self.signal_all(script, k);
        let signalled = Entry::Broadcast { g, k, count: 0 };
        self.machine.apply(script, &signalled);
        self.scheduler.apply(&signalled);
        self.history.put(Entry::Broadcast { g, k, count });
    }

    /// Makes the entry of a broadcast by a goroutine in hand, and those of whoever goes on by it at the mutex.
    pub fn broadcast(&mut self, script: &Script, limits: Limits, g: u32, k: u32)
        requires in_hand { status_of (schedule_of self.old.scheduler) g ≡ Some RunStatus.InHand }
        requires can { CanEnter script.now limits self.old (Entry.Broadcast g k (suspended_count (state_of self.old.machine) k)) }
        ensures { Entered script.now limits self.old (Entry.Broadcast g k (suspended_count (state_of self.old.machine) k)) self.new }
    {
        self.make_broadcast(script, g, k);
        self.wake(script, limits, mutex_of(script, k));
    }
}
