//! The end of a context: it ends those that it reaches, and starts the hooks that wait on these.

ghost use Rattle.std.specs.Prelude.{◌≡◌, Some, true, length};
ghost use Rattle.gt_model.specs.declared.entry.Entry.{Entry};
ghost use Rattle.gt_model.specs.declared.entry.Limits.{Limits};
ghost use Rattle.gt_rules.specs.Contexts.{cancel_end, named_by, start_count};
ghost use Rattle.gt_rules.specs.State as at;
ghost use Rattle.gt_rules.specs.Legal.{Expires};
ghost use Rattle.gt_machine.specs.Machine.{state_of};
ghost use Rattle.gt_schedule.specs.declared.status.RunStatus.{RunStatus};
ghost use Rattle.gt_schedule.specs.Schedule.{status_of};
ghost use Rattle.gt_schedule.specs.Scheduler.{schedule_of};
ghost use Rattle.gt_book.specs.Run.{CanMake, CanEnter, Makes, Entered};
ghost use Rattle.gt_book.specs.Cuts.{KnowsEnded};

use crate::run::Run;
use gt_machine::{Machine, expiry_end};
use gt_model::{CauseVal, End, Entry, ErrVal, Instr, Limits, Script};
use gt_rules::Move;

/// How a context ends by a cancellation that names this error, if it names one.
fn cancel_end(named: Option<u32>) -> End
    ensures { result ≡ cancel_end named }
{
    End {
        err: ErrVal::Canceled,
        cause: match named {
            Some(e) => CauseVal::Named(e),
            None => CauseVal::Canceled,
        },
    }
}

/// The error that the cancellation names at which a goroutine stands, if it names one.
fn named_by(machine: &Machine, script: &Script, g: u32) -> Option<u32>
    ensures { result ≡ named_by (at.stands_at script.now (state_of machine.now) g) }
{
    match machine.stands_at(script, g) {
        Some(Instr::Cancel { cause, .. }) => *cause,
        _ => None,
    }
}

impl Run {
    /// Makes the entry of the cancellation of a context that has not ended.
    fn make_cancel(&mut self, script: &Script, g: u32, x: u32)
        requires { (limits : Limits) × CanMake script.now limits self.old (Entry.Cancel g x true (start_count script.now (state_of self.old.machine) x)) }
        ensures makes { (limits : Limits) → CanMake script.now limits self.old (Entry.Cancel g x true (start_count script.now (state_of self.old.machine) x))
            → Makes script.now limits self.old (Entry.Cancel g x true (start_count script.now (state_of self.old.machine) x)) self.new }
        ensures ended { KnowsEnded script.now self.old self.new }
    {
        let named = named_by(&self.machine, script, g);
        let starts = self.machine.cut(script, x, cancel_end(named));
        let mover = Some((g, Move::GoesOn { case_no: 0 }));
        self.machine.move_on(script, mover);
        self.machine.count();
        let entry = Entry::Cancel {
            g,
            x,
            newly: true,
            starts,
        };
        self.scheduler.apply(&entry);
        self.history.put(entry);
    }

    /// Makes the entry of a context that comes to its own deadline.
    fn make_expiry(&mut self, script: &Script, x: u32)
        requires { (limits : Limits) × CanMake script.now limits self.old (Entry.Expire x (start_count script.now (state_of self.old.machine) x)) }
        ensures makes { (limits : Limits) → CanMake script.now limits self.old (Entry.Expire x (start_count script.now (state_of self.old.machine) x))
            → Makes script.now limits self.old (Entry.Expire x (start_count script.now (state_of self.old.machine) x)) self.new }
        ensures ended { KnowsEnded script.now self.old self.new }
    {
        let starts = self.machine.cut(script, x, expiry_end(script, x));
        self.machine.count();
        let entry = Entry::Expire { x, starts };
        self.scheduler.apply(&entry);
        self.history.put(entry);
    }

    /// Ends a context that has not ended, by a goroutine in hand: makes its entry, and those of whoever waits at a context that ends.
    pub fn cancel(&mut self, script: &Script, limits: Limits, g: u32, x: u32)
        requires in_hand { status_of (schedule_of self.old.scheduler) g ≡ Some RunStatus.InHand }
        requires can { CanEnter script.now limits self.old (Entry.Cancel g x true (start_count script.now (state_of self.old.machine) x)) }
        ensures { Entered script.now limits self.old (Entry.Cancel g x true (start_count script.now (state_of self.old.machine) x)) self.new }
    {
        self.make_cancel(script, g, x);
        self.wake_ended(script, limits);
    }

    /// Ends a context that comes to its own deadline: makes its entry, and those of whoever waits at a context that ends.
    pub fn expire(&mut self, script: &Script, limits: Limits, x: u32)
        requires { CanEnter script.now limits self.old (Entry.Expire x (start_count script.now (state_of self.old.machine) x)) }
        ensures { Entered script.now limits self.old (Entry.Expire x (start_count script.now (state_of self.old.machine) x)) self.new }
    {
        self.make_expiry(script, x);
        self.wake_ended(script, limits);
    }
}
