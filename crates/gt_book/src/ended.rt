//! Who waits at contexts that have ended goes on, in the order in which they were parked.

ghost use Rattle.std.specs.Prelude.{ℕ, ◌≡◌, ◌≤◌, ◌<◌, ◌+◌, ◌++◌, IfSome, IfNone, length};
ghost use Rattle.std.specs.List.{AllByRecursion};
ghost use Rattle.std.specs.List.Sorted.{IsPermutation};
ghost use Rattle.std.specs.BinaryHeap.{heap_items, heap_len, heap_capacity};
ghost use Rattle.gt_model.specs.Good.{IsGood};
ghost use Rattle.gt_facts.specs.Formed.{IsFormed};
ghost use Rattle.gt_machine.specs.Machine.{state_of, ended_of};
ghost use Rattle.gt_schedule.specs.Scheduler.{schedule_of, IsScheduler};
ghost use Rattle.gt_book.specs.View.{Fits};
ghost use Rattle.gt_book.specs.Calm.{IsCalm};
ghost use Rattle.gt_book.specs.Run.{Wakes};
ghost use Rattle.gt_book.specs.Cuts.{CanWakeEnded};
ghost use Rattle.gt_book.specs.Notes as notes;
ghost use Rattle.gt_book.specs.Notes.{AreNoted, CanWakeNoted, Takes, is_noted, is_waited_at, notes_by};

use crate::channels::next_woken;
use crate::run::Run;
use gt_machine::Machine;
use gt_model::{Entry, Limits, Script};
use gt_schedule::Scheduler;
use std::cmp::Reverse;
use std::collections::BinaryHeap;

/// Since when the one has been parked who has waited longest at a context; none where nobody waits there.
fn since_at(scheduler: &Scheduler, x: u32) -> Option<u64>
    requires kept { IsScheduler scheduler.now }
    requires declared { x < length (schedule_of scheduler.now).receivers }
    ensures { result ≡ notes.since_at (schedule_of scheduler.now) x }
{
    let first = scheduler.first_receiver(x)?;
    Some(scheduler.since_of(first.g))
}

/// Whether the one who waits at a context for the longest time was parked later than was noted: one who was parked earlier went on elsewhere.
fn is_out_of_date(scheduler: &Scheduler, since: u64, x: u32) -> bool
    requires kept { IsScheduler scheduler.now }
    requires declared { x < length (schedule_of scheduler.now).receivers }
    ensures { result ≡ notes.is_later since (notes.since_at (schedule_of scheduler.now) x) }
{
    match since_at(scheduler, x) {
        Some(now) => since < now,
        None => false,
    }
}

/// Notes a context, where somebody waits there.
fn note_waiting(waking: &mut BinaryHeap<Reverse<(u64, u32)>>, scheduler: &Scheduler, x: u32)
    requires kept { IsScheduler scheduler.now }
    requires declared { x < length (schedule_of scheduler.now).receivers }
    requires room { heap_len waking.old < heap_capacity waking.old }
    ensures noted { IsPermutation (notes_by x (notes.since_at (schedule_of scheduler.now) x) ++ heap_items waking.old) (heap_items waking.new) }
    ensures few { heap_len waking.new ≤ heap_len waking.old + 1 }
    ensures room { heap_capacity waking.old ≤ heap_capacity waking.new }
{
    if let Some(since) = since_at(scheduler, x) {
        let _room = waking.push(Reverse((since, x)));
    }
}

/// Notes those of the contexts that ended last at which somebody waits, and no other.
fn note_ended(
    waking: &mut BinaryHeap<Reverse<(u64, u32)>>,
    machine: &Machine,
    scheduler: &Scheduler,
)
    requires kept { IsScheduler scheduler.now }
    requires declared { AllByRecursion (λ x. x < length (schedule_of scheduler.now).receivers) (ended_of machine.now) }
    requires room { length (ended_of machine.now) ≤ heap_capacity waking.old }
    ensures noted { (o : ℕ) → is_noted (heap_items waking.new) o ≡ is_waited_at (schedule_of scheduler.now) (ended_of machine.now) o }
    ensures few { heap_len waking.new ≤ length (ended_of machine.now) }
    ensures room { heap_capacity waking.old ≤ heap_capacity waking.new }
{
    waking.clear();
    for k in 0..machine.ended().len() {
        note_waiting(waking, scheduler, machine.ended()[k]);
    }
}

/// The next entry of one who waits at a context that is noted, and that context, which is noted no more; none where nobody waits at one. A goroutine may have
/// waited at several of these: then what was noted of one is out of date, and is noted again.
fn take_next(
    waking: &mut BinaryHeap<Reverse<(u64, u32)>>,
    machine: &Machine,
    scheduler: &Scheduler,
    script: &Script,
) -> Option<(u32, Entry)>
    requires good { IsGood script.now }
    requires formed { IsFormed script.now (state_of machine.now) }
    requires fits { Fits script.now (state_of machine.now) (schedule_of scheduler.now) }
    requires kept { IsScheduler scheduler.now }
    requires noted { AreNoted script.now (state_of machine.now) (schedule_of scheduler.now) waking.old }
    ensures takes { IfSome result (λ r. Takes script.now (state_of machine.now) (schedule_of scheduler.now) r.0 r.1 waking.new) }
    ensures none { IfNone result (IsCalm script.now (state_of machine.now) (schedule_of scheduler.now)) }
    ensures room { length script.now.decls ≤ heap_capacity waking.new }
{
    while let Some(Reverse((since, x))) = waking.pop() {
        if is_out_of_date(scheduler, since, x) {
            note_waiting(waking, scheduler, x);
        } else if let Some(entry) = next_woken(machine, scheduler, script, x) {
            return Some((x, entry));
        }
    }
    None
}

impl Run {
    /// Lets those go on that wait at the contexts that ended last, in the order in which they were parked, until none waits there or the run is to end.
    pub(crate) fn wake_ended(&mut self, script: &Script, limits: Limits)
        requires { CanWakeEnded script.now limits self.old }
        ensures { Wakes script.now limits self.old self.new }
    {
        note_ended(&mut self.waking, &self.machine, &self.scheduler);
        self.wake_noted(script, limits);
    }

    /// Lets those go on that wait at the contexts that are noted, in the order in which they were parked, until none waits there or the run is to end.
    fn wake_noted(&mut self, script: &Script, limits: Limits)
        requires { CanWakeNoted script.now limits self.old }
        ensures { Wakes script.now limits self.old self.new }
    {
        while self.machine.due_outcome(limits).is_none() {
            let next = take_next(&mut self.waking, &self.machine, &self.scheduler, script);
            let Some((x, entry)) = next else {
                return;
            };
            self.make(script, entry);
            note_waiting(&mut self.waking, &self.scheduler, x);
        }
    }
}
