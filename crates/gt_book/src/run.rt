//! What a run has made so far, and how an entry is made.

ghost use Rattle.gt_model.specs.declared.entry.Entry.{Entry};
ghost use Rattle.gt_model.specs.declared.entry.Limits.{Limits};
ghost use Rattle.gt_model.specs.declared.script.Script.{Script};
ghost use Rattle.std.specs.Prelude.{◌≡◌, None, false};
ghost use Rattle.gt_machine.specs.Machine.{is_cut};
ghost use Rattle.gt_rules.specs.Change.{change_of};
ghost use Rattle.gt_book.specs.Woken.{stepped_object, signalled_for, derived, changed_object};
ghost use Rattle.gt_book.specs.Run.{CanMake, Makes, CanWake, Wakes, CanEnter, Entered, CanEnd, Ends};

use crate::channels::next_woken;
use gt_machine::{Machine, mutex_of};
use gt_model::{Entry, Limits, Script};
use gt_room::Room;
use gt_rules::{Move, SyncStep, TreeStep, broadcast_of, channel_of, partner_of, sync_of, tree_of};
use gt_schedule::Scheduler;
use std::cmp::Reverse;
use std::collections::BinaryHeap;

/// The mutex or the WaitGroup that a step changes, as far as somebody waits for it: of a Cond its mutex.
fn stepped_object(script: &Script, o: u32, step: SyncStep) -> u32
    ensures { result ≡ stepped_object script.now o step }
{
    match step {
        SyncStep::Locks | SyncStep::Unlocks | SyncStep::Adds { .. } => o,
        SyncStep::Releases | SyncStep::Retakes => mutex_of(script, o),
    }
}

/// The mutex for which somebody waits once it is signalled.
fn signalled_for(script: &Script, partner: Option<(u32, Move)>) -> Option<u32>
    ensures { result ≡ signalled_for script.now partner }
{
    match partner {
        Some((_, Move::Relocks { cond })) => Some(mutex_of(script, cond)),
        _ => None,
    }
}

/// The context that is made, at which nobody waits yet.
fn derived(tree: Option<(u32, TreeStep)>) -> Option<u32>
    ensures { result ≡ derived tree }
{
    match tree {
        Some((x, TreeStep::Derived)) => Some(x),
        _ => None,
    }
}

/// The object at which an entry by which no context ends may let others go on: the channel, the mutex, the WaitGroup or the context that it changes, or the
/// mutex for which those wait whom it signals.
fn changed_object(script: &Script, entry: &Entry) -> Option<u32>
    ensures { result ≡ changed_object script.now (change_of entry.now) }
{
    if let Some((c, _)) = channel_of(entry) {
        return Some(c);
    }
    if let Some((o, step)) = sync_of(entry) {
        return Some(stepped_object(script, o, step));
    }
    if let Some(mutex) = signalled_for(script, partner_of(entry)) {
        return Some(mutex);
    }
    if let Some(k) = broadcast_of(entry) {
        return Some(mutex_of(script, k));
    }
    derived(tree_of(entry))
}

/// The entries that a run has made, the state after them, and who runs and who waits.
#[derive(Drop)]
pub struct Run {
    pub history: Room<Entry>,
    pub machine: Machine,
    pub scheduler: Scheduler,
    /// While those go on who wait at contexts that have ended: at which contexts somebody waits, with when the one was parked who has waited longest there.
    pub waking: BinaryHeap<Reverse<(u64, u32)>>,
}

impl Run {
    /// Makes an entry that is no broadcast and by which no context ends.
    pub(crate) fn make(&mut self, script: &Script, entry: Entry)
        requires can { (limits : Limits) × CanMake script.now limits self.old entry }
        requires alone { (change_of entry).broadcast ≡ None }
        requires uncut { is_cut (change_of entry).tree ≡ false }
        ensures makes { (limits : Limits) → CanMake script.now limits self.old entry → Makes script.now limits self.old entry self.new }
        ensures noted { self.new.waking ≡ self.old.waking }
    {
        self.machine.apply(script, &entry);
        self.scheduler.apply(&entry);
        self.history.put(entry);
    }

    /// Lets those go on that wait at an object and can, until none can or the run is to end.
    pub fn wake(&mut self, script: &Script, limits: Limits, o: u32)
        requires { CanWake script.now limits self.old o }
        ensures { Wakes script.now limits self.old self.new }
    {
        while self.machine.due_outcome(limits).is_none() {
            let Some(entry) = next_woken(&self.machine, &self.scheduler, script, o) else {
                return;
            };
            self.make(script, entry);
        }
    }

    /// Makes an entry that is no broadcast and by which no context ends, and those of whoever goes on by it at the object that it changes.
    pub fn enter(&mut self, script: &Script, limits: Limits, entry: Entry)
        requires can { CanEnter script.now limits self.old entry }
        requires alone { (change_of entry).broadcast ≡ None }
        requires uncut { is_cut (change_of entry).tree ≡ false }
        ensures { Entered script.now limits self.old entry self.new }
    {
        self.make(script, entry);
        if let Some(o) = changed_object(script, &entry) {
            self.wake(script, limits, o);
        }
    }

    /// Ends the run where an outcome is due.
    pub fn end(&mut self, limits: Limits)
        requires { (script : Script) × CanEnd script limits self.old }
        ensures { (script : Script) → CanEnd script limits self.old → Ends script limits self.old self.new }
    {
        if let Some(outcome) = self.machine.due_outcome(limits) {
            self.machine.finish(outcome);
            self.history.put(Entry::Finish { outcome });
        }
    }
}
