//! Who was signalled at a Cond comes to wait for its mutex.

ghost use Rattle.std.specs.Prelude.{◌≡◌, ◌<◌, ◌++◌, [], ◌∷◌, length, map, Contains, IsNone, IfSome, IfOk};
ghost use Rattle.gt_model.specs.declared.entry.Party.{Party};
ghost use Rattle.gt_model.specs.declared.script.Decl.{Decl};
ghost use Rattle.gt_select.specs.Waiting.{parties_in, put_party_before};
ghost use Rattle.gt_schedule.specs.Schedule as table;
ghost use Rattle.gt_schedule.specs.Schedule.{mutex_at, since_of, is_later, in_place, relocked, all_relocked, parties_at, IsCondAt, StandsAt, ArePlain};
ghost use Rattle.gt_schedule.specs.Scheduler.{schedule_of, capacity, IsScheduler};

use crate::scheduler::{Scheduler, plainly};
use crate::status::RunStatus;
use gt_model::{Decl, NoMemory, Party, What};
use std::alloc::Global;

/// The mutex of what is declared so; 0 where it is no Cond.
fn mutex_in(what: What) -> u32
    ensures { result ≡ table.mutex_in what }
{
    match what {
        What::Cond { mutex } => mutex,
        _ => 0,
    }
}

/// For each declaration the mutex of a Cond.
pub fn mutexes_of(alloc: Global, decls: &[Decl]) -> Result<Vec<u32>, NoMemory>
    ensures { IfOk result (λ mutexes. mutexes.items ≡ map (λ (d : Decl). table.mutex_in d.what) decls.now) }
{
    decls
        .iter()
        .map(|decl| mutex_in(decl.what))
        .collect(alloc)
        .map_err(|_| NoMemory)
}

impl Scheduler {
    /// The mutex of a Cond.
    fn mutex_of(&self, k: u32) -> u32
        ensures { result ≡ mutex_at (schedule_of self.now) k }
    {
        match self.mutexes.as_slice().get(k as usize) {
            Some(mutex) => *mutex,
            None => 0,
        }
    }

    /// How many times a goroutine was parked before this one was; 0 of one that is not parked.
    pub fn since_of(&self, g: u32) -> u64
        ensures { result ≡ since_of (schedule_of self.now) g }
    {
        match self.status_of(g) {
            Some(RunStatus::Parked { since }) => since,
            _ => 0,
        }
    }

    /// The foremost of the parties at the end of a list that were parked later than goroutine g, or None where the last one there was not.
    fn first_later(&self, list: u32, g: u32) -> Option<Party>
        requires { list < length self.now.waiters.lists }
        ensures none { IsNone result → (p : Party)
            → in_place (is_later (schedule_of self.now) g) p (parties_in self.now.waiters.lists list) ≡ parties_in self.now.waiters.lists list ++ p ∷ [] }
        ensures some { IfSome result (λ other. Contains (parties_in self.now.waiters.lists list) other × ((p : Party)
            → in_place (is_later (schedule_of self.now) g) p (parties_in self.now.waiters.lists list) ≡ put_party_before (parties_in self.now.waiters.lists list) other p)) }
    {
        self.waiters.lawful();
        let since = self.since_of(g);
        let mut foremost = None;
        let mut next = self.waiters.last(list);
        while let Some(p) = next {
            if self.since_of(p.g) <= since {
                return foremost;
            }
            foremost = next;
            next = self.waiters.before(list, p);
        }
        foremost
    }

    /// A goroutine leaves those at a Cond, and takes its place among those that were signalled for the mutex, by when it was parked.
    pub fn relock(&mut self, g: u32, k: u32)
        requires kept { IsScheduler self.old }
        requires cond { IsCondAt (schedule_of self.old) k }
        requires stands { StandsAt (schedule_of self.old) g k }
        ensures schedule { schedule_of self.new ≡ relocked (schedule_of self.old) g k }
        ensures room { capacity self.new ≡ capacity self.old }
        ensures kept { IsScheduler self.new }
    {
        self.waiters.lawful();
        self.waiters.forget(k, g);
        let list = self.declared + self.mutex_of(k);
        match self.first_later(list, g) {
            Some(other) => self.waiters.wait_before(list, plainly(g), other),
            None => self.waiters.wait(list, plainly(g)),
        }
    }

    /// All that wait at a Cond are signalled for the mutex, who has waited longest first. The answer is how many they are.
    pub fn relock_all(&mut self, k: u32) -> u32
        requires kept { IsScheduler self.old }
        requires cond { IsCondAt (schedule_of self.old) k }
        requires plain { ArePlain (parties_at (schedule_of self.old).receivers k) }
        ensures count { result ≡ length (parties_at (schedule_of self.old).receivers k) }
        ensures schedule { schedule_of self.new ≡ all_relocked (schedule_of self.old) k }
        ensures room { capacity self.new ≡ capacity self.old }
        ensures kept { IsScheduler self.new }
    {
        self.waiters.lawful();
        let mut count = 0;
        while let Some(p) = self.first_receiver(k) {
            self.waiters.lawful();
            self.relock(p.g, k);
            count += 1;
        }
        count
    }
}
