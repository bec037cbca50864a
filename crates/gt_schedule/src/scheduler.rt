//! Who runs, who is to run and who waits.

ghost use Rattle.std.specs.Prelude.{ℕ, List, ◌≡◌, ◌≢◌, ◌+◌, ◌<◌, ◌≤◌, ◌↔◌, [], length, count_by, slice_get, IsTrue, IsSome, IsNone, IfNone, IfSome, IfOk};
ghost use Rattle.std.specs.Option.{option_map};
ghost use Rattle.std.specs.List.{All};
ghost use Rattle.gt_model.specs.Good.{IsGood, AreLimits, most_cases};
ghost use Rattle.gt_model.specs.declared.entry.Party.{Party};
ghost use Rattle.gt_model.specs.declared.script.Case.{Case};
ghost use Rattle.gt_model.specs.Tables.{numbered, change_numbered};
ghost use Rattle.gt_queue.specs.Contents.{waiting_in};
ghost use Rattle.gt_rules.specs.Change.{change_of, all_started};
ghost use Rattle.gt_rules.specs.declared.change.Start.{Start};
ghost use Rattle.gt_select.specs.Waiting.{MayEnrol, MayWait, gone};
ghost use Rattle.gt_schedule.specs.Counts.{times};
ghost use Rattle.gt_schedule.specs.declared.status.RunStatus.{RunStatus};
ghost use Rattle.gt_schedule.specs.Schedule as table;
ghost use Rattle.gt_schedule.specs.Schedule.{first_schedule, status_of, with_status, with_new, begun_by, parked, parked_at, waiting_at, at_case, waiting_at_cases, parked_cases, unparked, taken, turned, scheduled, is_parked, parties_at, ticket_of, marks_at, marked, unmarked, HasMarkRoom, object_of, put_back, given_back, in_hand, is_in_hand, IsLive, RunsQueued, MayMove, HasLists};
ghost use Rattle.gt_schedule.specs.Scheduler.{schedule_of, capacity, list_of, IsScheduler, IsOrderly, CanApply};

use crate::marks::Marks;
use crate::relocking::mutexes_of;
use crate::status::{RunStatus, Ticket};
use gt_model::{Case, CaseKind, Decl, Entry, Limits, NoMemory, Party, Script, What};
use gt_queue::Queues;
use gt_room::Room;
use gt_rules::{Move, Starts, broadcast_of, mover_of, partner_of, starts_of};
use gt_select::Waiters;
use std::alloc::Global;

/// The number of the run queue.
const RUN_QUEUE: u32 = 0;

/// The schedule of a run.
#[derive(Drop)]
pub struct Scheduler {
    /// Where each goroutine is; number 1 is at place 0.
    pub statuses: Room<RunStatus>,
    /// How many names are declared.
    pub declared: u32,
    /// The run queue, by goroutine number.
    pub run_queue: Queues,
    /// For each declaration those that are parked at a receive from it, and behind them for each declaration those that are parked at a send to it.
    /// Who is parked at an operation has a ticket there; who sleeps has none.
    pub waiters: Waiters,
    /// How many times a goroutine was parked.
    pub parks: u64,
    /// How many goroutines are in a worker's hand.
    pub running: u64,
    /// By goroutine, as `statuses`: the timers whose records count it among those that wait there.
    pub marks: Room<Marks>,
    /// By declaration: the mutex of a Cond; 0 of what is none.
    pub mutexes: Vec<u32>,
}

/// Whether a declaration is a hook.
fn is_hook(decl: &Decl) -> bool
    ensures { result ≡ table.is_hook_decl decl.now }
{
    matches!(decl.what, What::Hook { .. })
}

/// How many hooks are declared.
fn hook_count(decls: &[Decl]) -> u64
    requires { length decls.now ≤ 4096 }
    ensures { result ≡ count_by table.is_hook_decl decls.now }
{
    let mut count = 0;
    for decl in decls {
        if is_hook(decl) {
            count += 1;
        }
    }
    count
}

/// The greatest number of goroutines of a run: main's, one for each entry, and one for each hook.
pub fn most_goroutines(script: &Script, limits: Limits) -> u64
    requires good { IsGood script.now }
    requires limits { AreLimits limits }
    ensures { result ≡ table.most_goroutines script.now limits }
{
    limits.entries + 1 + hook_count(script.decls.as_slice())
}

/// How many goroutines an entry starts.
fn start_count(starts: Starts) -> u32
    ensures { result ≡ length (all_started starts) }
{
    match starts {
        Starts::One(None) => 0,
        Starts::One(Some(_)) => 1,
        Starts::ByEnd { count, .. } => count,
    }
}

/// A goroutine at its plain instruction.
pub fn plainly(g: u32) -> Party
    ensures { result ≡ table.plainly g }
{
    Party { g, case_no: 0 }
}

/// Writes where a goroutine is.
fn mark(statuses: &mut Room<RunStatus>, g: u32, status: RunStatus)
    requires { IsSome (numbered statuses.old.items g) }
    ensures items { statuses.new.items ≡ change_numbered statuses.old.items g (λ _. status) }
    ensures spare { statuses.new.spare ≡ statuses.old.spare }
{
    statuses.set(g as usize - 1, status);
}

/// Lets a goroutine go on: it has no ticket any more, and stands in no list. It may have had none.
fn let_go(waiters: &mut Waiters, g: u32)
    ensures { waiters.new ≡ gone waiters.old g }
{
    waiters.lawful();
    if let Some(turn) = waiters.ticket(g) {
        waiters.withdraw(gt_select::Ticket { g, turn });
    }
}

impl Scheduler {
    /// The schedule as a run begins: goroutine 1 is to be taken. There is room for all goroutines of a run of 1 to 200,000 entries, those of hooks among
    /// them. It alone takes memory.
    pub fn begin(alloc: Global, script: &Script, limits: Limits) -> Result<Scheduler, NoMemory>
        requires good { IsGood script.now }
        requires limits { AreLimits limits }
        ensures schedule { IfOk result (λ made. schedule_of made ≡ first_schedule script.now) }
        ensures room { IfOk result (λ made. capacity made ≡ table.most_goroutines script.now limits) }
        ensures kept { IfOk result IsScheduler }
    {
        let most = most_goroutines(script, limits) as usize;
        let mut statuses = Room::with_room(alloc, most).map_err(|_| NoMemory)?;
        statuses.put(RunStatus::Queued);
        let mut marks = Room::with_room(alloc, most).map_err(|_| NoMemory)?;
        marks.put(Marks::none());
        let declared = script.decls.as_slice().len();
        let mut run_queue = Queues::with_room(alloc, 1, most + 1).map_err(|_| NoMemory)?;
        run_queue.enqueue(RUN_QUEUE, 1);
        let waiters = Waiters::with_room(alloc, most, declared + declared).map_err(|_| NoMemory)?;
        let mutexes = mutexes_of(alloc, script.decls.as_slice())?;
        Ok(Scheduler {
            statuses,
            declared: declared as u32,
            run_queue,
            waiters,
            parks: 0,
            running: 0,
            marks,
            mutexes,
        })
    }

    /// Takes the goroutine that has stood in the run queue longest into the caller's hand, or returns None where nobody stands there.
    pub fn take(&mut self) -> Option<u32>
        requires kept { IsScheduler self.old }
        requires queued { RunsQueued (schedule_of self.old) }
        ensures first { result ≡ slice_get (schedule_of self.old).run_queue 0 }
        ensures none { IsNone result ↔ ((schedule_of self.old).run_queue ≡ []) }
        ensures unchanged { IfNone result (self.new ≡ self.old) }
        ensures schedule { IfSome result (λ g. schedule_of self.new ≡ taken (schedule_of self.old) g) }
        ensures room { capacity self.new ≡ capacity self.old }
        ensures kept { IsScheduler self.new }
    {
        let g = self.run_queue.dequeue(RUN_QUEUE)?;
        mark(&mut self.statuses, g, RunStatus::InHand);
        self.running += 1;
        Some(g)
    }

    /// A goroutine that was in hand waits from now on. `parks` stands still at its greatest value.
    fn park(&mut self, g: u32)
        requires kept { IsScheduler self.old }
        requires in_hand { status_of (schedule_of self.old) g ≡ Some RunStatus.InHand }
        ensures schedule { schedule_of self.new ≡ parked (schedule_of self.old) g }
        ensures room { capacity self.new ≡ capacity self.old }
        ensures waiters { self.new.waiters ≡ self.old.waiters }
        ensures declared { self.new.declared ≡ self.old.declared }
        ensures kept { IsScheduler self.new }
    {
        let status = RunStatus::Parked { since: self.parks };
        mark(&mut self.statuses, g, status);
        self.parks = self.parks.saturating_add(1);
        self.running -= 1;
    }

    /// The list of those that are parked at an operation.
    fn list_of(&self, kind: CaseKind) -> u32
        requires kept { IsScheduler self.now }
        requires declared { object_of kind < length (schedule_of self.now).receivers }
        ensures within { result < length self.now.waiters.lists }
        ensures side { result ≡ list_of self.now.declared kind }
    {
        match kind {
            CaseKind::Recv(o) => o,
            CaseKind::Send(c, _) => self.declared + c,
        }
    }

    /// A goroutine that is parked gets a ticket: so it may wait in lists.
    fn enrol(&mut self, g: u32)
        requires kept { IsScheduler self.old }
        requires parked { IsTrue (is_parked (status_of (schedule_of self.old) g)) }
        requires may { MayEnrol self.old.waiters g }
        ensures schedule { schedule_of self.new ≡ schedule_of self.old }
        ensures room { capacity self.new ≡ capacity self.old }
        ensures may { (k : ℕ) → k ≤ 16 → MayWait self.new.waiters (at_case g k) }
        ensures kept { IsScheduler self.new }
    {
        self.waiters.lawful();
        self.waiters.enrol(g);
    }

    /// A party waits at an operation, behind those that wait there.
    fn wait_at(&mut self, p: Party, kind: CaseKind)
        requires kept { IsScheduler self.old }
        requires declared { object_of kind < length (schedule_of self.old).receivers }
        requires may { MayWait self.old.waiters p }
        ensures schedule { schedule_of self.new ≡ waiting_at (schedule_of self.old) p kind }
        ensures room { capacity self.new ≡ capacity self.old }
        ensures may { (q : Party) → p ≢ q → MayWait self.old.waiters q → MayWait self.new.waiters q }
        ensures kept { IsScheduler self.new }
    {
        let list = self.list_of(kind);
        self.waiters.wait(list, p);
    }

    /// A goroutine waits at all cases of a choice, in their order, behind those that wait there.
    fn wait_at_cases(&mut self, g: u32, cases: &[Case])
        requires kept { IsScheduler self.old }
        requires few { length cases.now ≤ 16 }
        requires declared { All (λ (c : Case). object_of c.kind < length (schedule_of self.old).receivers) cases.now }
        requires may { (k : ℕ) → k ≤ 16 → MayWait self.old.waiters (at_case g k) }
        ensures schedule { schedule_of self.new ≡ waiting_at_cases (schedule_of self.old) g 1 cases.now }
        ensures room { capacity self.new ≡ capacity self.old }
        ensures kept { IsScheduler self.new }
    {
        for k in 0..cases.len() {
            let case_no = k as u32 + 1;
            self.wait_at(Party { g, case_no }, cases[k].kind);
        }
    }

    /// A goroutine that was in hand waits at an operation from now on, behind those that wait there. The answer is the ticket of this parking.
    pub fn park_at(&mut self, g: u32, kind: CaseKind) -> Ticket
        requires kept { IsScheduler self.old }
        requires orderly { IsOrderly (schedule_of self.old) }
        requires in_hand { status_of (schedule_of self.old) g ≡ Some RunStatus.InHand }
        requires declared { object_of kind < length (schedule_of self.old).receivers }
        ensures ticket { result ≡ ticket_of (schedule_of self.old) g }
        ensures schedule { schedule_of self.new ≡ parked_at (schedule_of self.old) (table.plainly g) kind }
        ensures room { capacity self.new ≡ capacity self.old }
        ensures kept { IsScheduler self.new }
    {
        let ticket = Ticket {
            g,
            turn: self.parks,
        };
        self.park(g);
        self.enrol(g);
        self.wait_at(plainly(g), kind);
        ticket
    }

    /// A goroutine that was in hand waits at all cases of its choice from now on, in each list behind those that wait there. Its cases count from 1. The
    /// answer is the ticket of this parking.
    pub fn park_cases(&mut self, g: u32, cases: &[Case]) -> Ticket
        requires kept { IsScheduler self.old }
        requires orderly { IsOrderly (schedule_of self.old) }
        requires in_hand { status_of (schedule_of self.old) g ≡ Some RunStatus.InHand }
        requires few { length cases.now ≤ most_cases }
        requires declared { All (λ (c : Case). object_of c.kind < length (schedule_of self.old).receivers) cases.now }
        ensures ticket { result ≡ ticket_of (schedule_of self.old) g }
        ensures schedule { schedule_of self.new ≡ parked_cases (schedule_of self.old) g cases.now }
        ensures room { capacity self.new ≡ capacity self.old }
        ensures kept { IsScheduler self.new }
    {
        let ticket = Ticket {
            g,
            turn: self.parks,
        };
        self.park(g);
        self.enrol(g);
        self.wait_at_cases(g, cases);
        ticket
    }

    /// The function of a goroutine that was in hand has ended.
    fn end(&mut self, g: u32)
        requires kept { IsScheduler self.old }
        requires in_hand { status_of (schedule_of self.old) g ≡ Some RunStatus.InHand }
        ensures schedule { schedule_of self.new ≡ with_status (schedule_of self.old) g RunStatus.Ended }
        ensures room { capacity self.new ≡ capacity self.old }
        ensures waiters { self.new.waiters ≡ self.old.waiters }
        ensures kept { IsScheduler self.new }
    {
        mark(&mut self.statuses, g, RunStatus::Ended);
        self.running -= 1;
    }

    /// A goroutine that waited stands in the run queue, and nowhere else.
    fn unpark(&mut self, g: u32)
        requires kept { IsScheduler self.old }
        requires queued { RunsQueued (schedule_of self.old) }
        requires parked { IsTrue (is_parked (status_of (schedule_of self.old) g)) }
        ensures schedule { schedule_of self.new ≡ unparked (schedule_of self.old) g }
        ensures room { capacity self.new ≡ capacity self.old }
        ensures kept { IsScheduler self.new }
    {
        mark(&mut self.statuses, g, RunStatus::Queued);
        let_go(&mut self.waiters, g);
        self.run_queue.enqueue(RUN_QUEUE, g);
    }

    /// Does what a move of a goroutine means.
    fn turn(&mut self, g: u32, step: Move)
        requires kept { IsScheduler self.old }
        requires orderly { IsOrderly (schedule_of self.old) }
        requires served { MayMove (status_of (schedule_of self.old) g) step }
        requires lists { HasLists (schedule_of self.old) g step }
        ensures schedule { schedule_of self.new ≡ turned (schedule_of self.old) g step }
        ensures room { capacity self.new ≡ capacity self.old }
        ensures kept { IsScheduler self.new }
    {
        match step {
            Move::GoesOn { .. } => {
                if self.is_parked(g) {
                    self.unpark(g);
                }
            }
            Move::FallsAsleep { .. } => self.park(g),
            Move::Suspends { cond } => {
                self.park_at(g, CaseKind::Recv(cond));
            }
            Move::Relocks { cond } => self.relock(g, cond),
            Move::Ends => self.end(g),
            Move::Panics => {}
        }
    }

    /// A new goroutine stands in the run queue. It has the next number.
    fn start(&mut self)
        requires kept { IsScheduler self.old }
        requires queued { RunsQueued (schedule_of self.old) }
        requires spare { length self.old.statuses.items < capacity self.old }
        ensures schedule { schedule_of self.new ≡ with_new (schedule_of self.old) }
        ensures room { capacity self.new ≡ capacity self.old }
        ensures kept { IsScheduler self.new }
    {
        let child = self.statuses.len() as u32 + 1;
        self.statuses.put(RunStatus::Queued);
        self.marks.put(Marks::none());
        self.run_queue.enqueue(RUN_QUEUE, child);
    }

    /// So many new goroutines stand in the run queue, one after the other.
    fn start_all(&mut self, count: u32)
        requires kept { IsScheduler self.old }
        requires queued { RunsQueued (schedule_of self.old) }
        requires spare { length self.old.statuses.items + count ≤ capacity self.old }
        ensures schedule { (starts : List Start) → count ≡ length starts → schedule_of self.new ≡ begun_by (schedule_of self.old) starts }
        ensures room { capacity self.new ≡ capacity self.old }
        ensures kept { IsScheduler self.new }
    {
        for _ in 0..count {
            self.start();
        }
    }

    /// Does to the schedule what an entry means for it.
    pub fn apply(&mut self, entry: &Entry)
        requires { CanApply self.old entry.now }
        ensures schedule { schedule_of self.new ≡ scheduled (schedule_of self.old) entry.now }
        ensures room { capacity self.new ≡ capacity self.old }
        ensures kept { IsScheduler self.new }
    {
        if let Some((g, step)) = mover_of(entry) {
            self.turn(g, step);
        }
        if let Some((g, step)) = partner_of(entry) {
            self.turn(g, step);
        }
        if let Some(k) = broadcast_of(entry) {
            self.relock_all(k);
        }
        self.start_all(start_count(starts_of(entry)));
    }

    /// Marks a goroutine as one that the record of timer `t` counts among those that wait there.
    pub fn mark_blocked(&mut self, g: u32, t: u32)
        requires kept { IsScheduler self.old }
        requires there { IsSome (numbered (schedule_of self.old).statuses g) }
        requires room { HasMarkRoom (schedule_of self.old) g }
        ensures schedule { schedule_of self.new ≡ marked (schedule_of self.old) g t }
        ensures room { capacity self.new ≡ capacity self.old }
        ensures kept { IsScheduler self.new }
    {
        self.marks.at_mut(g as usize - 1).push(t);
    }

    /// The timer of a goroutine's earliest mark, or None where it has no mark.
    pub fn next_blocked(&self, g: u32) -> Option<u32>
        ensures { result ≡ slice_get (marks_at (schedule_of self.now) g) 0 }
    {
        let place = (g as usize).checked_sub(1)?;
        match self.marks.as_slice().get(place) {
            Some(marks) => marks.first(),
            None => None,
        }
    }

    /// Takes one mark of timer `t` away from a goroutine.
    pub fn unmark_blocked(&mut self, g: u32, t: u32)
        requires kept { IsScheduler self.old }
        requires marked { 0 < times t (marks_at (schedule_of self.old) g) }
        ensures schedule { schedule_of self.new ≡ unmarked (schedule_of self.old) g t }
        ensures room { capacity self.new ≡ capacity self.old }
        ensures kept { IsScheduler self.new }
    {
        self.marks.at_mut(g as usize - 1).remove(t);
    }

    /// Whether a goroutine is in a worker's hand.
    fn is_in_hand(&self, g: u32) -> bool
        ensures { result ≡ is_in_hand (status_of (schedule_of self.now) g) }
    {
        matches!(self.status_of(g), Some(RunStatus::InHand))
    }

    /// A goroutine goes to the end of the run queue, if it is in a worker's hand.
    fn put_back(&mut self, g: u32)
        requires kept { IsScheduler self.old }
        requires orderly { IsOrderly (schedule_of self.old) }
        ensures schedule { schedule_of self.new ≡ put_back (schedule_of self.old) g }
        ensures room { capacity self.new ≡ capacity self.old }
        ensures kept { IsScheduler self.new }
    {
        if self.is_in_hand(g) {
            mark(&mut self.statuses, g, RunStatus::Queued);
            self.run_queue.enqueue(RUN_QUEUE, g);
            self.running -= 1;
        }
    }

    /// Whoever is in a worker's hand goes to the end of the run queue, in the order of their numbers. The answer is how many they are. It looks at all
    /// goroutines.
    pub fn give_back(&mut self) -> u64
        requires kept { IsScheduler self.old }
        requires orderly { IsOrderly (schedule_of self.old) }
        ensures count { result ≡ in_hand (schedule_of self.old) }
        ensures schedule { schedule_of self.new ≡ given_back (schedule_of self.old) }
        ensures room { capacity self.new ≡ capacity self.old }
        ensures kept { IsScheduler self.new }
        ensures orderly { IsOrderly (schedule_of self.new) }
    {
        let count = self.running;
        for place in 0..self.statuses.len() {
            self.put_back(place as u32 + 1);
        }
        count
    }

    /// Where a goroutine is; None for a number that no goroutine has.
    pub fn status_of(&self, g: u32) -> Option<RunStatus>
        ensures { result ≡ status_of (schedule_of self.now) g }
    {
        let place = (g as usize).checked_sub(1)?;
        self.statuses.as_slice().get(place).copied()
    }

    /// Whether a goroutine waits: at an operation, or in its sleep.
    pub fn is_parked(&self, g: u32) -> bool
        ensures { result ≡ is_parked (status_of (schedule_of self.now) g) }
    {
        matches!(self.status_of(g), Some(RunStatus::Parked { .. }))
    }

    /// Whether the goroutine of a ticket is still parked as it was when it got it.
    pub fn is_live(&self, ticket: Ticket) -> bool
        ensures { IsTrue result ↔ IsLive (schedule_of self.now) ticket }
    {
        self.status_of(ticket.g) == Some(RunStatus::Parked { since: ticket.turn })
    }

    /// The party that has waited longest at a receive from `t`, or at the Cond `t`; None where nobody waits there.
    pub fn first_receiver(&self, t: u32) -> Option<Party>
        requires kept { IsScheduler self.now }
        requires declared { t < length (schedule_of self.now).receivers }
        ensures { result ≡ slice_get (parties_at (schedule_of self.now).receivers t) 0 }
    {
        self.waiters.first(t)
    }

    /// The party that has waited longest at a send to `c`, or None where nobody waits there.
    pub fn first_sender(&self, c: u32) -> Option<Party>
        requires kept { IsScheduler self.now }
        requires declared { c < length (schedule_of self.now).senders }
        ensures { result ≡ slice_get (parties_at (schedule_of self.now).senders c) 0 }
    {
        self.waiters.first(self.declared + c)
    }

    /// How many goroutines are in workers' hands.
    pub fn running(&self) -> u64
        ensures { result ≡ self.now.running }
    {
        self.running
    }
}
