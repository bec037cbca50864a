//! The book.

ghost use Rattle.std.specs.Prelude.{◌≡◌, ◌<◌, ◌≤◌, ◌↔◌, [], ◌∷◌, true, false, ◌+◌, IfOk, IfSome, IsNone, IsSome, IsTrue, Some, length, min, slice_get};
ghost use Rattle.std.specs.BinaryHeap.{heap_capacity};
ghost use Rattle.gt_rules.specs.State as at;
ghost use Rattle.gt_model.specs.Good.{IsGood, AreLimits};
ghost use Rattle.gt_model.specs.Times.{greatest_time};
ghost use Rattle.gt_rules.specs.Legal.{May, Expires};
ghost use Rattle.gt_rules.specs.Contexts.{start_count};
ghost use Rattle.gt_rules.specs.Finish.{IsIdle};
ghost use Rattle.gt_rules.specs.Change.{change_of};
ghost use Rattle.gt_rules.specs.Counted.{counted};
ghost use Rattle.gt_model.specs.Tables.{least};
ghost use Rattle.gt_model.specs.declared.entry.Entry.{Entry};
ghost use Rattle.gt_model.specs.declared.entry.Outcome.{Outcome};
ghost use Rattle.gt_machine.specs.Places.{placed_at};
ghost use Rattle.gt_machine.specs.Machine.{HasFewCases, is_cut};
ghost use Rattle.gt_rules.specs.Operations.{receives_from};
ghost use Rattle.gt_schedule.specs.declared.status.RunStatus.{RunStatus};
ghost use Rattle.gt_schedule.specs.Counts.{times};
ghost use Rattle.gt_schedule.specs.Schedule.{parties_at, status_of, marks_at, marked, unmarked, HasMarkRoom, given_back, in_hand, IsLive, Served};
ghost use Rattle.gt_schedule.specs.Schedule as schedule;
ghost use Rattle.gt_book.specs.Least.{IsCountedBy};
ghost use Rattle.gt_book.specs.declared.step.Step.{Step};
ghost use Rattle.gt_book.specs.Steps.{DidEnter, Takes, Steps, step_of, chooses, cases_of, MayCommit, MayEnter, Commits, is_gone, is_receiving, entry_of, Clocks};
ghost use Rattle.gt_book.specs.View.{first_view, stands_for, receiver_of, case_of, outcome_of, with_entries, with_schedule, Enters, IsLawful};

use crate::answers::{Commit, Did, Op, Pick, TimerOp};
use crate::channels::{first_receiving, operation_at};
use crate::counted::least_counted;
use crate::run::Run;
use crate::step::{Step, next_step};
use gt_machine::Machine;
use gt_model::{CAP, CaseKind, Entry, Instr, Limits, NoMemory, Outcome, Party, Script};
use gt_room::Room;
use gt_schedule::{RunStatus, Scheduler, Ticket, most_goroutines};
use std::alloc::Global;
use std::cmp::Reverse;
use std::collections::BinaryHeap;
use std::marker::Model;

/// The world of the program.
const PROGRAM: u32 = 0;

/// The state of goroutines, timers and clocks, together with the history that led to it.
#[derive(Drop)]
pub struct Book {
    script: Script,
    limits: Limits,
    run: Run,
}

/// The number under which an instruction receives from an object: 0 where it is a plain one, else that of the first case which does.
fn receiving_case(instr: &Instr, o: u32) -> u32
    requires { HasFewCases instr.now }
    ensures { result ≡ case_of (receives_from o) (Some instr.now) }
{
    match instr {
        Instr::Select { cases, .. } => first_receiving(cases.as_slice(), o),
        _ => 0,
    }
}

/// An empty history, with room for all entries and the finish.
fn history_room(alloc: Global, limits: Limits) -> Result<Room<Entry>, NoMemory>
    requires { AreLimits limits }
    ensures empty { IfOk result (λ room. room.items ≡ []) }
    ensures spare { IfOk result (λ room. room.spare ≡ limits.entries + 1) }
{
    Room::with_room(alloc, limits.entries as usize + 1).map_err(|_| NoMemory)
}

/// No notes, with room for one of each context.
fn waking_room(alloc: Global, script: &Script) -> Result<BinaryHeap<Reverse<(u64, u32)>>, NoMemory>
    ensures { IfOk result (λ notes. length script.now.decls ≤ heap_capacity notes) }
{
    BinaryHeap::with_capacity(alloc, script.decls.as_slice().len()).map_err(|_| NoMemory)
}

impl Model for Book {
    ghost use Rattle.gt_book.specs.View.{BookView};

    ghost Value = { BookView };

    ghost use Rattle.gt_book.specs.Book.{seen, IsKept};

    ghost view = { seen };

    ghost invariant = { IsKept };
}

impl Book {
    /// A run of a script before its first entry, in which goroutine 1 is to be taken. It may have 1 to 200,000 entries. All the memory of the run is taken
    /// here, or the answer is `NoMemory`; no later call takes any.
    pub fn begin(alloc: Global, script: Script, limits: Limits) -> Result<Book, NoMemory>
        requires good { IsGood script }
        requires limits { AreLimits limits }
        ensures { IfOk result (λ b. b ≡ first_view script limits) }
    {
        let history = history_room(alloc, limits)?;
        let most = most_goroutines(&script, limits);
        let machine = Machine::begin(alloc, &script, most - 1)?;
        let scheduler = Scheduler::begin(alloc, &script, limits)?;
        let waking = waking_room(alloc, &script)?;
        Ok(Book {
            script,
            limits,
            run: Run {
                history,
                machine,
                scheduler,
                waking,
            },
        })
    }

    /// What each book keeps, for the proofs of its callers. The call does nothing.
    pub fn lawful(&self)
        ensures lawful { IsLawful self.now }
        ensures few { length self.now.history ≤ self.now.limits.entries + 1 }
        ensures marks { length self.now.schedule.marks ≡ length self.now.schedule.statuses }
        ensures few_goroutines { length self.now.schedule.statuses ≤ schedule.most_goroutines self.now.script self.now.limits }
    {
        let _ = &self.script;
    }

    /// The script of the run.
    pub fn script(&self) -> &Script
        ensures { result.now ≡ self.now.script }
    {
        &self.script
    }

    /// The entries so far, the first one first; the last one is the finish where the run has its outcome.
    pub fn history(&self) -> &[Entry]
        ensures { result.now ≡ self.now.history }
    {
        self.run.history.as_slice()
    }

    /// The outcome of the run, if it has one.
    pub fn outcome(&self) -> Option<Outcome>
        ensures { result ≡ outcome_of self.now }
    {
        self.run.machine.outcome()
    }

    /// The clock of a world, in nanoseconds. The program is world 0.
    pub fn clock_of(&self, world: u32) -> u64
        requires { world < length self.now.state.clocks }
        ensures { result ≡ at.clock self.now.state world }
    {
        self.run.machine.clock(world)
    }

    /// The instruction at the place of a goroutine, whether it stands there, sleeps or has ended.
    pub fn instr_of(&self, g: u32) -> &Instr
        requires { IsSome (at.goroutine_at self.now.state g) }
        ensures { placed_at self.now.script self.now.state g ≡ Some result.now }
    {
        self.run.machine.instr_of(&self.script, g)
    }

    /// One above the greatest number of a timer's record: the declarations have the first numbers, and the sleeps of goroutines those behind them.
    pub fn records(&self) -> u32
        ensures { result ≡ length self.now.script.decls + schedule.most_goroutines self.now.script self.now.limits + 1 }
    {
        self.script.decls.as_slice().len() as u32
            + most_goroutines(&self.script, self.limits) as u32
            + 1
    }

    /// Whether a worker has a goroutine in hand.
    pub fn in_hand(&self, g: u32) -> bool
        ensures { IsTrue result ↔ (status_of self.now.schedule g ≡ Some RunStatus.InHand) }
    {
        self.run.scheduler.status_of(g) == Some(RunStatus::InHand)
    }

    /// When the timer at a place of a declaration is due, in nanoseconds, or None where it is not set or was not made.
    pub fn due_of(&self, t: u32) -> Option<u64>
        ensures { result ≡ at.due_of self.now.state t }
    {
        self.run.machine.due_of(t)
    }

    /// Whether the context at a place of a declaration has ended.
    pub fn has_ended(&self, x: u32) -> bool
        ensures { result ≡ at.has_ended self.now.state x }
    {
        self.run.machine.has_ended(x)
    }

    /// Who has waited longest at a receive from a timer, or None where nobody waits there.
    pub fn timer_waiter(&self, t: u32) -> Option<Party>
        requires { t < length self.now.script.decls }
        ensures { result ≡ slice_get (parties_at self.now.schedule.receivers t) 0 }
    {
        self.run.scheduler.first_receiver(t)
    }

    /// The party of goroutine `g` that receives from timer `t`: that of its case with the lowest number which does.
    pub fn receiver(&self, g: u32, t: u32) -> Party
        ensures { result ≡ receiver_of self.now.script self.now.state g t }
    {
        let case_no = match self.run.machine.stands_at(&self.script, g) {
            Some(instr) => receiving_case(instr, t),
            None => 0,
        };
        Party { g, case_no }
    }

    /// The least of the times that will unblock somebody, and the number of a record that shows it; None where there is none. It looks at all
    /// goroutines and declarations.
    pub fn least_counted(&self) -> Option<(u64, u32)>
        ensures none { IsNone result ↔ (counted self.now.script self.now.state 0 ≡ []) }
        ensures least { IfSome result (λ found. least (counted self.now.script self.now.state 0) ≡ Some found.0) }
        ensures whose { IfSome result (λ found. IsCountedBy self.now.script self.now.state found.1 found.0) }
    {
        least_counted(&self.run.machine, &self.script)
    }

    /// Whether the goroutine of a ticket is still parked as it was when it got it.
    pub fn live(&self, ticket: Ticket) -> bool
        ensures { IsTrue result ↔ IsLive self.now.schedule ticket }
    {
        self.run.scheduler.is_live(ticket)
    }

    /// Marks a goroutine that is parked at a receive from timer `t`, plainly or as a case, as one that the timer's record counts.
    pub fn mark_blocked(&mut self, ticket: Ticket, t: u32)
        requires live { IsLive self.old.schedule ticket }
        requires waits { IsTrue (stands_for self.old.script self.old.state ticket.g t) }
        requires room { HasMarkRoom self.old.schedule ticket.g }
        ensures { self.new ≡ with_schedule self.old (marked self.old.schedule ticket.g t) }
    {
        self.run.scheduler.mark_blocked(ticket.g, t);
    }

    /// The timer of a goroutine's earliest mark, or None where it has no mark.
    pub fn next_blocked(&self, g: u32) -> Option<u32>
        ensures { result ≡ slice_get (marks_at self.now.schedule g) 0 }
    {
        self.run.scheduler.next_blocked(g)
    }

    /// Takes one mark of timer `t` away from a goroutine.
    pub fn unmark_blocked(&mut self, g: u32, t: u32)
        requires { 0 < times t (marks_at self.old.schedule g) }
        ensures { self.new ≡ with_schedule self.old (unmarked self.old.schedule g t) }
    {
        self.run.scheduler.unmark_blocked(g, t);
    }

    /// Takes the first of the run queue into the caller's hand, or answers how many are in workers' hands where the queue is empty.
    pub fn take_ready(&mut self) -> Pick
        ensures { Takes self.old result self.new }
    {
        match self.run.scheduler.take() {
            Some(g) => Pick::Run(g),
            None => Pick::Nothing {
                running: self.run.scheduler.running(),
            },
        }
    }

    /// Whoever is in a worker's hand goes to the end of the run queue, in the order of their numbers. The answer is how many they are. It looks at all
    /// goroutines.
    pub fn give_back(&mut self) -> u64
        ensures count { result ≡ in_hand self.old.schedule }
        ensures queue { self.new ≡ with_schedule self.old (given_back self.old.schedule) }
    {
        self.run.scheduler.give_back()
    }

    /// One step of a goroutine that is in the caller's hand: its instruction is entered, or it waits, or its instruction needs a timer's record and
    /// nothing changes yet. Where the run has its outcome nothing changes either.
    pub fn step_plain(&mut self, g: u32) -> Did
        requires { status_of self.old.schedule g ≡ Some RunStatus.InHand }
        ensures { Steps self.old g self.new result }
    {
        if let Some(outcome) = self.outcome() {
            return Did::Over(outcome);
        }
        match self.next_step(g) {
            Step::Makes(entry) => {
                self.enter(entry);
                self.after_entry()
            }
            Step::Broadcasts(k) => {
                self.broadcast(g, k);
                self.after_entry()
            }
            Step::Cancels(x) => {
                self.cancel(g, x);
                self.after_entry()
            }
            Step::Waits(t) => {
                let ticket = self.run.scheduler.park_at(g, CaseKind::Recv(t));
                Did::Timer(TimerOp::Enrolled(ticket))
            }
            Step::Parks(kind) => {
                let _ticket = self.run.scheduler.park_at(g, kind);
                Did::Parked
            }
            Step::Chooses(timed) => {
                let ticket = self.park_at_cases(g);
                if timed {
                    Did::Timer(TimerOp::Enrolled(ticket))
                } else {
                    Did::Parked
                }
            }
            Step::Needs(op) => Did::Timer(op),
            Step::Nowhere => unreachable!(),
        }
    }

    /// Enters an operation on a timer's record, unless it comes too late: after the outcome of the run, or where its goroutine waits there no more, or its
    /// context has ended.
    pub fn commit(&mut self, op: Op) -> Commit
        requires { is_gone self.old op ≡ false → MayCommit self.old op }
        ensures { Commits self.old op (is_gone self.old op) self.new result }
    {
        if self.is_gone(&op) {
            return Commit::Gone;
        }
        if let Op::Expire { x } = op {
            self.expire(x);
        } else {
            let entry = self.entry_of(&op);
            self.enter(entry);
        }
        self.outcome().map_or(Commit::Entered, Commit::Over)
    }

    /// Moves the program's clock to a reading, or to the greatest time where the reading is above it, unless the clock is there or later, or the run
    /// has its outcome.
    pub fn clock(&mut self, reading: u64)
        ensures { Clocks self.old (min reading greatest_time) self.new }
    {
        let to = reading.min(CAP);
        if self.outcome().is_none() && self.run.machine.clock(PROGRAM) < to {
            self.enter(Entry::Clock {
                world: PROGRAM,
                at: to,
            });
        }
    }

    /// Moves the program's clock to a later time, in nanoseconds, while the run goes on.
    pub fn jump(&mut self, to: u64)
        requires running { outcome_of self.old ≡ None }
        requires later { at.clock self.old.state 0 < to }
        requires time { to ≤ greatest_time }
        ensures { Enters self.old (Entry.Clock 0 to) self.new }
    {
        self.enter(Entry::Clock {
            world: PROGRAM,
            at: to,
        });
    }

    /// Ends a run in which nothing can go on: nothing may come next but a move of the clock, and no time will unblock anybody.
    pub fn finish_deadlock(&mut self)
        requires running { outcome_of self.old ≡ None }
        requires idle { IsIdle self.old.script self.old.state }
        requires none_counted { counted self.old.script self.old.state 0 ≡ [] }
        ensures { self.new ≡ with_entries self.old (Entry.Finish Outcome.Deadlock ∷ []) }
    {
        self.run.machine.finish(Outcome::Deadlock);
        self.run.history.put(Entry::Finish {
            outcome: Outcome::Deadlock,
        });
    }

    /// A goroutine in hand waits at the cases of its choice.
    fn park_at_cases(&mut self, g: u32) -> Ticket
        requires in_hand { status_of self.old.schedule g ≡ Some RunStatus.InHand }
        requires chooses { IsTrue (chooses (step_of self.old.script self.old.state self.old.schedule g)) }
        ensures ticket { result ≡ schedule.ticket_of self.old.schedule g }
        ensures parked { self.new ≡ with_schedule self.old (schedule.parked_cases self.old.schedule g (cases_of (at.stands_at self.old.script self.old.state g))) }
    {
        match self.run.machine.stands_at(&self.script, g) {
            Some(Instr::Select { cases, .. }) => {
                self.run.scheduler.park_cases(g, cases.as_slice())
            }
            _ => unreachable!(),
        }
    }

    /// What a goroutine in hand does next.
    fn next_step(&self, g: u32) -> Step
        requires { status_of self.now.schedule g ≡ Some RunStatus.InHand }
        ensures { step_of self.now.script self.now.state self.now.schedule g ≡ Some result }
    {
        next_step(&self.run.machine, &self.run.scheduler, &self.script, g).unwrap()
    }

    /// The answer after an entry.
    fn after_entry(&self) -> Did
        ensures { DidEnter self.now result }
    {
        self.outcome().map_or(Did::Entered, Did::Over)
    }

    /// Whether an operation comes too late.
    fn is_gone(&self, op: &Op) -> bool
        ensures { result ≡ is_gone self.now op.now }
    {
        self.outcome().is_some()
            || match *op {
                Op::TRecv { p, t, .. } => !self.is_receiving(p, t),
                Op::Wake { g } => self.run.machine.until(g).is_none(),
                Op::Expire { x } => self.has_ended(x),
                _ => false,
            }
    }

    /// Whether a party in hand, or one that is parked, stands at a receive from a timer.
    fn is_receiving(&self, p: Party, t: u32) -> bool
        ensures { result ≡ is_receiving self.now.script self.now.state self.now.schedule p t }
    {
        (self.in_hand(p.g) || self.run.scheduler.is_parked(p.g))
            && matches!(operation_at(&self.run.machine, &self.script, p), Some(CaseKind::Recv(o)) if o == t)
    }

    /// The entry of an operation by which no context ends.
    fn entry_of(&self, op: &Op) -> Entry
        requires { MayEnter self.now op.now }
        ensures { result ≡ entry_of self.now.script self.now.state op.now }
    {
        match *op {
            Op::Set {
                g,
                t,
                anew: false,
                due,
                ..
            } => Entry::New { g, t, due },
            Op::Set {
                g,
                t,
                anew: true,
                was,
                due,
                ..
            } => Entry::Reset { g, t, was, due },
            Op::Stop { g, t, was } => Entry::Stop { g, t, was },
            Op::TRecv { p, t, due, next } => Entry::TRecv { p, t, due, next },
            Op::Fire { t } => Entry::FireFunc {
                t,
                child: self.run.machine.goroutine_count() + 1,
            },
            Op::Sleep { g, until } => Entry::Sleep {
                g,
                until: Some(until),
            },
            Op::Wake { g } => Entry::Wake { g },
            Op::Derive { g, x } => Entry::CtxMake {
                g,
                x,
                ended: self.run.machine.made(&self.script, g, x).end.is_some(),
            },
            Op::Expire { .. } => unreachable!(),
        }
    }

    /// Makes an entry that is no broadcast and by which no context ends, those of whoever goes on by it at the object that it changes, and the finish of the
    /// run where one is due then.
    fn enter(&mut self, entry: Entry)
        requires running { outcome_of self.old ≡ None }
        requires may { May self.old.script self.old.state entry }
        requires served { Served self.old.schedule entry }
        requires alone { (change_of entry).broadcast ≡ None }
        requires uncut { is_cut (change_of entry).tree ≡ false }
        ensures { Enters self.old entry self.new }
    {
        self.run.enter(&self.script, self.limits, entry);
        self.run.end(self.limits);
    }

    /// A goroutine in hand signals all that wait at a Cond: it makes its entry and those of whoever goes on by it at the mutex, and the finish of the run
    /// where one is due then.
    fn broadcast(&mut self, g: u32, k: u32)
        requires running { outcome_of self.old ≡ None }
        requires in_hand { status_of self.old.schedule g ≡ Some RunStatus.InHand }
        requires broadcasts { step_of self.old.script self.old.state self.old.schedule g ≡ Some (Step.Broadcasts k) }
        ensures { Enters self.old (Entry.Broadcast g k (at.suspended_count self.old.state k)) self.new }
    {
        self.run.broadcast(&self.script, self.limits, g, k);
        self.run.end(self.limits);
    }

    /// A goroutine in hand ends a context, and those that it reaches: it makes its entry and those of whoever waits at these, and the finish of the run where
    /// one is due then.
    fn cancel(&mut self, g: u32, x: u32)
        requires running { outcome_of self.old ≡ None }
        requires in_hand { status_of self.old.schedule g ≡ Some RunStatus.InHand }
        requires cancels { step_of self.old.script self.old.state self.old.schedule g ≡ Some (Step.Cancels x) }
        ensures { Enters self.old (Entry.Cancel g x true (start_count self.old.script self.old.state x)) self.new }
    {
        self.run.cancel(&self.script, self.limits, g, x);
        self.run.end(self.limits);
    }

    /// A context comes to its own deadline: it ends, with those that it reaches, and whoever waits at these makes its entry, and the run its finish where one
    /// is due then.
    fn expire(&mut self, x: u32)
        requires running { outcome_of self.old ≡ None }
        requires expires { Expires self.old.state x }
        ensures { Enters self.old (Entry.Expire x (start_count self.old.script self.old.state x)) self.new }
    {
        self.run.expire(&self.script, self.limits, x);
        self.run.end(self.limits);
    }
}
