//! What a goroutine does next, by the state of the machine.

ghost use Rattle.std.specs.Prelude.{◌≡◌, ◌<◌, ◌-◌, ◌^◌, Some, None, cond, length, slice_get};
ghost use Rattle.std.specs.Option.{option_map};
ghost use Rattle.gt_model.specs.declared.entry.Party.{Party};
ghost use Rattle.gt_rules.specs.State as at;
ghost use Rattle.gt_facts.specs.Formed.{IsFormed};
ghost use Rattle.gt_machine.specs.Machine.{state_of, HasContexts};
ghost use Rattle.gt_model.specs.Good.{IsGood, NamesRightly};
ghost use Rattle.gt_schedule.specs.Schedule.{parties_at};
ghost use Rattle.gt_schedule.specs.Scheduler.{schedule_of, IsScheduler};
ghost use Rattle.gt_rules.specs.Contexts.{hook_is_due};
ghost use Rattle.gt_book.specs.Steps.{step_of, step_of_instr, makes_context, HasLists};

use crate::answers::TimerOp;
use crate::choices::{choice_step, plain_step};
use gt_machine::{Machine, is_chan, is_ctx};
use gt_model::{CaseKind, Context, Entry, Instr, Party, Script};
use gt_schedule::Scheduler;

/// What a goroutine does next.
#[derive(Clone, Copy)]
pub enum Step {
    /// It makes this entry.
    Makes(Entry),
    /// It waits at a receive from this timer.
    Waits(u32),
    /// It waits at this operation, for another goroutine.
    Parks(CaseKind),
    /// It waits at the cases of its choice; whether the value of a timer is one of them.
    Chooses(bool),
    /// Its instruction needs a timer's record.
    Needs(TimerOp),
    /// It signals all that wait at this Cond.
    Broadcasts(u32),
    /// It ends this context, which has not ended, and those that it reaches.
    Cancels(u32),
    /// It is at the bounds of a loop or at a jump, where nobody stands.
    Nowhere,
}

/// Who is signalled next at a Cond: who has waited longest there.
fn waiting_at(scheduler: &Scheduler, k: u32) -> Option<u32>
    requires kept { IsScheduler scheduler.now }
    requires declared { k < length (schedule_of scheduler.now).receivers }
    ensures { result ≡ option_map (λ (p : Party). p.g) (slice_get (parties_at (schedule_of scheduler.now).receivers k) 0) }
{
    Some(scheduler.first_receiver(k)?.g)
}

/// The making of a context: one whose own deadline is to come needs its record.
fn makes_context(g: u32, x: u32, made: Context) -> Step
    ensures { result ≡ makes_context g x made }
{
    match made.own {
        Some(due) if made.end.is_none() => Step::Needs(TimerOp::Deadline { x, due }),
        _ => Step::Makes(Entry::CtxMake {
            g,
            x,
            ended: made.end.is_some(),
        }),
    }
}

/// The goroutine that a hook starts as it is registered: the next one where its context has ended.
fn child_of(machine: &Machine, script: &Script, s: u32) -> Option<u32>
    requires { length machine.now.goroutines.items < 2 ^ 32 - 1 }
    ensures { result ≡ cond (hook_is_due script.now (state_of machine.now) s) (Some (at.next_number (state_of machine.now))) None }
{
    if machine.hook_is_due(script, s) {
        Some(machine.goroutine_count() + 1)
    } else {
        None
    }
}

/// What an instruction without misuse is for goroutine `g`.
fn step_of_instr(
    machine: &Machine,
    scheduler: &Scheduler,
    script: &Script,
    g: u32,
    instr: &Instr,
) -> Step
    requires good { IsGood script.now }
    requires formed { IsFormed script.now (state_of machine.now) }
    requires contexts { HasContexts script.now machine.now }
    requires world { at.world_of (state_of machine.now) g < length machine.now.clocks.items }
    requires few { length machine.now.goroutines.items < 2 ^ 32 - 1 }
    requires lists { HasLists script.now scheduler.now }
    requires names { NamesRightly script.now instr.now }
    ensures { result ≡ step_of_instr script.now (state_of machine.now) (schedule_of scheduler.now) g instr.now }
{
    match *instr {
        Instr::Say { n } => Step::Makes(Entry::Say { g, n }),
        Instr::Now => Step::Makes(Entry::Now {
            g,
            at: machine.clock_of(g),
        }),
        Instr::Sleep { d: 0 } => Step::Makes(Entry::Sleep { g, until: None }),
        Instr::Sleep { d } => Step::Needs(TimerOp::Sleep(d)),
        Instr::Go { f } => Step::Makes(Entry::Go {
            g,
            child: machine.goroutine_count() + 1,
            f,
        }),
        Instr::New { t, d } => Step::Needs(TimerOp::Set { t, d, anew: false }),
        Instr::Reset { t, d } => Step::Needs(TimerOp::Set { t, d, anew: true }),
        Instr::Stop { t } => Step::Needs(TimerOp::Stop(t)),
        Instr::Recv { o } if is_chan(script, o) || is_ctx(script, o) => {
            plain_step(machine, scheduler, script, g, CaseKind::Recv(o))
        }
        Instr::Recv { o } => Step::Waits(o),
        Instr::Make { c } => Step::Makes(Entry::Make { g, c }),
        Instr::Send { c, v } => plain_step(machine, scheduler, script, g, CaseKind::Send(c, v)),
        Instr::Close { c } => Step::Makes(Entry::Close { g, c }),
        Instr::Lock { m } => plain_step(machine, scheduler, script, g, CaseKind::Recv(m)),
        Instr::Unlock { m } => Step::Makes(Entry::Unlock { g, m }),
        Instr::CWait { k } => Step::Makes(Entry::CondWait { g, k }),
        Instr::Signal { k } => Step::Makes(Entry::Signal {
            g,
            k,
            woken: waiting_at(scheduler, k),
        }),
        Instr::Broadcast { k } => Step::Broadcasts(k),
        Instr::Add { w, n } => Step::Makes(Entry::Add { g, w, n }),
        Instr::Wait { w } => plain_step(machine, scheduler, script, g, CaseKind::Recv(w)),
        Instr::With { x } => makes_context(g, x, machine.made(script, g, x)),
        Instr::Cancel { x, .. } if machine.has_ended(x) => Step::Makes(Entry::Cancel {
            g,
            x,
            newly: false,
            starts: 0,
        }),
        Instr::Cancel { x, .. } => Step::Cancels(x),
        Instr::ErrOf { x } => Step::Makes(Entry::CtxErr {
            g,
            x,
            err: machine.end_of(x).map(|end| end.err),
        }),
        Instr::CauseOf { x } => Step::Makes(Entry::Cause {
            g,
            x,
            cause: machine.end_of(x).map(|end| end.cause),
        }),
        Instr::After { s } => Step::Makes(Entry::CtxAfter {
            g,
            s,
            child: child_of(machine, script, s),
        }),
        Instr::Unhook { s } => Step::Makes(Entry::CtxStop {
            g,
            s,
            stopped: machine.hook_waits(s),
        }),
        Instr::Select {
            ref cases,
            default_to,
        } => { choice_step(machine, scheduler, script, g, cases.as_slice(), default_to) }
        Instr::LoopTop { .. } | Instr::LoopEnd { .. } | Instr::Jump { .. } => Step::Nowhere,
        Instr::Finish => Step::Makes(Entry::End { g }),
    }
}

/// What goroutine `g` does next. None where it stands at no instruction.
pub fn next_step(machine: &Machine, scheduler: &Scheduler, script: &Script, g: u32) -> Option<Step>
    requires good { IsGood script.now }
    requires formed { IsFormed script.now (state_of machine.now) }
    requires contexts { HasContexts script.now machine.now }
    requires few { length machine.now.goroutines.items < 2 ^ 32 - 1 }
    requires lists { HasLists script.now scheduler.now }
    ensures { result ≡ step_of script.now (state_of machine.now) (schedule_of scheduler.now) g }
{
    let instr = machine.stands_at(script, g)?;
    Some(match machine.fault_at(script, instr) {
        Some((case_no, reason)) => Step::Makes(Entry::Panic {
            p: Party { g, case_no },
            reason,
        }),
        None => step_of_instr(machine, scheduler, script, g, instr),
    })
}
