//! What an operation, or a choice among several, is for the goroutine that stands there.

ghost use Rattle.std.specs.Prelude.{◌≡◌, ◌<◌, ◌≤◌, length};
ghost use Rattle.std.specs.List.{All, list_any};
ghost use Rattle.gt_model.specs.Good.{OperatesRightly, awaits_timer};
ghost use Rattle.gt_model.specs.declared.script.Case.{Case};
ghost use Rattle.gt_rules.specs.State as at;
ghost use Rattle.gt_machine.specs.Machine.{state_of};
ghost use Rattle.gt_schedule.specs.Scheduler.{schedule_of, IsScheduler};
ghost use Rattle.gt_schedule.specs.Schedule.{object_of, plainly};
ghost use Rattle.gt_book.specs.Steps as steps;
ghost use Rattle.gt_book.specs.Steps.{HasLists};

use crate::answers::TimerOp;
use crate::channels::goes_by;
use crate::step::Step;
use gt_machine::{Machine, is_chan, is_ctx};
use gt_model::{Case, CaseKind, Entry, Party, Script};
use gt_schedule::{Scheduler, plainly};

/// What a plain operation is.
pub fn plain_step(
    machine: &Machine,
    scheduler: &Scheduler,
    script: &Script,
    g: u32,
    kind: CaseKind,
) -> Step
    requires lists { HasLists script.now scheduler.now }
    requires declared { object_of kind < length script.now.decls }
    ensures { result ≡ steps.plain_step kind (steps.goes_by script.now (state_of machine.now) (schedule_of scheduler.now) (plainly g) kind) }
{
    match goes_by(machine, scheduler, script, plainly(g), kind) {
        Some(entry) => Step::Makes(entry),
        None => Step::Parks(kind),
    }
}

/// The timer from which a good script's operation receives.
pub fn timer_of(script: &Script, kind: CaseKind) -> Option<u32>
    requires { OperatesRightly script.now kind }
    ensures { result ≡ steps.timer_of script.now kind }
{
    match kind {
        CaseKind::Recv(o) if !is_chan(script, o) && !is_ctx(script, o) => Some(o),
        _ => None,
    }
}

/// The timer of a receive whose time has come.
fn come_timer(machine: &Machine, script: &Script, g: u32, kind: CaseKind) -> Option<u32>
    requires world { at.world_of (state_of machine.now) g < length machine.now.clocks.items }
    requires names { OperatesRightly script.now kind }
    ensures { result ≡ steps.come_timer script.now (state_of machine.now) (at.clock_of (state_of machine.now) g) kind }
{
    let t = timer_of(script, kind)?;
    let due = machine.due_of(t)?;
    if due <= machine.clock_of(g) {
        Some(t)
    } else {
        None
    }
}

/// What a case of a choice is where it can go on. A choice with a default counts the values of timers that have come.
fn case_step(
    machine: &Machine,
    scheduler: &Scheduler,
    script: &Script,
    p: Party,
    kind: CaseKind,
    polling: bool,
) -> Option<Step>
    requires world { at.world_of (state_of machine.now) p.g < length machine.now.clocks.items }
    requires lists { HasLists script.now scheduler.now }
    requires names { OperatesRightly script.now kind }
    ensures { result ≡ steps.case_step (steps.goes_by script.now (state_of machine.now) (schedule_of scheduler.now) p kind) polling
        (steps.come_timer script.now (state_of machine.now) (at.clock_of (state_of machine.now) p.g) kind) }
{
    match goes_by(machine, scheduler, script, p, kind) {
        Some(entry) => Some(Step::Makes(entry)),
        None if polling => Some(Step::Needs(TimerOp::Poll(come_timer(
            machine, script, p.g, kind,
        )?))),
        None => None,
    }
}

/// The case with the lowest number that can go on; None where none can.
fn first_step(
    machine: &Machine,
    scheduler: &Scheduler,
    script: &Script,
    g: u32,
    cases: &[Case],
    polling: bool,
) -> Option<Step>
    requires world { at.world_of (state_of machine.now) g < length machine.now.clocks.items }
    requires lists { HasLists script.now scheduler.now }
    requires names { All (λ (c : Case). OperatesRightly script.now c.kind) cases.now }
    requires few { length cases.now ≤ 16 }
    ensures { result ≡ steps.first_step script.now (state_of machine.now) (schedule_of scheduler.now) g polling 1 cases.now }
{
    for k in 0..cases.len() {
        let case_no = k as u32 + 1;
        let p = Party { g, case_no };
        if let Some(step) = case_step(machine, scheduler, script, p, cases[k].kind, polling) {
            return Some(step);
        }
    }
    None
}

/// Whether the value of a timer is one of the cases.
fn is_timed(script: &Script, cases: &[Case]) -> bool
    requires names { All (λ (c : Case). OperatesRightly script.now c.kind) cases.now }
    ensures { result ≡ list_any (λ (c : Case). awaits_timer script.now c.kind) cases.now }
{
    for case in cases {
        if timer_of(script, case.kind).is_some() {
            return true;
        }
    }
    false
}

/// What a choice without misuse is for goroutine `g`: the case with the lowest number that can go on; where none can its default, or it waits at its cases.
pub fn choice_step(
    machine: &Machine,
    scheduler: &Scheduler,
    script: &Script,
    g: u32,
    cases: &[Case],
    default_to: Option<u32>,
) -> Step
    requires world { at.world_of (state_of machine.now) g < length machine.now.clocks.items }
    requires lists { HasLists script.now scheduler.now }
    requires names { All (λ (c : Case). OperatesRightly script.now c.kind) cases.now }
    requires few { length cases.now ≤ 16 }
    ensures { result ≡ steps.choice_step script.now (state_of machine.now) (schedule_of scheduler.now) g cases.now default_to }
{
    match first_step(machine, scheduler, script, g, cases, default_to.is_some()) {
        Some(step) => step,
        None if default_to.is_some() => Step::Makes(Entry::Default { g }),
        None => Step::Chooses(is_timed(script, cases)),
    }
}
