//! What an operation is for a party, and who goes on at an object after one.

ghost use Rattle.std.specs.Prelude.{◌≡◌, ◌<◌, ◌≤◌, Some, length};
ghost use Rattle.gt_model.specs.Good.{IsGood};
ghost use Rattle.gt_model.specs.Script.{what_at};
ghost use Rattle.gt_rules.specs.State as at;
ghost use Rattle.gt_rules.specs.Legal as legal;
ghost use Rattle.gt_rules.specs.Operations.{operation, receives_from};
ghost use Rattle.gt_book.specs.View.{first_case};
ghost use Rattle.gt_machine.specs.Machine.{state_of};
ghost use Rattle.gt_schedule.specs.Scheduler.{schedule_of, IsScheduler};
ghost use Rattle.gt_schedule.specs.Schedule.{object_of};
ghost use Rattle.gt_book.specs.Steps as steps;
ghost use Rattle.gt_book.specs.Woken as woken;

use gt_machine::{Machine, capacity, is_chan, mutex_of, what_at};
use gt_model::{Case, CaseKind, Entry, Instr, Party, Reason, Script, What};
use gt_schedule::{Scheduler, plainly};

/// The operation of an instruction under a case number; 0 is a plain one, and the cases of a choice count from 1.
fn operation(instr: &Instr, case_no: u32) -> Option<CaseKind>
    ensures { result ≡ operation instr.now case_no }
{
    match (instr, case_no) {
        (Instr::Recv { o }, 0) => Some(CaseKind::Recv(*o)),
        (Instr::Send { c, v }, 0) => Some(CaseKind::Send(*c, *v)),
        (Instr::Lock { m }, 0) => Some(CaseKind::Recv(*m)),
        (Instr::Wait { w }, 0) => Some(CaseKind::Recv(*w)),
        (Instr::Select { cases, .. }, n) if n > 0 => {
            Some(cases.as_slice().get(n as usize - 1)?.kind)
        }
        _ => None,
    }
}

/// The number of the first case that receives from an object; one above the last where none does.
pub fn first_receiving(cases: &[Case], o: u32) -> u32
    requires { length cases.now ≤ 16 }
    ensures { result ≡ first_case (receives_from o) 1 cases.now }
{
    for k in 0..cases.len() {
        if matches!(cases[k].kind, CaseKind::Recv(p) if p == o) {
            return k as u32 + 1;
        }
    }
    cases.len() as u32 + 1
}

/// The operation at which a party stands.
pub fn operation_at(machine: &Machine, script: &Script, p: Party) -> Option<CaseKind>
    ensures { result ≡ legal.operation_at script.now (state_of machine.now) p }
{
    operation(machine.stands_at(script, p.g)?, p.case_no)
}

/// The value that a party is to send; 0 where it stands at no send.
fn value_of(machine: &Machine, script: &Script, p: Party) -> u32
    ensures { result ≡ steps.value_of (legal.operation_at script.now (state_of machine.now) p) }
{
    match operation_at(machine, script, p) {
        Some(CaseKind::Send(_, v)) => v,
        _ => 0,
    }
}

/// The entry of a party that receives from channel `c`, where it can go on by itself.
fn receives_alone(machine: &Machine, p: Party, c: u32) -> Option<Entry>
    ensures { result ≡ steps.receives_alone p c (at.items_of (state_of machine.now) c) (at.is_closed (state_of machine.now) c) }
{
    match machine.first_item(c) {
        Some(v) => Some(Entry::Recv { p, c, v: Some(v) }),
        None if machine.is_closed(c) => Some(Entry::Recv { p, c, v: None }),
        None => None,
    }
}

/// The entry of a party that takes a mutex, or what a WaitGroup or a context gives, where it can go on by itself.
fn takes_alone(machine: &Machine, script: &Script, p: Party, o: u32) -> Option<Entry>
    ensures { result ≡ steps.takes_alone (state_of machine.now) p o (what_at script.now o) }
{
    match what_at(script, o) {
        Some(What::Mutex) if !machine.is_locked(o) => Some(Entry::Lock { g: p.g, m: o }),
        Some(What::Wg) if machine.is_done(o) => Some(Entry::WgWait { g: p.g, w: o }),
        Some(What::Ctx { .. }) if machine.has_ended(o) => Some(Entry::CtxDone { p, x: o }),
        _ => None,
    }
}

/// The entry of a party at an operation, where it can go on by itself. A send to a closed channel is a misuse.
fn goes_alone(machine: &Machine, script: &Script, p: Party, kind: CaseKind) -> Option<Entry>
    ensures { result ≡ steps.goes_alone script.now (state_of machine.now) p kind }
{
    match kind {
        CaseKind::Recv(c) if is_chan(script, c) => receives_alone(machine, p, c),
        CaseKind::Recv(o) => takes_alone(machine, script, p, o),
        CaseKind::Send(c, _) if machine.is_closed(c) => Some(Entry::Panic {
            p,
            reason: Reason::Closed,
        }),
        CaseKind::Send(c, v) if machine.has_room(script, c) => Some(Entry::Send { p, c, v }),
        CaseKind::Send(..) => None,
    }
}

/// The entry of a party at an operation with a partner that is parked: the one that has waited longest.
fn meets(
    machine: &Machine,
    scheduler: &Scheduler,
    script: &Script,
    p: Party,
    kind: CaseKind,
) -> Option<Entry>
    requires kept { IsScheduler scheduler.now }
    requires receivers { object_of kind < length (schedule_of scheduler.now).receivers }
    requires senders { object_of kind < length (schedule_of scheduler.now).senders }
    ensures { result ≡ steps.meets script.now (state_of machine.now) (schedule_of scheduler.now) p kind }
{
    match kind {
        CaseKind::Recv(c) if is_chan(script, c) && capacity(script, c) == 0 => {
            let from = scheduler.first_sender(c)?;
            let v = value_of(machine, script, from);
            Some(Entry::Pair { from, to: p, c, v })
        }
        CaseKind::Send(c, v) if capacity(script, c) == 0 => {
            let to = scheduler.first_receiver(c)?;
            Some(Entry::Pair { from: p, to, c, v })
        }
        _ => None,
    }
}

/// The entry of a party at an operation, where it can go on without the value of a timer.
pub fn goes_by(
    machine: &Machine,
    scheduler: &Scheduler,
    script: &Script,
    p: Party,
    kind: CaseKind,
) -> Option<Entry>
    requires kept { IsScheduler scheduler.now }
    requires receivers { object_of kind < length (schedule_of scheduler.now).receivers }
    requires senders { object_of kind < length (schedule_of scheduler.now).senders }
    ensures { result ≡ steps.goes_by script.now (state_of machine.now) (schedule_of scheduler.now) p kind }
{
    match goes_alone(machine, script, p, kind) {
        Some(entry) => Some(entry),
        None => meets(machine, scheduler, script, p, kind),
    }
}

/// The entry of the first case that can go on by itself.
fn first_alone(machine: &Machine, script: &Script, g: u32, cases: &[Case]) -> Option<Entry>
    requires { length cases.now ≤ 16 }
    ensures { result ≡ woken.first_alone script.now (state_of machine.now) g 1 cases.now }
{
    for k in 0..cases.len() {
        let case_no = k as u32 + 1;
        if let Some(entry) = goes_alone(machine, script, Party { g, case_no }, cases[k].kind) {
            return Some(entry);
        }
    }
    None
}

/// The entry of a goroutine that was signalled at a Cond, where nobody has the mutex.
fn relocks(machine: &Machine, script: &Script, g: u32, k: u32) -> Option<Entry>
    ensures { result ≡ woken.relocks script.now (state_of machine.now) g k }
{
    if machine.is_locked(mutex_of(script, k)) {
        None
    } else {
        Some(Entry::CondWake { g, k })
    }
}

/// The entry of the goroutine of a party that waits, where it can go on by itself.
fn woken_by(machine: &Machine, script: &Script, p: Party) -> Option<Entry>
    requires { IsGood script.now }
    ensures { result ≡ woken.woken_by script.now (state_of machine.now) (Some p) }
{
    if let Some(k) = machine.relocking_at(p.g) {
        return relocks(machine, script, p.g, k);
    }
    match machine.stands_at(script, p.g)? {
        Instr::Recv { o } => goes_alone(machine, script, plainly(p.g), CaseKind::Recv(*o)),
        Instr::Send { c, v } => goes_alone(machine, script, plainly(p.g), CaseKind::Send(*c, *v)),
        Instr::Lock { m } => goes_alone(machine, script, plainly(p.g), CaseKind::Recv(*m)),
        Instr::Wait { w } => goes_alone(machine, script, plainly(p.g), CaseKind::Recv(*w)),
        Instr::Select { cases, .. } => first_alone(machine, script, p.g, cases.as_slice()),
        _ => None,
    }
}

/// The entry of a party that waits, if there is one, where it can go on by itself.
fn woken_of(machine: &Machine, script: &Script, party: Option<Party>) -> Option<Entry>
    requires { IsGood script.now }
    ensures { result ≡ woken.woken_by script.now (state_of machine.now) party }
{
    woken_by(machine, script, party?)
}

/// Whether a sender has waited longer than a receiver, where there are both.
fn is_longer(scheduler: &Scheduler, sender: Option<Party>, receiver: Option<Party>) -> bool
    ensures { result ≡ woken.is_longer (schedule_of scheduler.now) sender receiver }
{
    match (sender, receiver) {
        (Some(q), Some(p)) => scheduler.since_of(q.g) < scheduler.since_of(p.g),
        _ => false,
    }
}

/// The entry of the one that goes on next at an object, of those that wait there; None where none can.
pub fn next_woken(
    machine: &Machine,
    scheduler: &Scheduler,
    script: &Script,
    c: u32,
) -> Option<Entry>
    requires good { IsGood script.now }
    requires kept { IsScheduler scheduler.now }
    requires receivers { c < length (schedule_of scheduler.now).receivers }
    requires senders { c < length (schedule_of scheduler.now).senders }
    ensures { result ≡ woken.next_woken script.now (state_of machine.now) (schedule_of scheduler.now) c }
{
    let receiver = scheduler.first_receiver(c);
    let sender = scheduler.first_sender(c);
    let (first, next) = if is_longer(scheduler, sender, receiver) {
        (sender, receiver)
    } else {
        (receiver, sender)
    };
    match woken_of(machine, script, first) {
        Some(entry) => Some(entry),
        None => woken_of(machine, script, next),
    }
}
