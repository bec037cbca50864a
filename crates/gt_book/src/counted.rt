//! The least time that counts, found by a look at all goroutines and declarations.

ghost use Rattle.std.specs.Prelude.{◌≡◌, ◌+◌, ◌≤◌, ◌↔◌, [], IsNone, IsTrue, IfSome, Some, length};
ghost use Rattle.gt_model.specs.Good.{IsGood};
ghost use Rattle.gt_model.specs.Script.{is_func};
ghost use Rattle.gt_model.specs.Tables.{least};
ghost use Rattle.gt_rules.specs.State as at;
ghost use Rattle.gt_model.specs.declared.script.Script.{Script};
ghost use Rattle.gt_rules.specs.Counted.{counted, deadline_in};
ghost use Rattle.gt_rules.specs.Operations.{receives_from, offers};
ghost use Rattle.gt_model.specs.declared.script.Case.{Case};
ghost use Rattle.std.specs.List.{list_any};
ghost use Rattle.gt_facts.specs.Formed.{IsFormed};
ghost use Rattle.gt_machine.specs.Machine.{state_of};
ghost use Rattle.gt_book.specs.Least.{IsCountedBy};
ghost use Rattle.gt_book.specs.Found.{IsNotLater, IsOneOf, IsOneDue, IsOneOfDue, IsOneAt, IsLeastBelow, IsLeastWith};

use gt_machine::Machine;
use gt_model::{Case, CaseKind, Decl, Instr, Script, What};

/// A time, and the number of a record that shows it.
type Found = Option<(u64, u32)>;

/// The earlier of what was found and another time.
fn earlier(found: Found, time: Option<u64>, id: u32) -> Found
    ensures one { IsOneOf found time id result }
    ensures not_later { IsNotLater result time }
    ensures still { (other : _) → IsNotLater found other → IsNotLater result other }
{
    match (found, time) {
        (_, None) => found,
        (Some((least, _)), Some(at)) if least <= at => found,
        (_, Some(at)) => Some((at, id)),
    }
}

/// Whether a declaration is an AfterFunc timer.
fn is_func(script: &Script, t: u32) -> bool
    ensures { result ≡ is_func script.now t }
{
    matches!(
        script.decls.as_slice().get(t as usize),
        Some(Decl {
            what: What::AfterFunc { .. },
            ..
        })
    )
}

/// The earlier of what was found and the due time of the timer from which an operation receives.
fn with_operation(found: Found, machine: &Machine, kind: CaseKind) -> Found
    ensures not_later { (t : _) → IsTrue (receives_from t kind) → IsNotLater result (at.due_of (state_of machine.now) t) }
    ensures still { (other : _) → IsNotLater found other → IsNotLater result other }
    ensures shown { IsOneDue (state_of machine.now) found kind result }
{
    match kind {
        CaseKind::Recv(o) => earlier(found, machine.due_of(o), o),
        CaseKind::Send(..) => found,
    }
}

/// The earlier of what was found and the due times of the timers from which the cases of a choice receive.
fn with_cases(found: Found, machine: &Machine, cases: &[Case]) -> Found
    ensures not_later { (t : _) → IsTrue (list_any (λ (c : Case). receives_from t c.kind) cases.now) → IsNotLater result (at.due_of (state_of machine.now) t) }
    ensures still { (other : _) → IsNotLater found other → IsNotLater result other }
    ensures shown { IsOneOfDue (state_of machine.now) found cases.now result }
{
    let mut least = found;
    for case in cases {
        least = with_operation(least, machine, case.kind);
    }
    least
}

/// The earlier of what was found and the due times of the timers from which an instruction receives.
fn with_instr(found: Found, machine: &Machine, instr: &Instr) -> Found
    ensures not_later { (t : _) → IsTrue (offers (receives_from t) instr.now) → IsNotLater result (at.due_of (state_of machine.now) t) }
    ensures still { (other : _) → IsNotLater found other → IsNotLater result other }
    ensures shown { IsOneAt (state_of machine.now) found instr.now result }
{
    match instr {
        Instr::Recv { o } => with_operation(found, machine, CaseKind::Recv(*o)),
        Instr::Lock { m } => with_operation(found, machine, CaseKind::Recv(*m)),
        Instr::Wait { w } => with_operation(found, machine, CaseKind::Recv(*w)),
        Instr::Select { cases, .. } => with_cases(found, machine, cases.as_slice()),
        _ => found,
    }
}

/// The earlier of what was found and what a goroutine waits for: the end of its sleep, or the due times of the timers from which it would receive.
fn with_goroutine(found: Found, machine: &Machine, script: &Script, g: u32) -> Found
    requires good { IsGood script.now }
    requires formed { IsFormed script.now (state_of machine.now) }
    requires few { g ≤ 204097 }
    requires found { IsLeastBelow script.now (state_of machine.now) g found }
    ensures { IsLeastBelow script.now (state_of machine.now) (g + 1) result }
{
    let sleep = script.decls.as_slice().len() as u32 + g;
    let with_sleep = earlier(found, machine.until(g), sleep);
    match machine.stands_at(script, g) {
        Some(instr) => with_instr(with_sleep, machine, instr),
        None => with_sleep,
    }
}

/// The own deadline of a context that has not ended.
fn deadline_of(machine: &Machine, x: u32) -> Option<u64>
    requires { (script : Script) × IsFormed script (state_of machine.now) }
    ensures { result ≡ deadline_in 0 (at.context_at (state_of machine.now) x) }
{
    if machine.has_ended(x) {
        None
    } else {
        machine.own_of(x)
    }
}

/// The earlier of what was found and when a declaration is due, if it is an AfterFunc timer or a context.
fn with_decl(found: Found, machine: &Machine, script: &Script, t: u32) -> Found
    requires formed { IsFormed script.now (state_of machine.now) }
    requires found { IsLeastWith script.now (state_of machine.now) t found }
    ensures { IsLeastWith script.now (state_of machine.now) (t + 1) result }
{
    if is_func(script, t) {
        earlier(found, machine.due_of(t), t)
    } else {
        earlier(found, deadline_of(machine, t), t)
    }
}

/// The least time that goroutines wait for.
fn least_of_goroutines(machine: &Machine, script: &Script) -> Found
    requires good { IsGood script.now }
    requires formed { IsFormed script.now (state_of machine.now) }
    requires few { length machine.now.goroutines.items ≤ 204097 }
    ensures { IsLeastBelow script.now (state_of machine.now) (length machine.now.goroutines.items + 1) result }
{
    let mut found = None;
    for g in 0..machine.goroutine_count() + 1 {
        found = with_goroutine(found, machine, script, g);
    }
    found
}

/// The least of the times that will unblock somebody, and the number of a record that shows it; None where there is none.
pub fn least_counted(machine: &Machine, script: &Script) -> Option<(u64, u32)>
    requires good { IsGood script.now }
    requires formed { IsFormed script.now (state_of machine.now) }
    requires few { length machine.now.goroutines.items ≤ 204097 }
    ensures none { IsNone result ↔ (counted script.now (state_of machine.now) 0 ≡ []) }
    ensures least { IfSome result (λ found. least (counted script.now (state_of machine.now) 0) ≡ Some found.0) }
    ensures whose { IfSome result (λ found. IsCountedBy script.now (state_of machine.now) found.1 found.0) }
{
    let mut found = least_of_goroutines(machine, script);
    for t in 0..script.decls.as_slice().len() as u32 {
        found = with_decl(found, machine, script, t);
    }
    found
}
