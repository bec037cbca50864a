//! One whole call of a goroutine in hand.

ghost use Rattle.std.specs.Prelude.{◌≡◌, ◌+◌, ◌^◌, ◌<◌, ◌≤◌, length, slice_get, Some, None, [], IsSome};
ghost use Rattle.gt_book.specs.declared.answers.TimerOp.{TimerOp};
ghost use Rattle.gt_book.specs.declared.step.Step.{Step};
ghost use Rattle.gt_rows.specs.Rows.{next_of};
ghost use Rattle.gt_runner.specs.Served as served;
ghost use Rattle.gt_runner.specs.Served.{IsTended, IsServed, operations_of, record_count};
ghost use Rattle.gt_runner.specs.Calls.{Ready, After, WantsSet, IsSleep, IsDerive, IsEnrolled, Enrols, IsUncounted, EnrolsAll, Grows};

use crate::runner::Runner;
use gt_book::{Did, TimerOp, timer_of};
use gt_chtimer::{sec_block, sec_recv, sec_set, sec_stop};
use gt_fire::{sec_deadline, sec_sleep};
use gt_model::{CaseKind, Instr};
use gt_rec::{RecKind, TimerRec};
use gt_rows::BlockDone;
use gt_schedule::Ticket;

/// What is noted, once the due time of a record is noted too where its heap has it under a later one.
fn noted_at(noted: Option<u64>, rec: &TimerRec) -> Option<u64>
    ensures { result ≡ served.noted_at noted rec.now }
{
    match rec.when {
        Some(when) if rec.heaped.is_some() && when < rec.key => match noted {
            Some(least) => Some(least.min(when)),
            None => Some(when),
        },
        _ => noted,
    }
}

/// Sets timer `t`.
fn set(run: &mut Runner, g: u32, t: u32)
    requires ready { Ready run.old g }
    requires wants { WantsSet run.old.book g t }
    ensures { After run.old run.new g }
{
    let _done = sec_set(
        &mut run.heap,
        run.records.at_mut(t as usize),
        &mut run.book,
        g,
    );
    run.noted = noted_at(run.noted, run.records.at(t as usize));
}

/// Stops timer `t`.
fn stop(run: &mut Runner, g: u32, t: u32)
    requires ready { Ready run.old g }
    requires wants { next_of run.old.book g ≡ Some (Step.Needs (TimerOp.Stop t)) }
    ensures { After run.old run.new g }
{
    let _done = sec_stop(run.records.at_mut(t as usize), &mut run.book, g);
}

/// Makes the records of sleeps up to this number.
fn grow(run: &mut Runner, id: u32)
    requires served { IsServed run.old }
    requires room { id < record_count run.old.book }
    requires small { record_count run.old.book < 2 ^ 32 }
    ensures served { IsServed run.new }
    ensures grows { Grows run.old run.new }
    ensures within { id < length run.new.records.items }
{
    while run.records.len() <= id as usize {
        let next = run.records.len() as u32;
        run.records.put(TimerRec::unset(next, RecKind::Sleep));
    }
}

/// Falls asleep.
fn sleep(run: &mut Runner, g: u32)
    requires ready { Ready run.old g }
    requires wants { IsSleep run.old.book g }
    ensures { After run.old run.new g }
{
    run.book.lawful();
    let id = run.book.script().decls.as_slice().len() as u32 + g;
    grow(run, id);
    let _done = sec_sleep(
        &mut run.heap,
        run.records.at_mut(id as usize),
        &mut run.book,
        g,
    );
    run.noted = noted_at(run.noted, run.records.at(id as usize));
}

/// Makes context `x`, whose own deadline is to come.
fn derive(run: &mut Runner, g: u32, x: u32)
    requires ready { Ready run.old g }
    requires wants { IsDerive run.old.book g x }
    ensures { After run.old run.new g }
{
    let _done = sec_deadline(
        &mut run.heap,
        run.records.at_mut(x as usize),
        &mut run.book,
        g,
    );
    run.noted = noted_at(run.noted, run.records.at(x as usize));
}

/// Receives from timer `t`, whose value has come, as a case of a choice with a default.
fn poll(run: &mut Runner, g: u32, t: u32)
    requires ready { Ready run.old g }
    requires wants { next_of run.old.book g ≡ Some (Step.Needs (TimerOp.Poll t)) }
    ensures { After run.old run.new g }
{
    let _done = sec_recv(run.records.at_mut(t as usize), &mut run.book, g);
}

/// Is counted among those that wait at timer `t`, or receives at once. The answer is whether it waits.
fn block(run: &mut Runner, ticket: Ticket, t: u32) -> bool
    requires enrolled { IsEnrolled run.old ticket t }
    ensures { Enrols run.old run.new ticket.g t result }
{
    run.book.lawful();
    let done = sec_block(
        &mut run.heap,
        run.records.at_mut(t as usize),
        &mut run.book,
        ticket,
    );
    run.noted = noted_at(run.noted, run.records.at(t as usize));
    matches!(done, BlockDone::Blocked { .. })
}

/// The operation at this place among those at which an instruction waits, counted from 0.
fn operation_in(instr: &Instr, k: usize) -> Option<CaseKind>
    ensures { result ≡ slice_get (operations_of instr.now) k }
{
    match instr {
        Instr::Recv { o } if k == 0 => Some(CaseKind::Recv(*o)),
        Instr::Select { cases, .. } => Some(cases.as_slice().get(k)?.kind),
        _ => None,
    }
}

/// Is counted at each timer where it waits, in the order of its cases, or receives at once.
fn wait(run: &mut Runner, ticket: Ticket)
    requires uncounted { IsUncounted run.old ticket }
    ensures { EnrolsAll run.old run.new }
{
    run.book.lawful();
    let mut k = 0;
    while let Some(kind) = operation_in(run.book.instr_of(ticket.g), k) {
        if let Some(t) = timer_of(run.book.script(), kind) {
            if !block(run, ticket, t) {
                return;
            }
        }
        k += 1;
    }
}

/// One whole call of a goroutine in hand.
pub fn call(run: &mut Runner, g: u32)
    requires ready { Ready run.old g }
    ensures { After run.old run.new g }
{
    let Did::Timer(wanted) = run.book.step_plain(g) else {
        return;
    };
    run.book.lawful();
    match wanted {
        TimerOp::Set { t, .. } => set(run, g, t),
        TimerOp::Stop(t) => stop(run, g, t),
        TimerOp::Sleep(_) => sleep(run, g),
        TimerOp::Deadline { x, .. } => derive(run, g, x),
        TimerOp::Poll(t) => poll(run, g, t),
        TimerOp::Enrolled(ticket) => wait(run, ticket),
    }
}
