//! Runs a script on one worker, one whole call at a time: a goroutine goes on until it waits or ends, then the next of the run queue does. Timers are
//! served only where nobody is to run, and the clock moves only where nothing is due.

ghost use Rattle.std.specs.Prelude.{◌≡◌, ◌<◌, IfOk, None};
ghost use Rattle.gt_model.specs.Good.{IsGood, AreLimits};
ghost use Rattle.gt_book.specs.View.{outcome_of};
ghost use Rattle.gt_runner.specs.Run.{IsComplete, Passes, HandsFree, Turns, run_left};
ghost use Rattle.gt_runner.specs.Served.{IsServed};
ghost use Rattle.gt_runner.specs.Calls.{Ready};
ghost use Rattle.gt_runner.specs.Serves.{IsTaken, ButMarks, IsIdleRun, IsDueHead, Passing};

use crate::begin::begin;
use crate::calls::call;
use crate::runner::Runner;
use crate::settling::settle;
use gt_book::{Book, Pick};
use gt_chtimer::{sec_deliver, sec_unblock};
use gt_fire::sec_run_head;
use gt_model::{Limits, NoMemory, Script};
use gt_rows::HeadDone;
use std::alloc::Global;

/// The number of the program's world.
const PROGRAM: u32 = 0;

/// A goroutine that was taken is counted no more where it waited.
fn unblock(run: &mut Runner, g: u32)
    requires taken { IsTaken run.old g }
    ensures served { IsServed run.new }
    ensures marks { ButMarks run.old.book run.new.book }
{
    while let Some(t) = run.book.next_blocked(g) {
        sec_unblock(run.records.at_mut(t as usize), &mut run.book, g);
    }
}

/// Serves the record at the head, whose time has come. A send that begins is delivered at once.
fn serve(run: &mut Runner, id: u32)
    requires idle { IsIdleRun run.old }
    requires due { IsDueHead run.old id }
    ensures { Passing run.old run.new }
{
    let done = sec_run_head(
        &mut run.heap,
        run.records.at_mut(id as usize),
        &mut run.book,
    );
    if let HeadDone::Send { seq } = done {
        let _done = sec_deliver(run.records.at_mut(id as usize), &mut run.book, seq);
    }
}

/// Where nobody is to run: serves the least time that has come, or moves the clock to the least time to come, or ends the run where there is none.
fn pass_time(run: &mut Runner)
    requires idle { IsIdleRun run.old }
    ensures { Passing run.old run.new }
{
    settle(run);
    match run.heap.head() {
        None => run.book.finish_deadlock(),
        Some((key, id)) if key <= run.book.clock_of(PROGRAM) => serve(run, id),
        Some((key, _)) => run.book.jump(key),
    }
}

/// Lets a goroutine in hand go on until it waits, ends, or the run has its outcome.
fn run_goroutine(run: &mut Runner, g: u32)
    requires ready { Ready run.old g }
    ensures passes { Passes run.old.book run.new.book }
    ensures served { IsServed run.new }
{
    while run.book.outcome().is_none() && run.book.in_hand(g) {
        run.book.lawful();
        call(run, g);
        run.book.lawful();
    }
}

/// The turn of the goroutine that is to run next, or of time where there is none.
fn turn(run: &mut Runner)
    requires served { IsServed run.old }
    requires running { outcome_of run.old.book ≡ None }
    requires free { HandsFree run.old.book }
    ensures turns { Turns run.old.book run.new.book }
    ensures less { run_left run.new.book < run_left run.old.book }
    ensures served { outcome_of run.new.book ≡ None → IsServed run.new }
{
    run.book.lawful();
    match run.book.take_ready() {
        Pick::Run(g) => {
            unblock(run, g);
            run.book.lawful();
            run_goroutine(run, g);
            run.book.lawful();
        }
        Pick::Nothing { .. } => {
            pass_time(run);
            run.book.lawful();
        }
    }
}

/// Runs a script until the run has its outcome. Only memory can keep it from an answer.
pub fn run_script(alloc: Global, script: Script, limits: Limits) -> Result<Book, NoMemory>
    requires good { IsGood script }
    requires limits { AreLimits limits }
    ensures { IfOk result (λ book. IsComplete script limits book) }
{
    let mut run = begin(alloc, script, limits)?;
    while run.book.outcome().is_none() {
        turn(&mut run);
    }
    Ok(run.book)
}
