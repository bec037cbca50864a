//! Before the head of the heap is read, the heap learns of the changes that matter to it.

ghost use Rattle.std.specs.Prelude.{◌≡◌, ℕ, IfSome, IfNone, IsNone, None};
ghost use Rattle.gt_lazy.specs.Running as running;
ghost use Rattle.gt_runner.specs.Served.{IsTended};
ghost use Rattle.gt_runner.specs.Settled.{UnfitHead, HeadIsFit, Drops, IsClean};
ghost use Rattle.gt_runner.specs.Settled as settled;

use crate::runner::Runner;
use gt_book::Book;
use gt_fire::sec_drop_deadline;
use gt_rec::{RecKind, TimerRec};

/// Whether the heap that has a record has yet to learn of a change.
fn is_stale(rec: &TimerRec) -> bool
    ensures { result ≡ running.is_stale rec.now }
{
    rec.modified || rec.zombie
}

/// Whether a record shows the deadline of a context that has ended, which counts no more.
fn is_over(book: &Book, rec: &TimerRec) -> bool
    ensures { result ≡ settled.is_over book.now rec.now }
{
    match rec.kind {
        RecKind::Deadline => book.has_ended(rec.id),
        RecKind::Timer | RecKind::Ticker | RecKind::Func | RecKind::Sleep => false,
    }
}

/// Whether a record at the head is not fit to be read: where it is stale, or over.
fn is_unfit(book: &Book, rec: &TimerRec) -> bool
    ensures { result ≡ settled.is_unfit book.now rec.now }
{
    is_stale(rec) || is_over(book, rec)
}

/// The number of the record at the head, where it is unfit.
fn unfit_head(run: &Runner) -> Option<u32>
    requires tended { IsTended run.now }
    ensures some { IfSome result (UnfitHead run.now) }
    ensures none { IsNone result → HeadIsFit run.now }
{
    let (_, id) = run.heap.head()?;
    if is_unfit(&run.book, run.records.at(id as usize)) {
        Some(id)
    } else {
        None
    }
}

/// The record at the head is set no more where it is over: a cancellation touches no record.
fn drop_head(run: &mut Runner, id: u32)
    requires tended { IsTended run.old }
    requires head { UnfitHead run.old id }
    ensures tended { IsTended run.new }
    ensures drops { Drops run.old run.new id }
{
    let rec = run.records.at_mut(id as usize);
    if is_over(&run.book, rec) {
        sec_drop_deadline(rec);
    }
}

/// The heap learns of changes at its head, and loses deadlines that are over there, until the head is fit to be read.
fn clean(run: &mut Runner)
    requires tended { IsTended run.old }
    ensures tended { IsTended run.new }
    ensures fit { HeadIsFit run.new }
    ensures book { run.new.book ≡ run.old.book }
    ensures noted { run.new.noted ≡ run.old.noted }
{
    while let Some(id) = unfit_head(run) {
        drop_head(run, id);
        let _how = run.heap.clean_head(run.records.at_mut(id as usize));
    }
}

/// Whether a time before the head's was noted.
fn is_early(run: &Runner) -> bool
    ensures { result ≡ settled.is_early run.now }
{
    match (run.noted, run.heap.head()) {
        (Some(noted), Some((key, _))) => noted < key,
        _ => false,
    }
}

/// The heap learns of each change.
fn pass(run: &mut Runner)
    requires tended { IsTended run.old }
    ensures tended { IsTended run.new }
    ensures noted { run.new.noted ≡ None }
    ensures book { run.new.book ≡ run.old.book }
{
    run.heap.begin_pass();
    while let Some(place) = run.heap.next_unscanned() {
        let (_, id, _) = run.heap.entry(place);
        let _how = run.heap.scan_one(place, run.records.at_mut(id as usize));
    }
    run.noted = None;
}

/// Makes the head of the heap fit to be read: it is due at its key, which is not over, and no record that needs the heap is due before it. A pass over the whole
/// heap is made only where a record was given a due time below its key that comes before the head's.
pub fn settle(run: &mut Runner)
    requires tended { IsTended run.old }
    ensures tended { IsTended run.new }
    ensures clean { IsClean run.new }
    ensures book { run.new.book ≡ run.old.book }
{
    clean(run);
    if is_early(run) {
        pass(run);
        clean(run);
    }
}
