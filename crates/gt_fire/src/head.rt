//! The head of a heap.

ghost use Rattle.std.specs.Prelude.{◌≡◌, ℕ, ◌↔◌, [], IsNone, IfSome, false, slice_index_or};
ghost use Rattle.gt_lazy.specs.Slots.{Slot, StandsAt};
ghost use Rattle.gt_book.specs.Steps.{MayCommit, is_gone};
ghost use Rattle.gt_rows.specs.Lent.{IsLent, IsKept};
ghost use Rattle.gt_rows.specs.Rows.{HeadRow};
ghost use Rattle.gt_fire.specs.Fires.{MayFire, FiredAs, CommitsAs};

use gt_book::{Book, Commit, Op};
use gt_lazy::{Lazy, Ran};
use gt_rec::{RecKind, TimerRec};
use gt_rows::HeadDone;

/// The world of the program.
const PROGRAM: u32 = 0;

/// The number of the record at the head of a heap, or None where the heap is empty.
pub fn head_rec(heap: &Lazy) -> Option<u32>
    ensures none { IsNone result ↔ (heap.now.slots ≡ []) }
    ensures first { IfSome result (λ id. (d : Slot) → id ≡ (slice_index_or heap.now.slots 0 d).id) }
{
    let (_, id) = heap.head()?;
    Some(id)
}

/// Runs the head of a heap, which is this record's, at the program's clock. A head whose heap has yet to learn of a change is cleaned instead (Go 1.23,
/// runtime/time.go). A function that is due starts, a sleep that is over ends, and a context whose deadline has come ends, unless it has; a timer with a channel
/// begins its send.
pub fn sec_run_head(heap: &mut Lazy, rec: &mut TimerRec, book: &mut Book) -> HeadDone
    requires lent { IsLent book.old heap.old rec.old }
    requires head { StandsAt heap.old 0 rec.old }
    ensures row { HeadRow (record { heap = heap.old; rec = rec.old; book = book.old }) (record { heap = heap.new; rec = rec.new; book = book.new }) result }
    ensures kept { IsKept book.new heap.new rec.new }
{
    book.lawful();
    rec.lawful();
    if let Some(outcome) = book.outcome() {
        return HeadDone::Over(outcome);
    }
    let id = rec.id;
    let kind = rec.kind;
    let now = book.clock_of(PROGRAM);
    match heap.run_head(rec, now) {
        Ran::NotDue(key) => HeadDone::Later(key),
        Ran::Stale => HeadDone::Stale,
        Ran::Dropped => HeadDone::Dropped,
        Ran::Fired { seq, .. } => fire(book, kind, id, seq),
    }
}

/// What comes of a record of this number and kind that fired.
fn fire(book: &mut Book, kind: RecKind, id: u32, seq: u64) -> HeadDone
    requires { MayFire book.old id kind }
    ensures { FiredAs book.old id seq book.new result kind }
{
    match kind {
        RecKind::Timer | RecKind::Ticker => HeadDone::Send { seq },
        RecKind::Func => commit(book, Op::Fire { t: id }),
        RecKind::Sleep => {
            let declarations = book.script().decls.as_slice().len() as u32;
            commit(
                book,
                Op::Wake {
                    g: id - declarations,
                },
            )
        }
        RecKind::Deadline => commit(book, Op::Expire { x: id }),
    }
}

/// Commits the operation of a record that fired, unless it comes too late.
fn commit(book: &mut Book, op: Op) -> HeadDone
    requires may { is_gone book.old op ≡ false → MayCommit book.old op }
    ensures { CommitsAs book.old op book.new result (is_gone book.old op) }
{
    match book.commit(op) {
        Commit::Entered => HeadDone::Fired,
        Commit::Gone => HeadDone::Gone,
        Commit::Over(outcome) => HeadDone::Over(outcome),
    }
}
