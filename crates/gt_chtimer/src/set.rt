//! Setting a timer.

ghost use Rattle.std.specs.Prelude.{◌≡◌, ◌+◌, ◌<◌, ◌≤◌, IsNone, Some, false, min};
ghost use Rattle.gt_model.specs.Times.{greatest_time};
ghost use Rattle.gt_rules.specs.State as at;
ghost use Rattle.gt_rec.specs.Rec.{BitsRight};
ghost use Rattle.gt_rec.specs.declared.RecKind.{RecKind};
ghost use Rattle.gt_schedule.specs.declared.status.RunStatus.{RunStatus};
ghost use Rattle.gt_schedule.specs.Schedule.{status_of};
ghost use Rattle.gt_book.specs.Steps.{MayCommit, entry_of, is_gone};
ghost use Rattle.gt_rows.specs.Lent.{IsKept, IsLent, IsPlaced};
ghost use Rattle.gt_rows.specs.Rows.{Arms, SetsAt, SetRow};

use crate::PROGRAM;
use crate::kinds::{answer_of, period_of};
use gt_book::{Book, Commit, Did, Op, TimerOp};
use gt_lazy::Lazy;
use gt_model::due_after;
use gt_rec::TimerRec;
use gt_rows::{SetDone, arm};

/// Goroutine `g`, which the caller has in hand and which stands at an instruction that sets this timer, sets it. The record joins the caller's heap where it
/// needs one and is in none (Go 1.23, runtime/time.go); where another heap has it under a later due time, the answer says so. Making a timer twice, or
/// setting one that was not made, is a panic of `g`.
pub fn sec_set(heap: &mut Lazy, rec: &mut TimerRec, book: &mut Book, g: u32) -> SetDone
    requires lent { IsLent book.old heap.old rec.old }
    requires in_hand { status_of book.old.schedule g ≡ Some RunStatus.InHand }
    requires stands { SetsAt book.old g rec.old.id }
    ensures row { SetRow (record { heap = heap.old; rec = rec.old; book = book.old }) g (record { heap = heap.new; rec = rec.new; book = book.new }) result }
    ensures kept { IsKept book.new heap.new rec.new }
{
    book.lawful();
    match book.step_plain(g) {
        Did::Entered => SetDone::Done,
        Did::Over(outcome) => SetDone::Over(outcome),
        Did::Timer(TimerOp::Set { t, d, anew }) => {
            let was_set = rec.shown_due().is_some();
            let was = answer_of(rec.kind, was_set);
            let due = due_in(book, d);
            let period = period_of(rec.kind, d);
            arm_with(
                heap,
                rec,
                book,
                Op::Set {
                    g,
                    t,
                    anew,
                    was,
                    due,
                    period,
                },
                due,
                period,
            )
        }
        Did::Parked
        | Did::Timer(
            TimerOp::Stop(_)
            | TimerOp::Poll(_)
            | TimerOp::Enrolled(_)
            | TimerOp::Sleep(_)
            | TimerOp::Deadline { .. },
        ) => unreachable!(),
    }
}

/// The due time of a setting that is made now with a duration.
fn due_in(book: &Book, d: u64) -> u64
    ensures { result ≡ min (at.clock book.now.state 0 + d) greatest_time }
{
    book.lawful();
    due_after(book.clock_of(PROGRAM), d)
}

/// Gives the record a new setting with its entry.
fn arm_with(
    heap: &mut Lazy,
    rec: &mut TimerRec,
    book: &mut Book,
    op: Op,
    due: u64,
    period: u64,
) -> SetDone
    requires placed { IsPlaced heap.old rec.old }
    requires room { IsNone rec.old.heaped → 0 < heap.old.spare }
    requires due { due ≤ greatest_time }
    requires period { rec.old.kind ≡ RecKind.Ticker → 0 < period }
    requires may { MayCommit book.old op }
    requires in_time { is_gone book.old op ≡ false }
    ensures arms { Arms (record { heap = heap.old; rec = rec.old; book = book.old }) (entry_of book.old.script book.old.state op) due period
        (record { heap = heap.new; rec = rec.new; book = book.new }) result }
    ensures placed { IsPlaced heap.new rec.new }
    ensures bits { BitsRight rec.new }
{
    let answer = arm(heap, rec, due, period);
    match book.commit(op) {
        Commit::Over(outcome) => SetDone::Over(outcome),
        Commit::Entered | Commit::Gone => answer,
    }
}
