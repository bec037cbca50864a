//! A goroutine that falls asleep.

ghost use Rattle.std.specs.Prelude.{◌≡◌, ◌+◌, Some, None, length};
ghost use Rattle.gt_model.specs.declared.entry.Entry.{Entry};
ghost use Rattle.gt_rules.specs.Legal.{due_at};
ghost use Rattle.gt_rules.specs.State.{clock_of};
ghost use Rattle.gt_schedule.specs.declared.status.RunStatus.{RunStatus};
ghost use Rattle.gt_schedule.specs.Schedule.{status_of};
ghost use Rattle.gt_book.specs.declared.step.Step.{Step};
ghost use Rattle.gt_book.specs.declared.answers.TimerOp.{TimerOp};
ghost use Rattle.gt_book.specs.View.{outcome_of};
ghost use Rattle.gt_rows.specs.Lent.{IsLent, IsKept};
ghost use Rattle.gt_rows.specs.Rows.{Arms, SleepsAt, SleepRow, next_of};

use gt_book::{Book, Commit, Did, Op, TimerOp};
use gt_lazy::Lazy;
use gt_model::due_after;
use gt_rec::TimerRec;
use gt_rows::{SetDone, arm};

/// The world of the program.
const PROGRAM: u32 = 0;

/// `sleep` for some time of goroutine `g`, which the caller has in hand and which stands at such an instruction: it falls asleep, and the record of its
/// sleep is set until the sleep's end, at most the greatest time (Go 1.23, runtime/time.go).
pub fn sec_sleep(heap: &mut Lazy, rec: &mut TimerRec, book: &mut Book, g: u32) -> SetDone
    requires lent { IsLent book.old heap.old rec.old }
    requires in_hand { status_of book.old.schedule g ≡ Some RunStatus.InHand }
    requires stands { SleepsAt book.old g rec.old.id }
    ensures row { SleepRow (record { heap = heap.old; rec = rec.old; book = book.old }) g (record { heap = heap.new; rec = rec.new; book = book.new }) result }
    ensures kept { IsKept book.new heap.new rec.new }
{
    match book.step_plain(g) {
        Did::Timer(TimerOp::Sleep(d)) => fall_asleep(heap, rec, book, g, d),
        Did::Over(outcome) => SetDone::Over(outcome),
        // An instruction to sleep for some time asks for nothing else.
        Did::Timer(_) => SetDone::Done,
        Did::Entered | Did::Parked => SetDone::Done,
    }
}

/// The same for `d` nanoseconds, while the run goes on.
fn fall_asleep(heap: &mut Lazy, rec: &mut TimerRec, book: &mut Book, g: u32, d: u64) -> SetDone
    requires lent { IsLent book.old heap.old rec.old }
    requires in_hand { status_of book.old.schedule g ≡ Some RunStatus.InHand }
    requires its { rec.old.id ≡ length book.old.script.decls + g }
    requires running { outcome_of book.old ≡ None }
    requires asks { next_of book.old g ≡ Some (Step.Needs (TimerOp.Sleep d)) }
    ensures arms { let until = due_at (clock_of book.old.state g) d in
        Arms (record { heap = heap.old; rec = rec.old; book = book.old }) (Entry.Sleep g (Some until)) until 0
        (record { heap = heap.new; rec = rec.new; book = book.new }) result }
    ensures kept { IsKept book.new heap.new rec.new }
{
    book.lawful();
    let until = due_after(book.clock_of(PROGRAM), d);
    let answer = arm(heap, rec, until, 0);
    match book.commit(Op::Sleep { g, until }) {
        Commit::Over(outcome) => SetDone::Over(outcome),
        Commit::Entered | Commit::Gone => answer,
    }
}
