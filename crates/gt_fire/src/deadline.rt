//! The deadline of a context.

ghost use Rattle.std.specs.Prelude.{◌≡◌, Some, None, false, IsTrue};
ghost use Rattle.gt_model.specs.Script.{is_ctx};
ghost use Rattle.gt_rules.specs.State.{has_ended};
ghost use Rattle.gt_model.specs.declared.entry.Entry.{Entry};
ghost use Rattle.gt_schedule.specs.declared.status.RunStatus.{RunStatus};
ghost use Rattle.gt_schedule.specs.Schedule.{status_of};
ghost use Rattle.gt_book.specs.declared.step.Step.{Step};
ghost use Rattle.gt_book.specs.declared.answers.TimerOp.{TimerOp};
ghost use Rattle.gt_book.specs.View.{BookView, outcome_of};
ghost use Rattle.gt_rows.specs.Lent.{IsLent, IsLentRec, IsKept};
ghost use Rattle.gt_rows.specs.Rows.{Arms, DerivesAt, DeriveRow, DropRow, next_of};

use gt_book::{Book, Commit, Did, Op, TimerOp};
use gt_lazy::Lazy;
use gt_rec::TimerRec;
use gt_rows::{SetDone, arm};

/// `with` of goroutine `g`, which the caller has in hand and which stands at the making of this context: it is made, and where its own deadline is to come
/// the record is set until then (Go 1.23, package context). Making a context twice, or below one that was not made, is a panic of `g`.
pub fn sec_deadline(heap: &mut Lazy, rec: &mut TimerRec, book: &mut Book, g: u32) -> SetDone
    requires lent { IsLent book.old heap.old rec.old }
    requires in_hand { status_of book.old.schedule g ≡ Some RunStatus.InHand }
    requires stands { DerivesAt book.old g rec.old.id }
    ensures row { DeriveRow (record { heap = heap.old; rec = rec.old; book = book.old }) g (record { heap = heap.new; rec = rec.new; book = book.new }) result }
    ensures kept { IsKept book.new heap.new rec.new }
{
    book.lawful();
    match book.step_plain(g) {
        Did::Entered => SetDone::Done,
        Did::Over(outcome) => SetDone::Over(outcome),
        Did::Timer(op) => {
            let TimerOp::Deadline { due, .. } = op else {
                unreachable!()
            };
            derive(heap, rec, book, g, due)
        }
        Did::Parked => unreachable!(),
    }
}

/// The same for one whose own deadline is to come, while the run goes on.
fn derive(heap: &mut Lazy, rec: &mut TimerRec, book: &mut Book, g: u32, due: u64) -> SetDone
    requires lent { IsLent book.old heap.old rec.old }
    requires in_hand { status_of book.old.schedule g ≡ Some RunStatus.InHand }
    requires running { outcome_of book.old ≡ None }
    requires asks { next_of book.old g ≡ Some (Step.Needs (TimerOp.Deadline rec.old.id due)) }
    ensures arms { Arms (record { heap = heap.old; rec = rec.old; book = book.old }) (Entry.CtxMake g rec.old.id false) due 0
        (record { heap = heap.new; rec = rec.new; book = book.new }) result }
    ensures kept { IsKept book.new heap.new rec.new }
{
    book.lawful();
    let x = rec.id;
    let answer = arm(heap, rec, due, 0);
    match book.commit(Op::Derive { g, x }) {
        Commit::Over(outcome) => SetDone::Over(outcome),
        Commit::Entered | Commit::Gone => answer,
    }
}

/// Ends the setting of the deadline of a context that has ended, which an end leaves to whoever finds its record. The heap learns of it later. The record stays right
/// beside each book in which that context has ended; it never lives again.
pub fn sec_drop_deadline(rec: &mut TimerRec)
    ensures row { DropRow rec.old rec.new }
    ensures kept { (b : BookView) → IsLentRec b rec.old → IsTrue (is_ctx b.script rec.old.id) → IsTrue (has_ended b.state rec.old.id) → IsLentRec b rec.new }
{
    rec.disarm();
}
