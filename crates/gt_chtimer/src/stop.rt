//! Stopping a timer.

ghost use Rattle.std.specs.Prelude.{◌≡◌, Some};
ghost use Rattle.gt_schedule.specs.declared.status.RunStatus.{RunStatus};
ghost use Rattle.gt_schedule.specs.Schedule.{status_of};
ghost use Rattle.gt_rows.specs.Lent.{IsLentRec};
ghost use Rattle.gt_rows.specs.Rows.{StopsAt, StopRow};

use crate::kinds::answer_of;
use gt_book::{Book, Commit, Did, Op};
use gt_rec::TimerRec;
use gt_rows::StopDone;

/// `stop` of goroutine `g`, which the caller has in hand and which stands at a stop of this timer: its setting ends, and so does a value that was sent
/// and not received (Go 1.23, package time). Its heap learns of it later. A stop of a timer that was not made is a panic of `g`.
pub fn sec_stop(rec: &mut TimerRec, book: &mut Book, g: u32) -> StopDone
    requires lent { IsLentRec book.old rec.old }
    requires in_hand { status_of book.old.schedule g ≡ Some RunStatus.InHand }
    requires stands { StopsAt book.old g rec.old.id }
    ensures row { StopRow (record { rec = rec.old; book = book.old }) g (record { rec = rec.new; book = book.new }) result }
    ensures kept { IsLentRec book.new rec.new }
{
    book.lawful();
    match book.step_plain(g) {
        // A stop waits for nobody.
        Did::Entered | Did::Parked => StopDone::Done,
        Did::Over(outcome) => StopDone::Over(outcome),
        Did::Timer(_) => {
            let was_set = rec.disarm();
            let was = answer_of(rec.kind, was_set);
            match book.commit(Op::Stop { g, t: rec.id, was }) {
                Commit::Over(outcome) => StopDone::Over(outcome),
                Commit::Entered | Commit::Gone => StopDone::Done,
            }
        }
    }
}
