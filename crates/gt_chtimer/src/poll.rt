//! A choice with a default, one of whose cases receives from a timer.

ghost use Rattle.std.specs.Prelude.{◌≡◌, IsTrue, Some};
ghost use Rattle.gt_rec.specs.Rec.{has_channel};
ghost use Rattle.gt_schedule.specs.declared.status.RunStatus.{RunStatus};
ghost use Rattle.gt_schedule.specs.Schedule.{status_of};
ghost use Rattle.gt_rows.specs.Lent.{IsLentRec};
ghost use Rattle.gt_rows.specs.Rows.{PollsAt, PollRow};

use crate::PROGRAM;
use gt_book::{Book, Commit, Did, Op};
use gt_rec::TimerRec;
use gt_rows::PollDone;

/// A choice with a default of goroutine `g`, which the caller has in hand, where one of its cases receives from this timer: the case with the lowest number
/// that can go on is chosen, the timer's among them where its value has come, and else the default (Go specification, "Select statements").
pub fn sec_recv(rec: &mut TimerRec, book: &mut Book, g: u32) -> PollDone
    requires lent { IsLentRec book.old rec.old }
    requires channel { IsTrue (has_channel rec.old.kind) }
    requires in_hand { status_of book.old.schedule g ≡ Some RunStatus.InHand }
    requires stands { PollsAt book.old g rec.old.id }
    ensures row { PollRow (record { rec = rec.old; book = book.old }) g (record { rec = rec.new; book = book.new }) result }
    ensures kept { IsLentRec book.new rec.new }
{
    book.lawful();
    match book.step_plain(g) {
        Did::Entered | Did::Parked => PollDone::Other,
        Did::Over(outcome) => PollDone::Over(outcome),
        Did::Timer(_) => {
            let p = book.receiver(g, rec.id);
            let t = rec.id;
            let Some((due, next)) = rec.take_ready(book.clock_of(PROGRAM)) else {
                return PollDone::Other;
            };
            match book.commit(Op::TRecv { p, t, due, next }) {
                Commit::Over(outcome) => PollDone::Over(outcome),
                Commit::Entered | Commit::Gone => PollDone::Received,
            }
        }
    }
}
