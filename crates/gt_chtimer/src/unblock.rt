//! A goroutine that waits at a timer no longer.

ghost use Rattle.std.specs.Prelude.{◌≡◌, Some, slice_get};
ghost use Rattle.gt_schedule.specs.Schedule.{marks_at};
ghost use Rattle.gt_rows.specs.Lent.{IsLentRec};
ghost use Rattle.gt_rows.specs.Rows.{UnblockRow};

use gt_book::Book;
use gt_rec::TimerRec;

/// Takes the earliest mark of goroutine `g` away, which is one of this timer, and counts it no longer among those that wait there.
pub fn sec_unblock(rec: &mut TimerRec, book: &mut Book, g: u32)
    requires lent { IsLentRec book.old rec.old }
    requires marked { slice_get (marks_at book.old.schedule g) 0 ≡ Some rec.old.id }
    ensures row { UnblockRow (record { rec = rec.old; book = book.old }) g (record { rec = rec.new; book = book.new }) }
    ensures kept { IsLentRec book.new rec.new }
{
    book.unmark_blocked(g, rec.id);
    if rec.blocked > 0 {
        rec.lower_blocked();
    }
}
