//! The end of the send of a timer's value.

ghost use Rattle.std.specs.Prelude.{◌≡◌, IsTrue};
ghost use Rattle.gt_rec.specs.Rec.{has_channel};
ghost use Rattle.gt_rows.specs.Lent.{IsLentRec};
ghost use Rattle.gt_rows.specs.Rows.{DeliverRow};

use crate::receive::receive;
use gt_book::{Book, Commit};
use gt_rec::{Sent, TimerRec};
use gt_rows::Delivered;

/// The send of this number ends. Who waits longest at the timer receives its value, and where nobody waits it stands ready. Where the setting of that
/// send has ended, or an earlier value stands ready, nothing changes (Go 1.23, runtime/time.go).
pub fn sec_deliver(rec: &mut TimerRec, book: &mut Book, seq: u64) -> Delivered
    requires lent { IsLentRec book.old rec.old }
    requires channel { IsTrue (has_channel rec.old.kind) }
    ensures row { DeliverRow (record { rec = rec.old; book = book.old }) seq (record { rec = rec.new; book = book.new }) result }
    ensures kept { IsLentRec book.new rec.new }
{
    book.lawful();
    if let Some(outcome) = book.outcome() {
        return Delivered::Over(outcome);
    }
    let Sent::Kept = rec.end_send(seq) else {
        return Delivered::Dropped;
    };
    let Some(p) = book.timer_waiter(rec.id) else {
        return Delivered::Kept;
    };
    let Some(commit) = receive(rec, book, p) else {
        return Delivered::Kept;
    };
    match commit {
        Commit::Over(outcome) => Delivered::Over(outcome),
        Commit::Entered | Commit::Gone => Delivered::Given(p),
    }
}
