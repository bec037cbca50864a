//! A goroutine that comes to wait at a timer.

ghost use Rattle.std.specs.Prelude.{◌≡◌, ◌<◌, IsNone, IsTrue, None};
ghost use Rattle.gt_rules.specs.State as at;
ghost use Rattle.gt_rec.specs.Rec.{BitsRight, has_channel, shown};
ghost use Rattle.gt_rec.specs.Changes.{received};
ghost use Rattle.gt_schedule.specs.Schedule.{HasMarkRoom, IsLive};
ghost use Rattle.gt_schedule.specs.Schedule as schedule;
ghost use Rattle.gt_book.specs.View.{stands_for, outcome_of};
ghost use Rattle.gt_rows.specs.Lent.{IsKept, IsLent, IsPlaced, Settles, joins};
ghost use Rattle.gt_rows.specs.Rows.{BlockRow, Blocks};

use crate::receive::receive;
use gt_book::{Book, Commit};
use gt_lazy::Lazy;
use gt_rec::TimerRec;
use gt_rows::BlockDone;
use gt_schedule::Ticket;

/// A goroutine that was parked with this ticket at a receive from this timer, plainly or as a case of its choice: where the timer's value has come it receives it, and else the record
/// counts it. The record joins the caller's heap where it needs one and is in none (Go 1.23, runtime/time.go).
pub fn sec_block(heap: &mut Lazy, rec: &mut TimerRec, book: &mut Book, ticket: Ticket) -> BlockDone
    requires lent { IsLent book.old heap.old rec.old }
    requires channel { IsTrue (has_channel rec.old.kind) }
    requires waits { IsLive book.old.schedule ticket → IsTrue (stands_for book.old.script book.old.state ticket.g rec.old.id) }
    requires room { IsLive book.old.schedule ticket → HasMarkRoom book.old.schedule ticket.g }
    ensures row { BlockRow (record { heap = heap.old; rec = rec.old; book = book.old }) ticket (record { heap = heap.new; rec = rec.new; book = book.new }) result }
    ensures kept { IsKept book.new heap.new rec.new }
{
    if let Some(outcome) = book.outcome() {
        return BlockDone::Over(outcome);
    }
    if !book.live(ticket) {
        return BlockDone::Gone;
    }
    let p = book.receiver(ticket.g, rec.id);
    let Some(commit) = receive(rec, book, p) else {
        return count(heap, rec, book, ticket);
    };
    match commit {
        Commit::Over(outcome) => BlockDone::Over(outcome),
        Commit::Entered | Commit::Gone => BlockDone::Received,
    }
}

/// Counts the goroutine of a ticket among those that wait at the timer.
fn count(heap: &mut Lazy, rec: &mut TimerRec, book: &mut Book, ticket: Ticket) -> BlockDone
    requires lent { IsLent book.old heap.old rec.old }
    requires live { IsLive book.old.schedule ticket }
    requires waits { IsTrue (stands_for book.old.script book.old.state ticket.g rec.old.id) }
    requires room { HasMarkRoom book.old.schedule ticket.g }
    ensures row { Blocks (record { heap = heap.old; rec = rec.old; book = book.old }) ticket.g (record { heap = heap.new; rec = rec.new; book = book.new }) result }
    ensures kept { IsKept book.new heap.new rec.new }
{
    rec.raise_blocked();
    book.mark_blocked(ticket, rec.id);
    let joined = join(heap, rec);
    BlockDone::Blocked {
        lower: if joined { rec.when } else { None },
    }
}

/// Lets the record join the heap where it needs one and is in none, and answers whether it did.
fn join(heap: &mut Lazy, rec: &mut TimerRec) -> bool
    requires placed { IsPlaced heap.old rec.old }
    requires room { IsNone rec.old.heaped → 0 < heap.old.spare }
    requires bits { BitsRight rec.old }
    ensures answer { result ≡ joins rec.old }
    ensures place { Settles heap.old rec.old heap.new rec.new (joins rec.old) }
    ensures placed { IsPlaced heap.new rec.new }
    ensures bits { BitsRight rec.new }
    ensures shows { shown rec.new ≡ shown rec.old }
{
    let joins = rec.heaped.is_none() && rec.needs_heap();
    if joins {
        heap.add(rec);
    }
    joins
}
