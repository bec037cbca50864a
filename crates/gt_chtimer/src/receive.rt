//! Receiving a timer's value.

ghost use Rattle.std.specs.Prelude.{◌≡◌, IsTrue, None};
ghost use Rattle.gt_rules.specs.State as at;
ghost use Rattle.gt_rules.specs.Operations.{receives_from};
ghost use Rattle.gt_rec.specs.Rec.{has_channel};
ghost use Rattle.gt_rec.specs.Changes.{received};
ghost use Rattle.gt_book.specs.View.{is_parked_at, outcome_of};
ghost use Rattle.gt_rows.specs.Lent.{IsLentRec};
ghost use Rattle.gt_chtimer.specs.Receive.{ReceivesBy};

use crate::PROGRAM;
use gt_book::{Book, Commit, Op};
use gt_model::Party;
use gt_rec::TimerRec;

/// A party that is parked at a receive from this timer takes its value where that has come. None where it has not, and then nothing changes.
pub fn receive(rec: &mut TimerRec, book: &mut Book, p: Party) -> Option<Commit>
    requires running { outcome_of book.old ≡ None }
    requires lent { IsLentRec book.old rec.old }
    requires channel { IsTrue (has_channel rec.old.kind) }
    requires waits { IsTrue (is_parked_at book.old.script book.old.state book.old.schedule p (receives_from rec.old.id)) }
    ensures received { ReceivesBy rec.old book.old p rec.new book.new result (received rec.old (at.clock book.old.state 0)) }
    ensures kept { IsLentRec book.new rec.new }
{
    book.lawful();
    let (due, next) = rec.take_ready(book.clock_of(PROGRAM))?;
    Some(book.commit(Op::TRecv {
        p,
        t: rec.id,
        due,
        next,
    }))
}
