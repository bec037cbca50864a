//! What the book and a record say of a due time.

ghost use Rattle.std.specs.Prelude.{◌≡◌, ◌+◌, ◌<◌, ◌≤◌, Some, slice_get, slice_set};
ghost use Rattle.std.specs.Option.{ForSome};
ghost use Rattle.gt_tie.specs.Views.{due_of};

use crate::seats::{bring, look, part, store_due, store_period};
use crate::ties::{BookTie, RecTie, Ties};

fn due_word(due: Option<u64>) -> u64
    requires { ForSome due (λ d. d ≤ 9223372036854775807) }
    ensures { due_of result ≡ due }
{
    match due {
        None => 0,
        Some(due) => due + 1,
    }
}

/// Changes nothing, and tells that the due time and the period that the book has for a record are the record's. All are of
/// one table.
pub fn agree(t: &Ties, book: &mut BookTie, rec: &mut RecTie)
    requires book_table { book.old.table ≡ t.now.table }
    requires rec_table { rec.old.table ≡ t.now.table }
    ensures book { book.new ≡ book.old }
    ensures rec { rec.new ≡ rec.old }
    ensures agrees { slice_get book.old.settings rec.old.number
        ≡ Some (record { due = rec.old.due; period = rec.old.period }) }
{
    bring(t, &mut book.seat, &mut rec.seat);
    look(t, &mut book.seat);
    part(t, &mut book.seat, &mut rec.seat);
}

/// Sets the due time, at most 2^63 - 1, or none, and the period of a record, in the book and in the record. All are of one
/// table.
pub fn set_due(t: &Ties, book: &mut BookTie, rec: &mut RecTie, due: Option<u64>, period: u64)
    requires book_table { book.old.table ≡ t.now.table }
    requires rec_table { rec.old.table ≡ t.now.table }
    requires due { ForSome due (λ d. d ≤ 9223372036854775807) }
    ensures book { book.new ≡ record book.old {
      settings = slice_set
          book.old.settings
          rec.old.number
          (record { due = due; period = period });
    } }
    ensures rec { rec.new ≡ record rec.old { due = due; period = period } }
{
    let word = due_word(due);
    bring(t, &mut book.seat, &mut rec.seat);
    store_due(t, &mut book.seat, rec.number, word);
    store_period(t, &mut book.seat, rec.number, period);
    part(t, &mut book.seat, &mut rec.seat);
}
