//! The book and a record.

ghost use Rattle.std.specs.Prelude.{◌≡◌, ◌<◌, Some, slice_get};

use gt_tie::{BookTie, RecTie, Ties, agree};

/// Brings the book and a record together so often, and returns how often they agreed: each time.
pub fn agreed_times(ties: &Ties, book: &mut BookTie, rec: &mut RecTie, count: u32) -> u32
    requires book_table { book.old.table ≡ ties.now.table }
    requires rec_table { rec.old.table ≡ ties.now.table }
    ensures count { result ≡ count }
    ensures book { book.new ≡ book.old }
    ensures rec { rec.new ≡ rec.old }
    ensures agrees { 0 < count → slice_get book.old.settings rec.old.number
        ≡ Some (record { due = rec.old.due; period = rec.old.period }) }
{
    let mut agreed = 0;
    for call in 0..count {
        agree(ties, book, rec);
        agreed += 1;
    }
    agreed
}
