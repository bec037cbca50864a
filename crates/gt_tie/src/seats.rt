//! The steps of the seats.

ghost use Rattle.std.specs.Prelude.{◌≡◌, ◌+◌, ◌*◌, ◌<◌, [], None, Some, slice_set};
ghost use Rattle.gt_tie.specs.Views.{rec_view, rec_of, book_of, heap_of, joined, without_rec, only_rec, with_book, with_heap, IsOurs};
ghost use Rattle.gt_tie.specs.Steps.{BookAgrees, HeapAgrees, due_put, period_put, key_put, rec_due, rec_period, rec_heap, rec_key, rec_placed, key_placed};

use crate::table::{DueStores, HeapStores, KeyStores, Looks, Nobody, PeriodStores, Record};
use crate::ties::Ties;
use crate::view::View;
use atomic_table::Seat;
use std::mem;

/// Takes a record's part in; its seat is left with nothing.
pub(crate) fn bring(t: &Ties, side: &mut Seat<(), View>, rec: &mut Seat<(), View>)
    requires side_table { side.old.table_id ≡ t.now.table }
    requires rec_table { rec.old.table_id ≡ t.now.table }
    requires side { (side.old.me.1 ≡ []) × (side.old.me.0.rec ≡ None) }
    requires rec { rec.old.me ≡ (rec_view rec.old.me.0.heaps (rec_of rec.old.me.0), []) }
    ensures side_table { side.new.table_id ≡ t.now.table }
    ensures both { side.new.me ≡ (joined side.old.me.0 rec.old.me.0, []) }
{
    let spare = t.table.shared.split_seat::<Nobody>(side);
    let seat = mem::replace(rec, spare);
    t.table.shared.join_seat::<Record>(side, seat);
}

/// Gives the record's part back.
pub(crate) fn part(t: &Ties, side: &mut Seat<(), View>, rec: &mut Seat<(), View>)
    requires side_table { side.old.table_id ≡ t.now.table }
    requires side { (side.old.me.1 ≡ []) × (side.old.me.0.rec ≡ Some (rec_of side.old.me.0)) }
    ensures side_table { side.new.table_id ≡ t.now.table }
    ensures rec_table { rec.new.table_id ≡ t.now.table }
    ensures side { side.new.me ≡ (without_rec side.old.me.0, []) }
    ensures rec { rec.new.me ≡ (only_rec side.old.me.0, []) }
{
    *rec = t.table.shared.split_seat::<Record>(side);
}

/// Tells that the parts of a seat agree.
pub(crate) fn look(t: &Ties, side: &mut Seat<(), View>)
    requires { side.old.table_id ≡ t.now.table }
    ensures table { side.new.table_id ≡ t.now.table }
    ensures same { side.new.me ≡ side.old.me }
    ensures book { BookAgrees side.old.me.0 }
    ensures heap { HeapAgrees side.old.me.0 }
{
    t.table.shared.load::<Looks>(side, 0);
}

/// Stores a due time's word.
pub(crate) fn store_due(t: &Ties, side: &mut Seat<(), View>, number: u32, x: u64)
    requires table { side.old.table_id ≡ t.now.table }
    requires number { (number ≡ (rec_of side.old.me.0).number) × (4 * number + 3 < side.old.table_id.words) }
    requires side { side.old.me ≡ (with_book side.old.me.0.heaps (book_of side.old.me.0) (rec_of side.old.me.0), []) }
    ensures table { side.new.table_id ≡ t.now.table }
    ensures side { side.new.me ≡ (
      with_book side.old.me.0.heaps
          (due_put number x (book_of side.old.me.0))
          (rec_due x (rec_of side.old.me.0)),
      [],
    ) }
{
    t.table
        .shared
        .store::<DueStores>(side, 4 * number as usize, x);
}

/// Stores a period.
pub(crate) fn store_period(t: &Ties, side: &mut Seat<(), View>, number: u32, x: u64)
    requires table { side.old.table_id ≡ t.now.table }
    requires number { (number ≡ (rec_of side.old.me.0).number) × (4 * number + 3 < side.old.table_id.words) }
    requires side { side.old.me ≡ (with_book side.old.me.0.heaps (book_of side.old.me.0) (rec_of side.old.me.0), []) }
    ensures table { side.new.table_id ≡ t.now.table }
    ensures side { side.new.me ≡ (
      with_book side.old.me.0.heaps
          (period_put number x (book_of side.old.me.0))
          (rec_period x (rec_of side.old.me.0)),
      [],
    ) }
{
    t.table
        .shared
        .store::<PeriodStores>(side, 4 * number as usize + 1, x);
}

/// Stores a heap's word.
pub(crate) fn store_heap(t: &Ties, side: &mut Seat<(), View>, number: u32, x: u64)
    requires table { side.old.table_id ≡ t.now.table }
    requires number { (number ≡ (rec_of side.old.me.0).number) × (4 * number + 3 < side.old.table_id.words) }
    requires side { side.old.me ≡ (with_heap side.old.me.0.heaps (heap_of side.old.me.0) (rec_of side.old.me.0), []) }
    requires ours { IsOurs (heap_of side.old.me.0).number (rec_of side.old.me.0).heap }
    requires new { IsOurs (heap_of side.old.me.0).number x }
    ensures table { side.new.table_id ≡ t.now.table }
    ensures side { side.new.me ≡ (
      with_heap side.old.me.0.heaps
          (key_put number x (rec_of side.old.me.0).key (heap_of side.old.me.0))
          (rec_heap x (rec_of side.old.me.0)),
      [],
    ) }
{
    t.table
        .shared
        .store::<HeapStores>(side, 4 * number as usize + 2, x);
}

/// Stores a key.
pub(crate) fn store_key(t: &Ties, side: &mut Seat<(), View>, number: u32, x: u64)
    requires table { side.old.table_id ≡ t.now.table }
    requires number { (number ≡ (rec_of side.old.me.0).number) × (4 * number + 3 < side.old.table_id.words) }
    requires side { side.old.me ≡ (with_heap side.old.me.0.heaps (heap_of side.old.me.0) (rec_of side.old.me.0), []) }
    requires ours { IsOurs (heap_of side.old.me.0).number (rec_of side.old.me.0).heap }
    ensures table { side.new.table_id ≡ t.now.table }
    ensures side { side.new.me ≡ (
      with_heap side.old.me.0.heaps
          (key_put number (rec_of side.old.me.0).heap x (heap_of side.old.me.0))
          (rec_key x (rec_of side.old.me.0)),
      [],
    ) }
{
    t.table
        .shared
        .store::<KeyStores>(side, 4 * number as usize + 3, x);
}
