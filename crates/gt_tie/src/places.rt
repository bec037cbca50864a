//! What a heap and a record say of the record's place.

ghost use Rattle.std.specs.Prelude.{◌≡◌, ◌+◌, ◌*◌, ◌<◌, [], Some, slice_get, slice_set};
ghost use Rattle.std.specs.Option.{ForSome, option_map};
ghost use Rattle.gt_tie.specs.Views.{rec_of, heap_of, with_heap, IsOurs, key_under, place_in};
ghost use Rattle.gt_tie.specs.Steps.{rec_placed, key_placed};

use crate::seats::{bring, look, part, store_heap, store_key};
use crate::ties::{HeapTie, RecTie, Ties};
use crate::view::View;
use atomic_table::Seat;

// Stores the words of a record's place in this heap, or of none.
fn store_place(t: &Ties, side: &mut Seat<(), View>, number: u32, heap: u32, key: Option<u64>)
    requires table { side.old.table_id ≡ t.now.table }
    requires number { (number ≡ (rec_of side.old.me.0).number) × (4 * number + 3 < side.old.table_id.words) }
    requires heap { heap ≡ (heap_of side.old.me.0).number }
    requires side { side.old.me ≡ (with_heap side.old.me.0.heaps (heap_of side.old.me.0) (rec_of side.old.me.0), []) }
    requires ours { IsOurs (heap_of side.old.me.0).number (rec_of side.old.me.0).heap }
    ensures table { side.new.table_id ≡ t.now.table }
    ensures side { side.new.me ≡ (
      with_heap side.old.me.0.heaps
          (key_placed number key (heap_of side.old.me.0))
          (rec_placed heap key (rec_of side.old.me.0)),
      [],
    ) }
{
    match key {
        None => store_heap(t, side, number, 0),
        Some(key) => {
            store_key(t, side, number, key);
            store_heap(t, side, number, u64::from(heap) + 1);
        }
    }
}

/// Changes nothing, and tells that a heap has a record under a key exactly where the record's place is in that heap under
/// that key. All are of one table.
pub fn agree_place(t: &Ties, heap: &mut HeapTie, rec: &mut RecTie)
    requires heap_table { heap.old.table ≡ t.now.table }
    requires rec_table { rec.old.table ≡ t.now.table }
    ensures heap { heap.new ≡ heap.old }
    ensures rec { rec.new ≡ rec.old }
    ensures agrees { slice_get heap.old.keys rec.old.number ≡ Some (key_under heap.old.number rec.old.place) }
{
    bring(t, &mut heap.seat, &mut rec.seat);
    look(t, &mut heap.seat);
    part(t, &mut heap.seat, &mut rec.seat);
}

/// Puts a record that is in this heap or in none into this heap under a key, or into none. All are of one table.
pub fn set_place(t: &Ties, heap: &mut HeapTie, rec: &mut RecTie, key: Option<u64>)
    requires heap_table { heap.old.table ≡ t.now.table }
    requires rec_table { rec.old.table ≡ t.now.table }
    requires here { ForSome rec.old.place (λ place. place.heap ≡ heap.old.number) }
    ensures heap { heap.new ≡ record heap.old { keys = slice_set heap.old.keys rec.old.number key } }
    ensures rec { rec.new ≡ record rec.old { place = option_map (place_in heap.old.number) key } }
{
    bring(t, &mut heap.seat, &mut rec.seat);
    store_place(t, &mut heap.seat, rec.number, heap.number, key);
    part(t, &mut heap.seat, &mut rec.seat);
}
