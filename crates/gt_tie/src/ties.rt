//! The table of the ties, and the sides of a tie.

use crate::table::{Law, Size};
use crate::view::View;
use atomic_table::{Seat, Table};
use std::alloc::Global;
use std::marker::Model;

/// What is told of each record. It is seen as which table it is and the numbers of records and of heaps.
#[derive(Drop)]
pub struct Ties {
    pub(crate) table: Table<(), View, Size, Law, Global>,
    pub(crate) records: usize,
    pub(crate) heaps: usize,
}

impl Model for Ties {
    ghost use Rattle.std.specs.Prelude.{◌≡◌, ◌*◌, ◌≤◌};
    ghost use Rattle.gt_tie.specs.Shown.{ShownTies};

    ghost Value = { ShownTies };

    ghost view = { λ t. record { table = t.table.shared.table_id; records = t.records; heaps = t.heaps } };

    ghost invariant = { λ t. (t.table.shared.key ≡ record { records = t.records; heaps = t.heaps })
        × (t.table.shared.table_id.words ≡ 4 * t.records) × (1 ≤ t.records) };
}

/// The book's side. It is seen as which table it is of and the list of the due time and the period of each record.
#[derive(Drop)]
pub struct BookTie {
    pub(crate) seat: Seat<(), View>,
}

impl Model for BookTie {
    ghost use Rattle.std.specs.Prelude.{◌≡◌, []};
    ghost use Rattle.gt_tie.specs.Shown.{ShownBook};
    ghost use Rattle.gt_tie.specs.Views.{book_view, book_of};

    ghost Value = { ShownBook };

    ghost view = { λ b. record { table = b.seat.table_id; settings = book_of b.seat.me.0 } };

    ghost invariant = { λ b. b.seat.me ≡ (book_view b.seat.me.0.heaps (book_of b.seat.me.0), []) };
}

/// One record's side. It is seen as which table it is of, the record's number, its due time, its period, and its place in
/// a heap.
#[derive(Drop)]
pub struct RecTie {
    pub(crate) seat: Seat<(), View>,
    pub(crate) number: u32,
}

impl Model for RecTie {
    ghost use Rattle.std.specs.Prelude.{◌≡◌, ◌+◌, ◌*◌, ◌<◌, []};
    ghost use Rattle.gt_tie.specs.Shown.{ShownRec};
    ghost use Rattle.gt_tie.specs.Views.{rec_view, rec_of, due_of, place_of};

    ghost Value = { ShownRec };

    ghost view = { λ r. record {
      table = r.seat.table_id;
      number = r.number;
      due = due_of (rec_of r.seat.me.0).due;
      period = (rec_of r.seat.me.0).period;
      place = place_of (rec_of r.seat.me.0).heap (rec_of r.seat.me.0).key;
    } };

    ghost invariant = { λ r. (r.seat.me ≡ (rec_view r.seat.me.0.heaps (rec_of r.seat.me.0), []))
        × (r.number ≡ (rec_of r.seat.me.0).number) × (4 * r.number + 3 < r.seat.table_id.words) };
}

/// One heap's side. It is seen as which table it is of, the heap's number, and for each record the key under which this
/// heap has it, or none.
#[derive(Drop)]
pub struct HeapTie {
    pub(crate) seat: Seat<(), View>,
    pub(crate) number: u32,
}

impl Model for HeapTie {
    ghost use Rattle.std.specs.Prelude.{◌≡◌, []};
    ghost use Rattle.gt_tie.specs.Shown.{ShownHeap};
    ghost use Rattle.gt_tie.specs.Views.{heap_view, heap_of};

    ghost Value = { ShownHeap };

    ghost view = { λ h. record {
      table = h.seat.table_id;
      number = h.number;
      keys = (heap_of h.seat.me.0).keys;
    } };

    ghost invariant = { λ h. (h.seat.me ≡ (heap_view h.seat.me.0.heaps (heap_of h.seat.me.0), []))
        × (h.number ≡ (heap_of h.seat.me.0).number) };
}
