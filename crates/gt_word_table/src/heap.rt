//! The calls of a heap.

ghost use Rattle.std.specs.Prelude.{◌≡◌, ◌≢◌, ◌+◌, ◌-◌, ◌^◌, ◌<◌, ◌↔◌, min, IsTrue, MatchBool};
ghost use Rattle.gt_word_table.specs.declared.view.Phase.TheVariants.{Free, Seen, Low, Cleared, Bumped};
ghost use Rattle.gt_word_table.specs.Views.{lowered};

use crate::table::{Bumps, Clears, Looks, Lowers, Raises, TableWords};
use crate::view::View;
use atomic_table::Seat;
use gt_words::NONE;
use std::marker::Model;

/// The right of one heap to change its words. It is seen as which table it is of, the heap's number, how far the heap is
/// looked through, its heap word and its count, which no other seat changes.
#[derive(Drop)]
pub struct HeapSeat {
    pub(crate) seat: Seat<(), View>,
    pub(crate) heap: u32,
    pub(crate) count: u64,
}

impl Model for HeapSeat {
    ghost use Rattle.std.specs.Prelude.{◌≡◌, ◌+◌, ◌*◌, ◌<◌, []};
    ghost use Rattle.gt_word_table.specs.declared.view.View.TheVariants.{Heap};
    ghost use Rattle.gt_word_table.specs.Shown.{ShownHeap, heap_of};

    ghost Value = { ShownHeap };

    ghost view = { λ h. record {
      table = h.seat.table_id;
      heap = h.heap;
      phase = (heap_of h.seat.me.0).phase;
      word = (heap_of h.seat.me.0).word;
      count = h.count;
    } };

    ghost invariant = { λ h. (3 * h.heap + 2 < h.seat.table_id.words)
        × (h.seat.me ≡ (Heap (record { heap = h.heap; phase = (heap_of h.seat.me.0).phase; word = (heap_of h.seat.me.0).word; count = h.count }), [])) };
}

impl HeapSeat {
    /// Loads the modified word: what the heap will take over.
    pub fn load_mod(&mut self, t: &TableWords) -> u64
        requires { self.old.table ≡ t.now.table }
        ensures { self.new ≡ record self.old { phase = Seen result } }
    {
        t.words
            .shared
            .load::<Looks>(&mut self.seat, 3 * self.heap as usize)
    }

    /// Makes the heap word the least of itself and `v`.
    pub fn lower(&mut self, t: &TableWords, v: u64)
        requires { self.old.table ≡ t.now.table }
        ensures { self.new ≡ record self.old { phase = lowered self.old.phase v; word = min self.old.word v } }
    {
        t.words
            .shared
            .fetch_min::<Lowers>(&mut self.seat, 3 * self.heap as usize + 1, v);
    }

    /// Makes the modified word [`NONE`] where it is still what was seen and taken over.
    pub fn try_clear(&mut self, t: &TableWords, seen: u64)
        requires table { self.old.table ≡ t.now.table }
        requires low { self.old.phase ≡ Low seen }
        ensures { self.new ≡ record self.old { phase = Cleared } }
    {
        t.words
            .shared
            .compare_exchange::<Clears>(&mut self.seat, 3 * self.heap as usize, seen, NONE);
    }

    /// Raises the count by one, which tells that the heap was looked through. At the greatest `u64` nothing changes; the
    /// answer is then false, and the heap word is not to be raised.
    pub fn bump(&mut self, t: &TableWords) -> bool
        requires table { self.old.table ≡ t.now.table }
        requires cleared { self.old.phase ≡ Cleared }
        ensures done { IsTrue result ↔ (self.old.count ≢ 2 ^ 64 - 1) }
        ensures seat { MatchBool result
            (self.new ≡ record self.old { phase = Bumped; count = self.old.count + 1 })
            (self.new ≡ self.old) }
    {
        if self.count == u64::MAX {
            return false;
        }
        t.words
            .shared
            .fetch_add::<Bumps>(&mut self.seat, 3 * self.heap as usize + 2, 1);
        self.count += 1;
        true
    }

    /// Sets the heap word: the heap is looked through.
    pub fn raise(&mut self, t: &TableWords, v: u64)
        requires table { self.old.table ≡ t.now.table }
        requires bumped { self.old.phase ≡ Bumped }
        ensures { self.new ≡ record self.old { phase = Free; word = v } }
    {
        t.words
            .shared
            .store::<Raises>(&mut self.seat, 3 * self.heap as usize + 1, v);
    }
}
