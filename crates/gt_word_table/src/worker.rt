//! The calls of a worker.

ghost use Rattle.std.specs.Prelude.{◌≡◌, ◌⊎◌, ◌+◌, ◌<◌, ◌≤◌, ℕ, Some, min, IsTrue};
ghost use Rattle.gt_word_table.specs.declared.view.Note.{Note};
ghost use Rattle.gt_word_table.specs.Views.{load_at, with_count, with_mod, with_heap, with_note, AnswersNote};

use crate::table::{CountLoads, HeapLoads, ModLoads, Notes, TableWords};
use crate::view::View;
use atomic_table::Seat;
use std::marker::Model;

/// The right of one worker to load the words and to note due times. It is seen as which table it is of and what the worker
/// knows.
#[derive(Drop)]
pub struct WorkerSeat {
    pub(crate) seat: Seat<(), View>,
}

impl Model for WorkerSeat {
    ghost use Rattle.std.specs.Prelude.{◌≡◌, []};
    ghost use Rattle.gt_word_table.specs.declared.view.View.TheVariants.{Worker};
    ghost use Rattle.gt_word_table.specs.Shown.{ShownWorker, worker_of};
    ghost use Rattle.gt_word_table.specs.Views.{IsSized};

    ghost Value = { ShownWorker };

    ghost view = { λ w. record { table = w.seat.table_id; view = worker_of w.seat.me.0 } };

    ghost invariant = { λ w. (w.seat.me ≡ (Worker (worker_of w.seat.me.0), []))
        × IsSized w.seat.table_id.words (worker_of w.seat.me.0) };
}

impl WorkerSeat {
    /// Notes the due time `when` at heap `q`. It is the worker's standing note from then on.
    pub fn note(&mut self, t: &TableWords, q: u32, when: u64)
        requires table { self.old.table ≡ t.now.table }
        requires heap { q < t.now.heaps }
        ensures table { self.new.table ≡ self.old.table }
        ensures view { self.new.view ≡ with_note self.old.view q when }
    {
        t.words
            .shared
            .fetch_min::<Notes>(&mut self.seat, 3 * q as usize, when);
    }

    /// Loads the count of heap `q`.
    pub fn load_count(&mut self, t: &TableWords, q: u32) -> u64
        requires table { self.old.table ≡ t.now.table }
        requires heap { q < t.now.heaps }
        ensures table { self.new.table ≡ self.old.table }
        ensures view { self.new.view ≡ with_count self.old.view q result }
        ensures kept { load_at self.new.view.counts q
            ≡ record { word = result; loads = (load_at self.old.view.counts q).loads + 1 } }
        // A note that both words were above was taken up: the count has risen.
        ensures behind { (note : Note) → self.old.view.note ≡ Some note → note.heap ≡ q → IsTrue note.behind
            → note.count < result }
    {
        t.words
            .shared
            .load::<CountLoads>(&mut self.seat, 3 * q as usize + 2)
    }

    /// Loads the modified word of heap `q`.
    pub fn load_mod(&mut self, t: &TableWords, q: u32) -> u64
        requires table { self.old.table ≡ t.now.table }
        requires heap { q < t.now.heaps }
        ensures table { self.new.table ≡ self.old.table }
        ensures view { self.new.view ≡ with_mod self.old.view q result }
        ensures kept { load_at self.new.view.mods q
            ≡ record { word = result; loads = (load_at self.old.view.mods q).loads + 1 } }
    {
        t.words
            .shared
            .load::<ModLoads>(&mut self.seat, 3 * q as usize)
    }

    /// Loads the heap word of heap `q`.
    pub fn load_heap(&mut self, t: &TableWords, q: u32) -> u64
        requires table { self.old.table ≡ t.now.table }
        requires heap { q < t.now.heaps }
        ensures table { self.new.table ≡ self.old.table }
        ensures view { self.new.view ≡ with_heap self.old.view q result }
        ensures kept { load_at self.new.view.heaps q
            ≡ record { word = result; loads = (load_at self.old.view.heaps q).loads + 1 } }
    {
        t.words
            .shared
            .load::<HeapLoads>(&mut self.seat, 3 * q as usize + 1)
    }
}

/// When a heap is to be looked through, as a worker found it.
#[derive(Clone, Copy, Debug, PartialEq, Eq)]
pub struct Wake {
    /// The least of its modified and its heap word.
    pub at: u64,
    /// Its count, loaded after these.
    pub count: u64,
}

/// Loads the modified word, the heap word and the count of heap `q`, in this order. Where the worker's standing note is at
/// this heap, its due time is not below `at`, or the heap was looked through since.
pub fn wake_seen(seat: &mut WorkerSeat, t: &TableWords, q: u32) -> Wake
    requires table { seat.old.table ≡ t.now.table }
    requires heap { q < t.now.heaps }
    ensures noted { (note : Note) → seat.old.view.note ≡ Some note → note.heap ≡ q → AnswersNote result note }

    // Each word was loaded once more in this call, and what was found is answered.
    ensures least { result.at ≡ min (load_at seat.new.view.mods q).word (load_at seat.new.view.heaps q).word }
    ensures count { result.count ≡ (load_at seat.new.view.counts q).word }
    ensures mods { (load_at seat.new.view.mods q).loads ≡ (load_at seat.old.view.mods q).loads + 1 }
    ensures heaps { (load_at seat.new.view.heaps q).loads ≡ (load_at seat.old.view.heaps q).loads + 1 }
    ensures counts { (load_at seat.new.view.counts q).loads ≡ (load_at seat.old.view.counts q).loads + 1 }
    ensures table { seat.new.table ≡ seat.old.table }
{
    let modified = seat.load_mod(t, q);
    let heap = seat.load_heap(t, q);
    let count = seat.load_count(t, q);
    Wake {
        at: modified.min(heap),
        count,
    }
}
