//! A worker's notes.

ghost use Rattle.std.specs.Prelude.{◌≡◌, ◌⊎◌, ◌+◌, ◌<◌, ◌≤◌};
ghost use Rattle.gt_word_table.specs.Views.{load_at};

use gt_word_table::{TableWords, Wake, WorkerSeat, wake_seen};

// The heap at which due times are noted.
const HEAP: u32 = 1;

// Notes a due time, and finds when the heap is to be looked through.
fn note(words: &TableWords, worker: &mut WorkerSeat, due: u64) -> Wake
    requires heaps { 1 < words.now.heaps }
    requires table { worker.old.table ≡ words.now.table }
    ensures answer { (result.at ≤ due) ⊎ ((load_at worker.old.view.counts 1).word < result.count) }
    ensures count { result.count ≡ (load_at worker.new.view.counts 1).word }
    ensures mods { (load_at worker.new.view.mods 1).loads ≡ (load_at worker.old.view.mods 1).loads + 1 }
    ensures heap_words { (load_at worker.new.view.heaps 1).loads ≡ (load_at worker.old.view.heaps 1).loads + 1 }
    ensures counts { (load_at worker.new.view.counts 1).loads ≡ (load_at worker.old.view.counts 1).loads + 1 }
    ensures table { worker.new.table ≡ worker.old.table }
{
    worker.note(words, HEAP, due);
    wake_seen(worker, words, HEAP)
}

/// Notes so many due times at heap 1, each below the one before, and looks after each of them when the heap is to be looked
/// through. Returns how many of the notes were answered, by such a time that is not above it or by a count that has risen:
/// all.
pub fn answered_notes(words: &TableWords, worker: &mut WorkerSeat, count: u32) -> u32
    requires heaps { 1 < words.now.heaps }
    requires table { worker.old.table ≡ words.now.table }
    ensures answered { result ≡ count }
    // Each word of the heap was loaded so often, the count once more.
    ensures mods { (load_at worker.new.view.mods 1).loads ≡ (load_at worker.old.view.mods 1).loads + count }
    ensures heap_words { (load_at worker.new.view.heaps 1).loads ≡ (load_at worker.old.view.heaps 1).loads + count }
    ensures counts { (load_at worker.new.view.counts 1).loads ≡ (load_at worker.old.view.counts 1).loads + (count + 1) }
{
    let mut answered = 0;
    let mut known = worker.load_count(words, HEAP);
    for call in 0..count {
        let due = u64::from(count - call);
        let wake = note(words, worker, due);
        if wake.at <= due || known < wake.count {
            answered += 1;
        }
        known = wake.count;
    }
    answered
}
