//! A run on one worker: the book, and the records and the heap that serve its times.

use gt_book::Book;
use gt_lazy::Lazy;
use gt_rec::TimerRec;
use gt_room::Room;

/// A run between two whole calls.
#[derive(Drop)]
pub struct Runner {
    /// The book of the run.
    pub book: Book,
    /// The heap of its records.
    pub heap: Lazy,
    /// By number: the record of each declaration, and behind them that of the sleep of each goroutine that has slept.
    pub records: Room<TimerRec>,
    /// The least due time that a record was given below its key since the heap was last passed over, in nanoseconds.
    pub noted: Option<u64>,
}
