//! The words of heaps, shared by threads, under a rule that keeps each note in sight: whoever noted a due time finds it in
//! the words, or finds that the heap was looked through since.
#![tactic(auto)]

mod heap;
mod open;
mod table;
mod view;
mod worker;

pub use heap::HeapSeat;
pub use open::open_words;
pub use table::TableWords;
pub use view::{Load, Note, Phase, Worker};
pub use worker::{Wake, WorkerSeat, wake_seen};
