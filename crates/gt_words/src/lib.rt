//! The three words by which a heap is told of changes: a modified word, a heap word and a count.
#![tactic(auto)]

mod plain;
mod words;

pub use plain::PlainWords;
pub use words::{HeapWords, NONE, Words, wake};
