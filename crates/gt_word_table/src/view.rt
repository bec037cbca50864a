//! What the seats know. No value of these types is made: they are for contracts.

use std::collections::LinkedList;

/// What a seat knows.
pub enum View {
    /// The seats that are still to be made.
    Rest(Rest),
    Worker(Worker),
    Heap(Heap),
}

/// Of so many heaps the first `made` have their seats.
pub struct Rest {
    pub heaps: u64,
    pub made: u64,
}

/// What a worker knows.
pub struct Worker {
    /// Its standing note.
    pub note: Option<Note>,
    /// Of each heap, the count that it loaded last.
    pub counts: LinkedList<Load>,
    /// Of each heap, the modified word that it loaded last.
    pub mods: LinkedList<Load>,
    /// Of each heap, the heap word that it loaded last.
    pub heaps: LinkedList<Load>,
}

/// What a load of a word gave, and how many loads of it there were.
pub struct Load {
    pub word: u64,
    pub loads: u64,
}

/// A due time that was noted.
pub struct Note {
    /// At which heap.
    pub heap: u32,
    /// The due time.
    pub when: u64,
    /// The count of that heap as it was loaded last before.
    pub count: u64,
    /// The modified word was found above it since.
    pub passed: bool,
    /// And then the heap word was found above it too, so that the count has risen.
    pub behind: bool,
}

/// What a heap's seat knows.
pub struct Heap {
    pub heap: u32,
    pub phase: Phase,
    /// Its heap word and its count, which no other seat changes.
    pub word: u64,
    pub count: u64,
}

/// How far a heap is looked through.
pub enum Phase {
    /// Not at all.
    Free,
    /// The modified word was loaded.
    Seen(u64),
    /// And the heap word was lowered to it.
    Low(u64),
    /// And then the modified word was cleared, unless it has changed.
    Cleared,
    /// And the count was raised.
    Bumped,
}
