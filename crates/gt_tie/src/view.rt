//! What the seats know. Only contracts use these types.

use std::collections::LinkedList;

/// What a seat knows: one or two of these parts, or none.
pub struct View {
    /// How many heaps there are.
    pub heaps: u64,
    /// What is still to be dealt.
    pub rest: Option<Rest>,
    /// The book's list: a setting for each record.
    pub book: Option<LinkedList<Setting>>,
    /// One heap with its list.
    pub heap: Option<HeapPart>,
    /// One record.
    pub rec: Option<RecPart>,
}

/// Of so many records, those from a number on and the heaps from a number on.
pub struct Rest {
    pub records: u64,
    pub from_record: u64,
    pub from_heap: u64,
}

/// When a record is due, and with which period.
pub struct Setting {
    pub due: Option<u64>,
    pub period: u64,
}

/// A heap's number, and for each record the key under which this heap has it.
pub struct HeapPart {
    pub number: u32,
    pub keys: LinkedList<Option<u64>>,
}

/// A record's number and its four words.
pub struct RecPart {
    pub number: u32,
    pub due: u64,
    pub period: u64,
    pub heap: u64,
    pub key: u64,
}

/// The heap that has a record, and the key under which it has it.
pub struct Place {
    pub heap: u32,
    pub key: u64,
}
