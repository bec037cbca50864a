//! What the sections answer.

use gt_model::{Outcome, Party};

/// What setting a timer, or falling asleep, came to. Times are in nanoseconds.
#[derive(Clone, Copy)]
pub enum SetDone {
    /// No heap has to be told.
    Done,
    /// The record joined the caller's heap under this due time.
    Lower(u64),
    /// The heap that has the record has it under a later due time than this one.
    Note {
        /// The heap's number.
        heap: u32,
        /// The due time.
        when: u64,
    },
    /// The run has this outcome.
    Over(Outcome),
}

/// What stopping a timer came to.
#[derive(Clone, Copy)]
pub enum StopDone {
    /// It was entered, and the run goes on.
    Done,
    /// The run has this outcome.
    Over(Outcome),
}

/// What became of a choice with a default, one of whose cases receives from a timer.
#[derive(Clone, Copy)]
pub enum PollDone {
    /// It received the timer's value.
    Received,
    /// Another case was chosen, or the default.
    Other,
    /// The run has this outcome.
    Over(Outcome),
}

/// What became of a goroutine that is to be counted among those that wait at a timer.
#[derive(Clone, Copy)]
pub enum BlockDone {
    /// It is counted.
    Blocked {
        /// The due time under which the record joined the caller's heap, where it did.
        lower: Option<u64>,
    },
    /// It received the timer's value.
    Received,
    /// It waits no more.
    Gone,
    /// The run has this outcome.
    Over(Outcome),
}

/// What became of a value that was sent.
#[derive(Clone, Copy)]
pub enum Delivered {
    /// This party received it.
    Given(Party),
    /// It stands ready.
    Kept,
    /// Its setting has ended, or an earlier value stands ready.
    Dropped,
    /// The run has this outcome.
    Over(Outcome),
}

/// What became of the head of a heap. Times are in nanoseconds.
#[derive(Clone, Copy)]
pub enum HeadDone {
    /// It is not due before this time.
    Later(u64),
    /// Its heap had yet to learn of a change, and has learned of it.
    Stale,
    /// A tick came due while an earlier one had not been received.
    Dropped,
    /// Its entry was made.
    Fired,
    /// The send of its value has begun, under this number.
    Send {
        /// The number of the setting.
        seq: u64,
    },
    /// It came too late.
    Gone,
    /// The run has this outcome.
    Over(Outcome),
}
