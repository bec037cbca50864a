//! What a goroutine of the machine does, and where.

use crate::entry::Outcome;
use crate::script::Place;

/// What a goroutine does.
#[derive(Clone, Copy, Debug, PartialEq, Eq)]
pub enum Mode {
    /// It stands at its instruction.
    At,
    /// It sleeps until a time, in nanoseconds.
    Sleeping { until: u64 },
    /// It waits at a Cond until it is signalled.
    Suspended { cond: u32 },
    /// It was signalled at a Cond, and waits for the mutex.
    Relocking { cond: u32 },
    /// Its function has ended.
    Ended,
}

/// A goroutine.
#[derive(Clone, Copy)]
pub struct Goroutine {
    /// The world whose clock it has; the program is world 0.
    pub world: u32,
    pub place: Place,
    pub mode: Mode,
}

/// A timer that was made.
#[derive(Clone, Copy)]
pub struct Timer {
    /// The world in which it was made, whose clock it has.
    pub world: u32,
    /// When it is due, in nanoseconds; none where it is not set.
    pub due: Option<u64>,
    /// The time between two ticks, in nanoseconds; 0 for a timer that is no ticker.
    pub period: u64,
}

/// What there is of a mutex, of a WaitGroup or of a Cond: the fields of the other kinds stay as they begin.
#[derive(Clone, Copy)]
pub struct SyncState {
    /// Whether a mutex is locked.
    pub locked: bool,
    /// The counter of a WaitGroup.
    pub counter: u64,
    /// The world of a WaitGroup's first `add`, or of a Cond's first `cwait`; none before it.
    pub world: Option<u32>,
}

/// How far a run is.
#[derive(Clone, Copy, Debug, PartialEq, Eq)]
pub enum Ending {
    Running,
    /// The function of goroutine 1 has ended.
    MainEnded,
    /// A goroutine has misused an object.
    Panicked,
    /// The run has ended with this outcome.
    Finished(Outcome),
}
