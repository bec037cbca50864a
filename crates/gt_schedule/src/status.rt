//! Where a goroutine is, for the workers that run goroutines.

/// Where a goroutine is.
#[derive(Clone, Copy, Debug, PartialEq, Eq)]
pub enum RunStatus {
    /// It stands in the run queue.
    Queued,
    /// A worker has it in hand.
    InHand,
    /// It waits, at an operation or in its sleep.
    Parked {
        /// How many times a goroutine was parked before it was.
        since: u64,
    },
    /// Its function has ended.
    Ended,
}

/// A goroutine that is parked, as it is parked now. A later parking of the same goroutine has another ticket.
#[derive(Clone, Copy, Debug, PartialEq, Eq)]
pub struct Ticket {
    /// The goroutine's number.
    pub g: u32,
    /// How many times a goroutine was parked before it was.
    pub turn: u64,
}
