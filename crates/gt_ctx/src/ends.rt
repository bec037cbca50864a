//! What the calls answer.

use gt_model::{CauseVal, ErrVal};

/// A context that was made just now.
#[derive(Clone, Copy, Debug, PartialEq, Eq)]
pub enum Made {
    /// It has no error; its own deadline, in nanoseconds, where it has one.
    Live { own: Option<u64> },
    /// It has ended at once.
    Ended { err: ErrVal, cause: CauseVal },
}

/// What a cancellation or an expiry did.
#[derive(Clone, Copy, Debug, PartialEq, Eq)]
pub struct Cut {
    /// Whether the context had no error before.
    pub newly: bool,
    /// How many hooks it started.
    pub starts: u32,
}

/// What a hook does that was registered just now.
#[derive(Clone, Copy, Debug, PartialEq, Eq)]
pub enum After {
    /// It waits for its context's end.
    Waits,
    /// It starts at once.
    Starts,
}
