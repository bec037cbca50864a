//! Why a text is no schedule.

ghost use Rattle.std.specs.Prelude.{◌≡◌};
ghost use Rattle.gt_sched.specs.declared.fault.SchedFault.TheVariants.{NoMemory};

use std::alloc::AllocError;
use thiserror::Error;

/// Why a text is no schedule. Bytes are counted from 0.
#[derive(Clone, Copy, Debug, PartialEq, Eq, Error)]
pub enum SchedFault {
    /// The item that starts at the byte `at` is neither a number nor a number, an `x` and a number.
    #[error("schedule byte {at}: item")]
    Item { at: usize },
    /// The item that starts at the byte `at` names no worker.
    #[error("schedule byte {at}: worker")]
    Worker { at: usize },
    /// There are more than 1,000,000 turns.
    #[error("schedule: long")]
    Long,
    /// Memory ran out.
    #[error("no memory")]
    NoMemory,
}

impl From<AllocError> for SchedFault {
    ghost from_gives = { λ _ fault. fault ≡ NoMemory };

    fn from(_: AllocError) -> SchedFault {
        SchedFault::NoMemory
    }
}
