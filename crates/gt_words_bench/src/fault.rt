//! Why the program counted nothing.

ghost use Rattle.std.specs.Prelude.{◌≡◌};
ghost use Rattle.gt_words_bench.specs.Exit.{exit_of};

use std::alloc::AllocError;

/// Why nothing was counted.
#[derive(Clone, Copy)]
pub enum Fault {
    /// The line means no task.
    Input,
    /// No memory was left.
    NoMemory,
    /// The line was not read.
    Read,
    /// The count was not printed.
    Write,
}

impl From<AllocError> for Fault {
    ghost use Rattle.gt_words_bench.specs.declared.fault.Fault.TheVariants.{NoMemory};

    ghost from_gives = { λ _ e. e ≡ NoMemory };

    fn from(_: AllocError) -> Fault {
        Fault::NoMemory
    }
}

/// The exit status of a fault.
pub fn exit_status(fault: Fault) -> u8
    ensures { result ≡ exit_of fault }
{
    match fault {
        Fault::Input => 65,
        Fault::NoMemory => 71,
        Fault::Read => 73,
        Fault::Write => 74,
    }
}
