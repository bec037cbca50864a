//! How the command ends, and its exit status.

ghost use Rattle.std.specs.Prelude.{◌≡◌};
ghost use Rattle.gt_command.specs.Ends.{exit_of};

use gt_model::Outcome;
use gt_top::Status;

/// How the command ends.
#[derive(Clone, Copy, Debug, PartialEq, Eq)]
pub enum End {
    /// What was asked for, the usage or the version, was printed.
    Told,
    /// The top call was made, or could not be made, with this status.
    Called(Status),
}

/// The exit status of the program: 0 and small numbers for runs, by their outcome; for refusals those of BSD's sysexits.
pub fn exit_status(end: &End) -> u8
    ensures { result ≡ exit_of end.now }
{
    match end {
        End::Told | End::Called(Status::Done(Outcome::Exit)) => 0,
        End::Called(Status::Done(Outcome::Deadlock)) => 2,
        End::Called(Status::Done(Outcome::Panic)) => 3,
        End::Called(Status::Done(Outcome::Limit)) => 4,
        End::Called(Status::Usage(_)) => 64,
        End::Called(Status::BadScript(_)) => 65,
        End::Called(Status::TooLong { .. }) => 66,
        End::Called(Status::NoMemory) => 71,
        End::Called(Status::ReadFault) => 73,
        End::Called(Status::WriteFault) => 74,
    }
}
