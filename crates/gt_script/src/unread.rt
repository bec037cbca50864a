//! Why no script was read.

use gt_grammar::{ScriptFault, Why};

/// Why no script was read.
#[derive(Clone, Copy, Debug, PartialEq, Eq)]
pub enum Unread {
    /// The text spells no script.
    Refused { fault: ScriptFault },
    /// Memory ran out.
    NoMemory,
}

impl Unread {
    ghost use Rattle.std.specs.Prelude.{◌≡◌};

    /// A refusal by this cause on this line.
    pub(crate) fn refused(line: u32, why: Why) -> Unread
        ensures { result ≡ Unread.Refused (record { line = line; why = why }) }
    {
        Unread::Refused {
            fault: ScriptFault { line, why },
        }
    }
}
