//! Scripts, trace entries and limits: the types that every layer speaks of, and in specs/ the one-thread timer machine.
#![tactic(auto)]

mod context;
mod entry;
mod lists;
mod script;
mod state;
mod time;

pub use context::{CauseVal, Context, End, ErrVal, Form, HookState};
pub use entry::{Entry, Limits, MOST_ENTRIES, Outcome, Party, Reason, Verdict};
pub use lists::{Cases, Code, Decls, Funcs, Text};
pub use script::{Case, CaseKind, Decl, Func, Instr, Place, Script, What};
pub use state::{Ending, Goroutine, Mode, SyncState, Timer};
pub use time::{CAP, due_after};

/// Memory ran out.
#[derive(Clone, Copy, Debug, PartialEq, Eq)]
pub struct NoMemory;
