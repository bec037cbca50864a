//! The script language, in specs/: what the lines of a text say, the first fault of a text, and the script that it spells. A text
//! without a fault spells a good script. In code, what is wrong with a statement behind so many others.
#![tactic(auto)]

mod fault;
mod progress;
mod statement;

pub use fault::{ScriptFault, Why};
pub use progress::{Held, OpenBlock, Progress};
pub use statement::Statement;
