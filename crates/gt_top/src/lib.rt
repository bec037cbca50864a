//! The top call: the words of a command line and the bytes of a script in, the trace of a complete history out.
#![tactic(auto)]

mod call;
mod status;
mod words;

pub use call::{INPUT_LIMIT, calm};
pub use status::Status;
pub use words::{DEFAULT_LIMIT, WordFault};
