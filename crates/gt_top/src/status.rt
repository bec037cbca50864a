//! How a call of the program ends.

use crate::words::WordFault;
use gt_model::Outcome;
use gt_script::ScriptFault;

/// How a call of the program ends.
#[derive(Clone, Copy, Debug, PartialEq, Eq)]
pub enum Status {
    /// The script ran, and its trace was written. The run had this outcome.
    Done(Outcome),
    /// The words are no command line.
    Usage(WordFault),
    /// The input is no script.
    BadScript(ScriptFault),
    /// The input has more bytes than this limit.
    TooLong { limit: u64 },
    /// A read failed.
    ReadFault,
    /// A write failed.
    WriteFault,
    /// Memory ran out, before anything was written.
    NoMemory,
}
