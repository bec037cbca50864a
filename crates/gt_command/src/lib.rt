//! The command `gotime` without its streams: what its words ask for, the line on standard error of each refusal, and the exit status.
#![tactic(auto)]

mod calls;
mod end;
mod fault;
mod help;
mod streams;

pub use calls::{answer, call};
pub use end::{End, exit_status};
pub use fault::{FaultLine, Line, fault_line, fault_text};
pub use help::{Info, asked_info, info_text};
pub use streams::{command, finish, run};
