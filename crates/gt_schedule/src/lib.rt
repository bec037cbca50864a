//! Who runs, who is to run and who waits: the schedule of a run's goroutines.
#![tactic(auto)]

mod marks;
mod relocking;
mod scheduler;
mod status;

pub use scheduler::{Scheduler, most_goroutines, plainly};
pub use status::{RunStatus, Ticket};
