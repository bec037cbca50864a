//! The sections that run the head of a heap, that let a goroutine fall asleep, and that set and drop the deadline of a context. Each changes a timer's
//! record, the caller's heap and the book together, as one step.
#![tactic(auto)]

mod deadline;
mod head;
mod sleep;

pub use deadline::{sec_deadline, sec_drop_deadline};
pub use head::{head_rec, sec_run_head};
pub use sleep::sec_sleep;
