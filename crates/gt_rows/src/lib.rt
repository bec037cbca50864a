//! What the sections do that change a timer's record, its heap and the book together, as definitions, and what they answer.
#![tactic(auto)]

mod answers;
mod arming;

pub use answers::{BlockDone, Delivered, HeadDone, PollDone, SetDone, StopDone};
pub use arming::arm;
