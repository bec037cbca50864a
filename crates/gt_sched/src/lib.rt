//! Schedules: which worker takes the next turn, as a text lists it or as a generator draws it.
#![tactic(auto)]

mod fault;
mod item;
mod schedule;

pub use fault::SchedFault;
pub use schedule::Schedule;
