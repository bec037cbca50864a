//! The state of the one-thread machine in tables whose memory is taken once: clocks, goroutines, timers, channels, mutexes, WaitGroups, contexts and hooks, found by their places, and how far
//! the run is. Each entry does to the tables what it does to the state.
#![tactic(auto)]

mod changes;
mod contexts;
mod lookups;
mod machine;
mod places;

pub use lookups::{capacity, expiry_end, is_chan, is_ctx, mutex_of, what_at};
pub use machine::Machine;
