//! Queues of goroutines with fixed memory, first in first out.
//!
//! A member stands in at most one queue at a time. So one pair of links for each member, and one for each queue, is all
//! the memory that is ever needed: it is taken once, and then no call can fail, and each takes a few steps, however many
//! wait.
#![tactic(auto)]

mod links;
mod queues;

pub use queues::Queues;
