//! WaitGroup, mutex and condition variable of goroutines that a caller runs one at a time: who must wait, and who goes on.
//!
//! An object keeps its state and the number of the queue in which its goroutines wait. All queues stand in one `Queues`, whose
//! memory is taken once; then no call takes memory, and each takes a few steps for each goroutine that it wakes. Those that wait
//! at an object are served first in, first out.
#![tactic(auto)]

mod cond;
mod moving;
mod mutex;
mod queues;
mod wait_group;

pub use cond::CondQ;
pub use mutex::{LockStep, Mu, UnlockStep};
pub use queues::Queues;
pub use wait_group::{AddStep, WaitStep, Wg};
