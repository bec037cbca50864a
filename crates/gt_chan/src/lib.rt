//! Channels of goroutines that a caller runs one at a time: what comes of each send, receive and close, and who waits.
//!
//! A channel keeps its items, in memory that was taken when it was declared, and the numbers of two lists of a
//! `gt_select::Waiters`: its senders wait in one and its receivers in the next. So a goroutine can wait at several channels,
//! and leave them all at once.
//!
//! A caller that finds out by itself who meets at a channel changes the channel alone, by `Chan::put`, `Chan::take` and
//! `Chan::close`, and needs no lists.
#![tactic(auto)]

mod chan;
mod steps;

pub use chan::Chan;
pub use steps::{CloseStep, RecvStep, SendStep};
