//! The book: the state of goroutines, timers and clocks, together with the history that led to it.
#![tactic(auto)]

mod answers;
mod book;
mod broadcast;
mod channels;
mod choices;
mod counted;
mod cuts;
mod ended;
mod run;
mod step;

pub use answers::{Commit, Did, Op, Pick, TimerOp};
pub use book::Book;
pub use choices::timer_of;
