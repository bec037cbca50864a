//! The sections of timers with records: each changes a timer's record, the caller's heap and the book together, as one step.
#![tactic(auto)]

mod block;
mod deliver;
mod kinds;
mod poll;
mod receive;
mod set;
mod stop;
mod unblock;

pub use block::sec_block;
pub use deliver::sec_deliver;
pub use poll::sec_recv;
pub use set::sec_set;
pub use stop::sec_stop;
pub use unblock::sec_unblock;

/// The world of the program.
const PROGRAM: u32 = 0;
