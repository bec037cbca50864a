//! The rules of the one-thread timer machine, in specs/: its state, which entry may come next, and the state after it. The code tells what an entry
//! changes.
#![tactic(auto)]

mod change;

pub use change::{
    Move, Setting, Start, Starts, SyncStep, Trade, TreeStep, broadcast_of, channel_of, clock_of,
    ending_of, mover_of, partner_of, starts_of, sync_of, timer_of, tree_of,
};
