//! Who waits where: goroutines that stand in up to seventeen lists at once, and the tickets by which each of them goes on
//! only once.
//!
//! A goroutine that will wait is given a ticket, and then stands in lists, as a party for each case of its select. Whoever
//! lets it go on wins its ticket: that takes it out of all lists, and no other can win the ticket again. The first 2^64
//! tickets have turns of their own; later ones would share the greatest turn. All memory is taken once, and touched as far as
//! many goroutines wait at one time.
#![tactic(auto)]

mod nodes;
mod table;
mod waiters;

pub use nodes::Ticket;
pub use waiters::Waiters;
