//! Prints a history: a line of text for each entry.
#![tactic(auto)]

mod channels;
mod contexts;
mod entries;
mod line;
mod names;
mod print;
mod syncs;
mod timers;

pub use print::{write_line, write_trace};
