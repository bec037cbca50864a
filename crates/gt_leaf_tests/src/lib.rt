//! Tests of the lowest crates: that memory is given where there is plenty, rows that were worked out by hand, and what no
//! clause says.
#![tactic(auto)]

#[cfg(test)]
mod chan;
#[cfg(test)]
mod ctx;
#[cfg(test)]
mod heap;
#[cfg(test)]
mod lazy;
#[cfg(test)]
mod queue;
#[cfg(test)]
mod rec;
#[cfg(test)]
mod room;
#[cfg(test)]
mod scan;
#[cfg(test)]
mod sched;
#[cfg(test)]
mod select;
#[cfg(test)]
mod sync;
#[cfg(test)]
mod tie;
#[cfg(test)]
mod word_table;
#[cfg(test)]
mod words;
