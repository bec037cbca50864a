//! Sources and sinks of bytes, with meanings that contracts name: which bytes were read and written,
//! and that a call fails only where the count of faults of what it was handed rose.
#![tactic(auto)]

mod buffered;
mod sinks;
mod sources;
mod whole;

pub use buffered::BufferedSink;
pub use sinks::{Sink, StdSink, SureSink};
pub use sources::{Source, StdSource, SureSource};
pub use whole::{ReadError, read_to_limit, write_all};

/// A read or a write that failed.
#[derive(Clone, Copy, Debug, PartialEq, Eq)]
pub struct Failed;

/// There was no memory for what was to be made.
#[derive(Clone, Copy, Debug, PartialEq, Eq)]
pub struct NoMemory;

// How often a call that a signal interrupts is tried, before that is a fault.
const TRIES: u32 = 64;

#[cfg(test)]
mod tests;
