//! Duration texts, such as `1h30m` or `250ms`.
#![tactic(auto)]

mod fault;
mod pairs;
mod read;

pub use fault::DurFault;
pub use read::read_dur;
