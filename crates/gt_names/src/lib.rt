//! The names that the lines of a script declare, whatever else is wrong with those lines.
#![tactic(auto)]

mod name;
mod names;

pub use name::is_free_name;
pub use names::{Declared, NameTable, read_names};
