//! The tokens of a text: its words, each with the number of its line and its place.
#![tactic(auto)]

mod scan;
mod token;

pub use scan::tokens;
pub use token::{ScanFault, Token};
