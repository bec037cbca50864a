//! The lines of a text, the words of a line, and the numbers that words spell.
#![tactic(auto)]

mod lines;
mod number;

pub use lines::{Line, first_word, is_text, next_line};
pub use number::read_number;
