//! Ties between values that lie behind different locks: what a timer's record, the book and a heap say of the record's due
//! time and of its place agrees whenever two of them are brought together.
#![tactic(auto)]

mod open;
mod places;
mod seats;
mod settings;
mod table;
mod ties;
mod view;

pub use open::{OpenTies, open_ties};
pub use places::{agree_place, set_place};
pub use settings::{agree, set_due};
pub use ties::{BookTie, HeapTie, RecTie, Ties};
pub use view::{Place, Setting};
