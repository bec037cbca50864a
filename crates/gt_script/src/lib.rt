//! The reader of the script language.
#![tactic(auto)]

mod cases;
mod command;
mod read;
mod reader;
mod unread;
mod value;

pub use gt_grammar::{ScriptFault, Why};
pub use read::read_script;
pub use unread::Unread;
