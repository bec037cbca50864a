//! The table of the words that a line of a script may begin with.
#![tactic(auto)]

mod form;
mod table;

pub use form::{Arg, CtxForm, Form, Kind, Role, Step, Values};
pub use table::{Keyword, cancel_keyword, read_case, read_ctx, read_ctx_form, read_keyword};
