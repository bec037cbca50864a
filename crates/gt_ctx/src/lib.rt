//! The tree of contexts: deadlines, cancellations with their first error and cause, and the hooks that start at an end (Go
//! 1.23, package context).
//!
//! The number of a name is its place among the declarations of a script.
#![tactic(auto)]

mod ctxs;
mod cut;
mod decl;
mod ends;
mod lists;

pub use ctxs::Ctxs;
pub use decl::CtxDecl;
pub use ends::{After, Cut, Made};
