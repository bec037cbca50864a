//! The run of a script on one worker, one whole call at a time.
#![tactic(auto)]

mod begin;
mod calls;
mod run;
mod runner;
mod settling;

pub use run::run_script;
