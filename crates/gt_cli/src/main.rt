//! The program `gotime`: runs scripts of goroutines on Go's timer system, and prints what happened.
#![tactic(auto)]

use std::process::ExitCode;

fn main(rt: HostRuntime) -> ExitCode {
    ExitCode::from(gt_command::run(&rt, rt.stderr()))
}
