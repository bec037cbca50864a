//! The program `gotime` once more, run by the gate on a script that is refused: it prints no trace and exits with 65.
#![tactic(auto)]

use std::process::ExitCode;

fn main(rt: HostRuntime) -> ExitCode {
    ExitCode::from(gt_command::run(&rt, rt.stderr()))
}
