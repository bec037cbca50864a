//! The program `gt_heap_bench`: fills a heap and makes a thousand calls of one kind on it, so that the instructions of a call can be counted.
//!
//! `gt_heap_bench fill|push|pop|change 1000|200000` prints how many entries the heap has at the end.
#![tactic(auto)]

mod draws;
mod fault;
mod task;
mod work;

use fault::{Fault, exit_status};
use std::marker::Brand;
use std::process::ExitCode;
use std::sync::ledger::Blank;
use std::{env, io};
use task::read_task;
use work::final_length;

fn main(rt: HostRuntime) -> ExitCode {
    match run(&rt) {
        Ok(()) => ExitCode::SUCCESS,
        Err(fault) => ExitCode::from(exit_status(fault)),
    }
}

fn run(rt: &HostRuntime) -> Result<(), Fault> {
    let words = read_arguments(rt)?;
    let Some(task) = read_task(words.as_slice()) else {
        return Err(Fault::Usage);
    };
    let length = final_length::<Brand>(rt.alloc(), Blank::new(1), task)?;
    print_length(rt, length)
}

/// The words behind the program's name.
fn read_arguments(rt: &HostRuntime) -> Result<Vec<String>, Fault> {
    match try_read_arguments(rt) {
        Ok(words) => Ok(words),
        Err(error) if error.kind() == io::ErrorKind::OutOfMemory => Err(Fault::NoMemory),
        Err(_) => Err(Fault::Usage),
    }
}

fn try_read_arguments(rt: &HostRuntime) -> io::Result<Vec<String>> {
    let mut words = Vec::new(rt.alloc());
    for word in env::args(rt)?.skip(1) {
        words.push(word)?;
    }
    Ok(words)
}

fn print_length(rt: &HostRuntime, length: usize) -> Result<(), Fault> {
    match println!(rt; "{length}") {
        Ok(()) => Ok(()),
        Err(_) => Err(Fault::Write),
    }
}
