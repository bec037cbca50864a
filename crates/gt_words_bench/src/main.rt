//! The program `gt_words_bench`: opens the words of heaps or the ties of records and makes calls of one kind on them, so that the instructions of a call can be counted.
//!
//! Its standard input is one line, `note COUNT` or `agree COUNT`. It prints how many notes were answered, or how many times the book and a record agreed.
#![tactic(auto)]

mod fault;
mod task;
mod ties;
mod words;
mod work;

use fault::{Fault, exit_status};
use std::io;
use std::process::ExitCode;
use task::read_task;
use work::answers;

fn main(rt: HostRuntime) -> ExitCode {
    match run(&rt) {
        Ok(()) => ExitCode::SUCCESS,
        Err(fault) => ExitCode::from(exit_status(fault)),
    }
}

fn run(rt: &HostRuntime) -> Result<(), Fault> {
    let line = read_line(rt)?;
    let Some((calls, count)) = line.as_str().trim_end().split_once(' ') else {
        return Err(Fault::Input);
    };
    let Some(task) = read_task(calls, count) else {
        return Err(Fault::Input);
    };
    let answers = answers(rt.alloc(), task)?;
    print_answers(rt, answers)
}

fn read_line(rt: &HostRuntime) -> Result<String, Fault> {
    let mut line = String::new(rt.alloc());
    match rt.read_line(&mut line) {
        Ok(_) => Ok(line),
        Err(error) if error.kind() == io::ErrorKind::OutOfMemory => Err(Fault::NoMemory),
        Err(_) => Err(Fault::Read),
    }
}

fn print_answers(rt: &HostRuntime, answers: u32) -> Result<(), Fault> {
    match println!(rt; "{answers}") {
        Ok(()) => Ok(()),
        Err(_) => Err(Fault::Write),
    }
}
