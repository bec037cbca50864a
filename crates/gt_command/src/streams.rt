//! The command over its streams.

ghost use Rattle.std.specs.Prelude.{◌≡◌, [], IfSome, IfErr, map, string_bytes};
ghost use Rattle.gt_top.specs.Call.{call_of, sink_state};
ghost use Rattle.gt_command.specs.Answered.{Commands, Reports};
ghost use Rattle.gt_command.specs.Ends.{exit_of};

use crate::calls::answer;
use crate::end::{End, exit_status};
use crate::fault::{fault_line, fault_text};
use gt_io::{BufferedSink, NoMemory, Sink, Source, StdSink, StdSource, write_all};
use gt_top::{Status, WordFault};
use std::alloc::Global;
use std::env::Env;
use std::io::Write;
use std::{env, io};

/// The whole command: does what the words ask for, writes the line of a refusal to `errors`, and answers the exit status.
pub fn command<S: Source, K: Sink, E: Sink>(
    alloc: Global,
    words: &[String],
    source: &mut S,
    sink: &mut BufferedSink<K>,
    errors: &mut E,
) -> u8
    requires nothing_kept { sink.old.kept ≡ [] }
    requires unwritten { IfSome (K.written sink.old.sink) (λ bytes. bytes ≡ []) }
    ensures { Commands (map string_bytes words.now)
        (call_of S.left S.faults S.given K.written K.faults source.old source.new sink.old.sink sink.new.sink)
        (sink_state E.written E.faults errors.old) (sink_state E.written E.faults errors.new) result }
{
    let end = answer(alloc, words, source, sink);
    finish(errors, &end)
}

/// Writes the line of an end, if it has one, and answers its exit status. A line that cannot be written is let go: the status tells.
pub fn finish<E: Sink>(errors: &mut E, end: &End) -> u8
    ensures status { result ≡ exit_of end.now }
    ensures told { Reports end.now (sink_state E.written E.faults errors.old) (sink_state E.written E.faults errors.new) }
{
    report(errors, end);
    exit_status(end)
}

fn report<E: Sink>(errors: &mut E, end: &End)
    ensures { Reports end.now (sink_state E.written E.faults errors.old) (sink_state E.written E.faults errors.new) }
{
    if let Some(line) = fault_line(end) {
        let _ = write_all(errors, fault_text(line).as_slice());
    }
}

/// The command over the standard streams: its exit status.
pub fn run<R: Alloc<A = Global> + Env + Input + Print, W: Write + Drop>(rt: &R, stderr: W) -> u8
    ensures { (end : End) × (result ≡ exit_of end) }
{
    let mut errors = StdSink::new(stderr);
    let words = match read_arguments(rt) {
        Ok(words) => words,
        Err(status) => return finish(&mut errors, &End::Called(status)),
    };
    match BufferedSink::new(rt.alloc(), StdSink::new(io::writer(rt))) {
        Ok(mut sink) => {
            let mut source = StdSource::new(rt.reader());
            command(
                rt.alloc(),
                words.as_slice(),
                &mut source,
                &mut sink,
                &mut errors,
            )
        }
        Err(NoMemory) => finish(&mut errors, &End::Called(Status::NoMemory)),
    }
}

// The words after the program's name, or the status of words that cannot be had.
fn read_arguments<R: Alloc<A = Global> + Env>(rt: &R) -> Result<Vec<String>, Status> {
    let mut words = Vec::new(rt.alloc());
    let arguments = match env::args(rt) {
        Ok(arguments) => arguments,
        Err(error) if error.kind() == io::ErrorKind::OutOfMemory => return Err(Status::NoMemory),
        Err(_) => return Err(Status::Usage(WordFault::Form)),
    };
    for word in arguments.skip(1) {
        if words.push(word).is_err() {
            return Err(Status::NoMemory);
        }
    }
    Ok(words)
}
