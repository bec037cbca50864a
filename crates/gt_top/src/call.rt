//! The top call.

ghost use Rattle.std.specs.Prelude.{◌≡◌, ◌≤◌, ℕ, IfOk, IfErr, map, string_bytes};
ghost use Rattle.gt_model.specs.Good.{IsGood, AreLimits};
ghost use Rattle.gt_grammar.specs.Grammar.{Spells};
ghost use Rattle.gt_top.specs.Call.{call_of, source_state, sink_state, ReadsAll};
ghost use Rattle.gt_top.specs.Answer.{Answers, Simulates, IsAccepted, IsDoneOrNoMemory, ReadsNot, SpellsNot, Prints};

use crate::status::Status;
use crate::words::{Order, read_words};
use gt_io::{ReadError, Sink, Source, read_to_limit};
use gt_model::{Limits, Script};
use gt_runner::run_script;
use gt_script::{Unread, read_script};
use gt_trace::write_trace;
use std::alloc::Global;

/// The most bytes that an input may have: 64 MiB.
pub const INPUT_LIMIT: usize = 67_108_864;

/// Does what the words ask for: reads its input from the source, writes its output to the sink, and always returns.
///
/// What it writes for `sim` is the trace of one complete history of the script that it read.
pub fn calm<S: Source, K: Sink>(
    alloc: Global,
    words: &[String],
    source: &mut S,
    sink: &mut K,
) -> Status
    // The status says what was read and written.
    ensures answer { Answers (map string_bytes words.now)
        (call_of S.left S.faults S.given K.written K.faults source.old source.new sink.old sink.new) result }

    // Good input is answered, unless a read, a write or memory failed.
    ensures complete { IsAccepted (map string_bytes words.now)
        (call_of S.left S.faults S.given K.written K.faults source.old source.new sink.old sink.new)
        → IsDoneOrNoMemory result }

    ensures faults_never_fall { K.faults sink.old ≤ K.faults sink.new }
{
    match read_words(words) {
        Ok(Order::Sim { limit }) => simulate(alloc, Limits { entries: limit }, source, sink),
        Err(fault) => Status::Usage(fault),
    }
}

/// Reads a script, runs it within these limits, and writes its trace.
fn simulate<S: Source, K: Sink>(
    alloc: Global,
    limits: Limits,
    source: &mut S,
    sink: &mut K,
) -> Status
    requires { AreLimits limits }
    ensures answer { Simulates limits
        (call_of S.left S.faults S.given K.written K.faults source.old source.new sink.old sink.new) result }
    ensures faults_never_fall { K.faults sink.old ≤ K.faults sink.new }
{
    let bytes = match read_input(alloc, source) {
        Ok(bytes) => bytes,
        Err(status) => return status,
    };
    let script = match spelled_script(alloc, bytes) {
        Ok(script) => script,
        Err(status) => return status,
    };
    print_run(alloc, script, limits, sink)
}

/// All that the source has, or the status of a refusal.
fn read_input<S: Source>(alloc: Global, source: &mut S) -> Result<Vec<u8>, Status>
    ensures all { IfOk result (λ bytes. ReadsAll (source_state S.left S.faults S.given source.old)
        (source_state S.left S.faults S.given source.new) bytes.items) }
    ensures refused { IfErr result (ReadsNot (source_state S.left S.faults S.given source.old)
        (source_state S.left S.faults S.given source.new)) }
{
    match read_to_limit(alloc, source, INPUT_LIMIT) {
        Ok(bytes) => Ok(bytes),
        Err(ReadError::Failed) => Err(Status::ReadFault),
        Err(ReadError::TooLong) => Err(Status::TooLong {
            limit: INPUT_LIMIT as u64,
        }),
        Err(ReadError::NoMemory) => Err(Status::NoMemory),
    }
}

/// The script that the bytes spell, or the status of a refusal. The bytes are let go.
fn spelled_script(alloc: Global, bytes: Vec<u8>) -> Result<Script, Status>
    ensures spelled { IfOk result (λ script. Spells bytes.items script) }
    ensures good { IfOk result (λ script. IsGood script) }
    ensures refused { IfErr result (SpellsNot bytes.items) }
{
    match read_script(alloc, bytes.as_slice()) {
        Ok(script) => Ok(script),
        Err(Unread::Refused { fault }) => Err(Status::BadScript(fault)),
        Err(Unread::NoMemory) => Err(Status::NoMemory),
    }
}

/// Runs a script within these limits, and then writes the trace of its history.
fn print_run<K: Sink>(alloc: Global, script: Script, limits: Limits, sink: &mut K) -> Status
    requires good { IsGood script }
    requires limits { AreLimits limits }
    ensures prints { Prints script limits
        (sink_state K.written K.faults sink.old) (sink_state K.written K.faults sink.new) result }
    ensures faults_never_fall { K.faults sink.old ≤ K.faults sink.new }
{
    let Ok(book) = run_script(alloc, script, limits) else {
        return Status::NoMemory;
    };
    book.lawful();
    let outcome = book.outcome().unwrap();
    match write_trace(sink, book.script(), book.history()) {
        Ok(()) => Status::Done(outcome),
        Err(_) => Status::WriteFault,
    }
}
