//! What the words ask for, with what is written passed on whole.

ghost use Rattle.std.specs.Prelude.{◌≡◌, ◌≤◌, [], IfSome, OnOk, OnErr, length, map, string_bytes};
ghost use Rattle.gt_io.specs.Bytes.{Appended};
ghost use Rattle.gt_top.specs.Answer.{Answers, IsAccepted, IsDoneOrNoMemory};
ghost use Rattle.gt_top.specs.Call.{call_of, sink_state};
ghost use Rattle.gt_command.specs.Answered.{IsEndOf, Tells, WritesPrefix};

use crate::end::End;
use crate::help::{Info, asked_info, info_text};
use gt_io::{BufferedSink, Failed, Sink, Source, write_all};
use gt_top::{Status, calm};
use std::alloc::Global;

/// Does what the words ask for: tells the usage or the version, or makes the top call. What is written goes on in large pieces, and all of
/// it before an end that is no write fault: the end speaks of what the sink below has.
pub fn answer<S: Source, K: Sink>(
    alloc: Global,
    words: &[String],
    source: &mut S,
    sink: &mut BufferedSink<K>,
) -> End
    requires nothing_kept { sink.old.kept ≡ [] }
    requires unwritten { IfSome (K.written sink.old.sink) (λ bytes. bytes ≡ []) }
    ensures { IsEndOf (map string_bytes words.now)
        (call_of S.left S.faults S.given K.written K.faults source.old source.new sink.old.sink sink.new.sink) result }
{
    match asked_info(words) {
        Some(info) => tell(info, sink),
        None => End::Called(call(alloc, words, source, sink)),
    }
}

/// Makes the top call, and passes on what it wrote.
pub fn call<S: Source, K: Sink>(
    alloc: Global,
    words: &[String],
    source: &mut S,
    sink: &mut BufferedSink<K>,
) -> Status
    requires nothing_kept { sink.old.kept ≡ [] }
    requires unwritten { IfSome (K.written sink.old.sink) (λ bytes. bytes ≡ []) }
    ensures answer { Answers (map string_bytes words.now)
        (call_of S.left S.faults S.given K.written K.faults source.old source.new sink.old.sink sink.new.sink) result }
    ensures complete { IsAccepted (map string_bytes words.now)
        (call_of S.left S.faults S.given K.written K.faults source.old source.new sink.old.sink sink.new.sink)
        → IsDoneOrNoMemory result }
{
    match calm(alloc, words, source, sink) {
        Status::Done(outcome) => match sink.flush() {
            Ok(()) => Status::Done(outcome),
            Err(Failed) => Status::WriteFault,
        },
        status => status,
    }
}

// Tells the usage or the version.
fn tell<K: Sink>(info: Info, sink: &mut BufferedSink<K>) -> End
    requires nothing_kept { sink.old.kept ≡ [] }
    requires unwritten { IfSome (K.written sink.old.sink) (λ bytes. bytes ≡ []) }
    ensures { Tells info (sink_state K.written K.faults sink.old.sink) (sink_state K.written K.faults sink.new.sink) result }
{
    match write_through(sink, info_text(info).as_bytes()) {
        Ok(()) => End::Told,
        Err(Failed) => End::Called(Status::WriteFault),
    }
}

// Writes the bytes, and passes them on.
fn write_through<K: Sink>(sink: &mut BufferedSink<K>, bytes: &[u8]) -> Result<(), Failed>
    requires nothing_kept { sink.old.kept ≡ [] }
    requires unwritten { IfSome (K.written sink.old.sink) (λ xs. xs ≡ []) }
    ensures ok { OnOk result (Appended (K.written sink.old.sink) (K.written sink.new.sink) bytes.now) }
    ensures failed { OnErr result
        (WritesPrefix (sink_state K.written K.faults sink.old.sink) (sink_state K.written K.faults sink.new.sink) bytes.now) }
{
    write_all(sink, bytes)?;
    sink.flush()
}
