// Writes entries to a sink, each as its line.
ghost use Rattle.std.specs.Prelude.{ℕ, ◌≤◌, List, length, take, OnOk, OnErr};
ghost use Rattle.gt_io.specs.Bytes.{Appended};
ghost use Rattle.gt_io.specs.Counts.{Rose};
ghost use Rattle.gt_model.specs.Good.{IsGood};
ghost use Rattle.gt_model.specs.Named.{IsNamed, AllNamed};
ghost use Rattle.gt_trace.specs.Text.{line_of, text};

use crate::entries::fill_line;
use arrayvec::ArrayVec;
use gt_io::{Failed, Sink, write_all};
use gt_model::{Entry, Script};

/// Writes the line of an entry, with its line feed. It takes no memory, and a bounded number of steps, however long the
/// script is.
///
/// # Errors
/// `Failed` where a write to the sink failed in this call. A front of the line may be written then.
pub fn write_line<K: Sink>(sink: &mut K, script: &Script, entry: &Entry) -> Result<(), Failed>
    requires good { IsGood script.now }
    requires named { IsNamed script.now entry.now }
    ensures ok { OnOk result
        (Appended (K.written sink.old) (K.written sink.new) (line_of script.now entry.now)) }
    ensures failed { OnErr result (Rose (K.faults sink.old) (K.faults sink.new)) }
    ensures front { let line = line_of script.now entry.now in OnErr result
        ((k : ℕ) × (k ≤ length line) × Appended (K.written sink.old) (K.written sink.new) (take k line)) }
    ensures faults_never_fall { K.faults sink.old ≤ K.faults sink.new }
{
    let mut line = ArrayVec::new();
    fill_line(&mut line, script, entry);
    write_all(sink, line.as_slice())
}

/// Writes the text of a history: the line of each entry, in order. It takes no memory.
///
/// # Errors
/// `Failed` where a write to the sink failed in this call. A front of the text may be written then.
pub fn write_trace<K: Sink>(sink: &mut K, script: &Script, entries: &[Entry]) -> Result<(), Failed>
    requires good { IsGood script.now }
    requires named { AllNamed script.now entries.now }
    ensures ok { OnOk result
        (Appended (K.written sink.old) (K.written sink.new) (text script.now entries.now)) }
    ensures failed { OnErr result (Rose (K.faults sink.old) (K.faults sink.new)) }
    ensures front { let whole = text script.now entries.now in OnErr result
        ((k : ℕ) × (k ≤ length whole) × Appended (K.written sink.old) (K.written sink.new) (take k whole)) }
    ensures faults_never_fall { K.faults sink.old ≤ K.faults sink.new }
{
    for entry in entries {
        write_line(sink, script, entry)?;
    }
    Ok(())
}
