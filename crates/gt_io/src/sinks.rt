// What takes bytes.
ghost use Rattle.std.specs.Prelude.{◌≡◌, ℕ, ◌-◌, ◌<◌, ◌≤◌, List, [], ◌++◌, length, take, Option, Some, None, IfOk, IfSome, IfNone, OnErr, true, false};
ghost use Rattle.gt_io.specs.Counts.{Rose};
ghost use Rattle.gt_io.specs.Bytes.{Appended};
ghost use Rattle.gt_io.specs.Sure.{told};
ghost use Rattle.std.specs.Io.KnownBytes.{Appends, Keeps};

use crate::{Failed, NoMemory, TRIES};
use std::alloc::Global;
use std::io::{ErrorKind, Write};
use std::marker::Model;

/// What takes bytes, a piece for each call.
pub trait Sink {
    // The bytes that were written, where the sink tells them.
    ghost written: { Self → Option (List ℕ) };

    // How many faults there were.
    ghost faults: { Self → ℕ };

    /// Writes a prefix of the bytes, and answers how many of them it wrote.
    fn write(&mut self, bytes: &[u8]) -> Result<usize, Failed>
        ensures within { IfOk result (λ n. n ≤ length bytes.now) }
        ensures appended { IfOk result (λ n.
            Appended (written self.old) (written self.new) (take n bytes.now)) }
        ensures stuck { IfOk result (λ n. n ≡ 0 → 0 < length bytes.now →
            Rose (faults self.old) (faults self.new)) }

        // It fails only by a fault in this call, and has then written nothing.
        ensures failed { OnErr result (Rose (faults self.old) (faults self.new)) }
        ensures kept { OnErr result (written self.new ≡ written self.old) }

        ensures faults_never_fall { faults self.old ≤ faults self.new };
}

/// A sink in memory. A write to it never fails and takes the whole piece. A piece for which the room is
/// too small is taken and not kept, nor is any later one, and from then on the sink tells no bytes.
#[derive(Drop)]
pub struct SureSink {
    bytes: Vec<u8>,
    room: usize,
    is_whole: bool,
}

impl Model for SureSink {
    ghost use Rattle.std.specs.Prelude.{◌+◌, ◌≤◌, vec_len, vec_capacity};
    ghost use Rattle.gt_io.specs.Sure.{Store};

    ghost Value = { Store };

    ghost view = { λ s. record { kept = s.bytes.items; room = s.room; is_whole = s.is_whole } };

    ghost invariant = { λ s. vec_len s.bytes + s.room ≤ vec_capacity s.bytes };
}

impl SureSink {
    /// A sink that has room for n bytes. It takes their memory here, and a write takes none.
    pub fn with_room(alloc: Global, n: usize) -> Result<SureSink, NoMemory>
        ensures empty { IfOk result (λ sink. told sink ≡ Some []) }
        ensures room { IfOk result (λ sink. sink.room ≡ n) }
    {
        match Vec::with_capacity(alloc, n) {
            Ok(bytes) => Ok(SureSink {
                bytes,
                room: n,
                is_whole: true,
            }),
            Err(_) => Err(NoMemory),
        }
    }

    /// The bytes that the sink keeps.
    pub fn bytes(&self) -> &[u8]
        ensures { result.now ≡ self.now.kept }
    {
        self.bytes.as_slice()
    }
}

impl Sink for SureSink {
    ghost written = { told };

    ghost faults = { λ _. 0 };

    fn write(&mut self, bytes: &[u8]) -> Result<usize, Failed>
        ensures takes_all { result ≡ Ok (length bytes.now) }
        ensures fits { self.old.is_whole ≡ true → length bytes.now ≤ self.old.room →
            self.new ≡ record { kept = self.old.kept ++ bytes.now; room = self.old.room - length bytes.now; is_whole = true } }
        ensures overflows { self.old.room < length bytes.now →
            self.new ≡ record self.old { is_whole = false } }
        ensures overflowed { self.old.is_whole ≡ false → self.new ≡ self.old }
    {
        let fits = self.is_whole && bytes.len() <= self.room;
        if fits && self.bytes.extend_from_slice(bytes).is_ok() {
            self.room -= bytes.len();
        } else {
            self.is_whole = false;
        }
        Ok(bytes.len())
    }
}

/// A writer, as standard output is one, as a sink. It holds no bytes back and tells nothing of them: over it goes
/// [`BufferedSink`](crate::BufferedSink) where pieces are small. A write that a signal interrupts is tried again, and is a fault after 64 tries.
#[derive(Drop)]
pub struct StdSink<W> {
    writer: W,
    faults: u64,
}

impl<W> Model for StdSink<W> {
    ghost use Rattle.gt_io.specs.Tried.{Tried, tried_code};

    ghost Value = { Tried W };

    ghost coded = { tried_code W.code };

    ghost view = { λ s. record { writer = s.writer; faults = s.faults } };
}

impl<W: Write> StdSink<W> {
    /// The sink over this writer, as `io::writer(&rt)`. Each write to it is one write to the writer.
    pub fn new(writer: W) -> StdSink<W>
        ensures writer { result.writer ≡ writer }
        ensures no_faults { ⟦<StdSink<W> as Sink>⟧.faults result ≡ 0 }
        ensures tells_nothing { ⟦<StdSink<W> as Sink>⟧.written result ≡ None }
    {
        StdSink { writer, faults: 0 }
    }
}

impl<W: Write> Sink for StdSink<W> {
    ghost written = { λ _. None };

    ghost faults = { λ s. s.faults };

    fn write(&mut self, bytes: &[u8]) -> Result<usize, Failed>
        ensures within { IfOk result (λ n. n ≤ length bytes.now) }
        ensures stuck { IfOk result (λ n. n ≡ 0 → 0 < length bytes.now →
            Rose self.old.faults self.new.faults) }
        ensures failed { OnErr result (Rose self.old.faults self.new.faults) }
        ensures faults_never_fall { self.old.faults ≤ self.new.faults }

        // Only a write that took nothing is a fault.
        ensures no_fault { IfOk result (λ n. 0 < n → self.new.faults ≡ self.old.faults) }

        // Where the writer tells its bytes, it has what was taken, and nothing of it after a fault.
        ensures handed { IfOk result (λ n.
            Appends (W.contents self.old.writer) (W.contents self.new.writer) (take n bytes.now)) }
        ensures handed_nothing { OnErr result
            (Keeps (W.contents self.old.writer) (W.contents self.new.writer)) }
    {
        let count = write_uninterrupted(&mut self.writer, bytes);
        if let Some(n) = count
            && (n > 0 || bytes.is_empty())
        {
            return Ok(n);
        }
        self.faults = self.faults.saturating_add(1);
        count.ok_or(Failed)
    }
}

// One write, tried again where a signal interrupted it, or nothing where it failed.
fn write_uninterrupted<W: Write>(writer: &mut W, bytes: &[u8]) -> Option<usize>
    ensures within { IfSome result (λ n. n ≤ length bytes.now) }
    ensures handed { IfSome result (λ n.
        Appends (W.contents writer.old) (W.contents writer.new) (take n bytes.now)) }
    ensures handed_nothing { IfNone result (Keeps (W.contents writer.old) (W.contents writer.new)) }
{
    for _ in 0..TRIES {
        match writer.write(bytes) {
            Ok(n) => return Some(n),
            Err(e) if e.kind() == ErrorKind::Interrupted => {}
            Err(_) => return None,
        }
    }
    None
}
