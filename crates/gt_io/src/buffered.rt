// A sink that passes bytes on in large pieces.
ghost use Rattle.std.specs.Prelude.{◌≡◌, ℕ, ◌+◌, ◌<◌, ◌≤◌, [], ◌++◌, length, take, drop, true, false, IfOk, OnErr, OnOk, Ok};
ghost use Rattle.gt_io.specs.Counts.{Rose};
ghost use Rattle.gt_io.specs.Bytes.{Appended};
ghost use Rattle.gt_io.specs.Buffer.{taken};

use crate::{Failed, NoMemory, Sink};
use std::alloc::Global;
use std::marker::Model;

// The most bytes that are kept back: 64 KiB.
const ROOM: usize = 65_536;

/// A sink that keeps up to 65,536 bytes back, and passes them on to the sink below when they are as many, or at a flush. What it
/// is handed when nothing more fits makes room first, by one write to the sink below. Its memory is taken once, when it is made.
///
/// It tells as written what it took: what the sink below has, and then what is kept back. Its faults are those of the sink below.
#[derive(Drop)]
pub struct BufferedSink<K> {
    sink: K,
    kept: Vec<u8>,
}

impl<K> Model for BufferedSink<K> {
    ghost use Rattle.std.specs.Prelude.{◌≤◌, vec_len, vec_capacity};
    ghost use Rattle.gt_io.specs.Buffer.{Buffer, buffer_code};

    ghost Value = { Buffer K };

    ghost coded = { buffer_code K.code };

    ghost view = { λ b. record { sink = b.sink; kept = b.kept.items } };

    ghost invariant = { λ b. (vec_len b.kept ≤ 65536) × (65536 ≤ vec_capacity b.kept) };
}

impl<K: Sink> BufferedSink<K> {
    /// A sink over this one, which keeps nothing back yet. It takes its memory here, and no later call takes any.
    pub fn new(alloc: Global, sink: K) -> Result<BufferedSink<K>, NoMemory>
    where
        K: Drop,
        ensures { IfOk result (λ b. b ≡ record { sink = sink; kept = [] }) }
    {
        match Vec::with_capacity(alloc, ROOM) {
            Ok(kept) => Ok(BufferedSink { sink, kept }),
            Err(_) => Err(NoMemory),
        }
    }

    /// The sink below.
    pub fn sink(&self) -> &K
        ensures { result.now ≡ self.now.sink }
    {
        &self.sink
    }

    /// Passes on all that is kept back.
    ///
    /// # Errors
    /// `Failed` where a write to the sink below failed in this call. It may have taken some of the bytes before; the rest is kept back still.
    pub fn flush(&mut self) -> Result<(), Failed>
        ensures nothing_kept { OnOk result (self.new.kept ≡ []) }
        ensures passed_on { OnOk result
            (Appended (K.written self.old.sink) (K.written self.new.sink) self.old.kept) }

        // It fails only by a fault in this call, and the bytes that were not passed on then are kept back still.
        ensures failed { OnErr result (Rose (K.faults self.old.sink) (K.faults self.new.sink)) }
        ensures rest { OnErr result ((k : ℕ) × (k ≤ length self.old.kept) × (self.new.kept ≡ drop k self.old.kept)
            × Appended (K.written self.old.sink) (K.written self.new.sink) (take k self.old.kept)) }

        ensures faults_never_fall { K.faults self.old.sink ≤ K.faults self.new.sink }
    {
        while !self.kept.is_empty() {
            if self.pass_on()? == 0 {
                return Err(Failed);
            }
        }
        Ok(())
    }

    // One write to the sink below of what is kept back, and how many bytes it took.
    fn pass_on(&mut self) -> Result<usize, Failed>
        ensures within { IfOk result (λ n. n ≤ length self.old.kept) }
        ensures rest { IfOk result (λ n. self.new.kept ≡ drop n self.old.kept) }
        ensures passed_on { IfOk result (λ n.
            Appended (K.written self.old.sink) (K.written self.new.sink) (take n self.old.kept)) }
        ensures stuck { IfOk result (λ n. n ≡ 0 → 0 < length self.old.kept →
            Rose (K.faults self.old.sink) (K.faults self.new.sink)) }
        ensures failed { OnErr result (Rose (K.faults self.old.sink) (K.faults self.new.sink)) }
        ensures kept { OnErr result
            ((K.written self.new.sink ≡ K.written self.old.sink) × (self.new.kept ≡ self.old.kept)) }
        ensures faults_never_fall { K.faults self.old.sink ≤ K.faults self.new.sink }
    {
        let count = self.sink.write(self.kept.as_slice())?;
        self.kept.as_mut_slice().rotate_left(count);
        self.kept.truncate(self.kept.len() - count);
        Ok(count)
    }

    // Passes some bytes on where no more can be kept back, and answers whether more can be now.
    fn make_room(&mut self) -> Result<bool, Failed>
        ensures room { IfOk result (λ has. has ≡ true → length self.new.kept < 65536) }
        ensures stuck { IfOk result (λ has. has ≡ false →
            Rose (K.faults self.old.sink) (K.faults self.new.sink)) }
        ensures took_nothing { OnOk result (Appended (taken K.written self.old) (taken K.written self.new) []) }
        ensures failed { OnErr result (Rose (K.faults self.old.sink) (K.faults self.new.sink)) }
        ensures kept { OnErr result (taken K.written self.new ≡ taken K.written self.old) }
        ensures faults_never_fall { K.faults self.old.sink ≤ K.faults self.new.sink }
        ensures unneeded { length self.old.kept < 65536 → (result ≡ Ok true) × (self.new ≡ self.old) }
    {
        Ok(self.kept.len() < ROOM || self.pass_on()? > 0)
    }
}

impl<K: Sink> Sink for BufferedSink<K> {
    ghost written = { λ b. taken K.written b };

    ghost faults = { λ b. K.faults b.sink };

    fn write(&mut self, bytes: &[u8]) -> Result<usize, Failed>
        ensures within { IfOk result (λ n. n ≤ length bytes.now) }
        ensures appended { IfOk result (λ n.
            Appended (taken K.written self.old) (taken K.written self.new) (take n bytes.now)) }
        ensures stuck { IfOk result (λ n. n ≡ 0 → 0 < length bytes.now →
            Rose (K.faults self.old.sink) (K.faults self.new.sink)) }
        ensures failed { OnErr result (Rose (K.faults self.old.sink) (K.faults self.new.sink)) }
        ensures kept { OnErr result (taken K.written self.new ≡ taken K.written self.old) }
        ensures faults_never_fall { K.faults self.old.sink ≤ K.faults self.new.sink }

        // What fits is kept back, and the sink below hears nothing of it.
        ensures fits { length self.old.kept < 65536 → length self.old.kept + length bytes.now ≤ 65536 →
            (result ≡ Ok (length bytes.now)) × (self.new ≡ record self.old { kept = self.old.kept ++ bytes.now }) }
    {
        if !self.make_room()? {
            return Ok(0);
        }
        let count = bytes.len().min(ROOM - self.kept.len());
        if self.kept.extend_from_slice(&bytes[..count]).is_err() {
            return Ok(0);
        }
        Ok(count)
    }
}
