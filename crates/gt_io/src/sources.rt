// What gives bytes.
ghost use Rattle.std.specs.Prelude.{◌≡◌, ℕ, ◌+◌, ◌<◌, ◌≤◌, ◌↔◌, List, [], length, take, Option, Some, None, IfOk, IfSome, OnErr};
ghost use Rattle.gt_io.specs.Counts.{Rose, RoseBy};
ghost use Rattle.gt_io.specs.Bytes.{Taken};

use crate::{Failed, TRIES};
use std::io::{ErrorKind, Read};
use std::marker::Model;

/// What gives bytes, a piece for each call.
pub trait Source {
    // The bytes that are left to be given, where the source tells them.
    ghost left: { Self → Option (List ℕ) };

    // How many faults there were.
    ghost faults: { Self → ℕ };

    // How many bytes were given.
    ghost given: { Self → ℕ };

    /// Reads into the buffer from its beginning, and answers how many bytes it read. An answer of 0, for a
    /// buffer that is not empty, is the end.
    fn read(&mut self, into: &mut [u8]) -> Result<usize, Failed>
        ensures within { IfOk result (λ n. n ≤ length into.new) }
        ensures counted { IfOk result (λ n. RoseBy n (given self.old) (given self.new)) }
        ensures taken { IfOk result (λ n. Taken (left self.old) (left self.new) (take n into.new)) }
        ensures end { IfOk result (λ n. 0 < length into.new →
            IfSome (left self.old) (λ bytes. (n ≡ 0) ↔ (bytes ≡ []))) }

        // It fails only by a fault in this call, and has then given nothing.
        ensures failed { OnErr result (Rose (faults self.old) (faults self.new)) }
        ensures kept { OnErr result ((left self.new ≡ left self.old) × (given self.new ≡ given self.old)) }

        ensures faults_never_fall { faults self.old ≤ faults self.new };
}

/// A source of bytes in memory. A read of it never fails.
#[derive(Drop)]
pub struct SureSource {
    bytes: Vec<u8>,
    at: usize,
    given: u64,
}

impl Model for SureSource {
    ghost use Rattle.std.specs.Prelude.{◌≤◌, drop, vec_len};
    ghost use Rattle.gt_io.specs.Sure.{Supply};

    ghost Value = { Supply };

    ghost view = { λ s. record { rest = drop s.at s.bytes.items; count = s.given } };

    ghost invariant = { λ s. s.at ≤ vec_len s.bytes };
}

impl SureSource {
    /// A source that gives these bytes. It takes no memory.
    pub fn of(bytes: Vec<u8>) -> SureSource
        ensures bytes { result.rest ≡ bytes.items }
        ensures none_given { result.count ≡ 0 }
    {
        SureSource {
            bytes,
            at: 0,
            given: 0,
        }
    }
}

impl Source for SureSource {
    ghost left = { λ s. Some s.rest };

    ghost faults = { λ _. 0 };

    ghost given = { λ s. s.count };

    fn read(&mut self, into: &mut [u8]) -> Result<usize, Failed> {
        let count = into.len().min(self.bytes.len() - self.at);
        let piece = &self.bytes.as_slice()[self.at..self.at + count];
        into[..count].copy_from_slice(piece);
        self.at += count;
        self.given = self.given.saturating_add(count as u64);
        Ok(count)
    }
}

/// A reader, as standard input is one, as a source. It tells nothing of its bytes. A read that a signal
/// interrupts is tried again, and is a fault after 64 tries.
#[derive(Drop)]
pub struct StdSource<R> {
    reader: R,
    faults: u64,
    given: u64,
}

impl<R: Read> StdSource<R> {
    /// The source over this reader, as `rt.reader()`. Each read of it is one read of the reader.
    pub fn new(reader: R) -> StdSource<R>
        ensures no_faults { ⟦<StdSource<R> as Source>⟧.faults result ≡ 0 }
        ensures none_given { ⟦<StdSource<R> as Source>⟧.given result ≡ 0 }
    {
        StdSource {
            reader,
            faults: 0,
            given: 0,
        }
    }
}

impl<R: Read> Source for StdSource<R> {
    ghost left = { λ _. None };

    ghost faults = { λ s. s.faults };

    ghost given = { λ s. s.given };

    fn read(&mut self, into: &mut [u8]) -> Result<usize, Failed> {
        match read_uninterrupted(&mut self.reader, into) {
            Some(n) => {
                self.given = self.given.saturating_add(n as u64);
                Ok(n)
            }
            None => {
                self.faults = self.faults.saturating_add(1);
                Err(Failed)
            }
        }
    }
}

// One read, tried again where a signal interrupted it, or nothing where it failed.
fn read_uninterrupted<R: Read>(reader: &mut R, into: &mut [u8]) -> Option<usize>
    ensures { IfSome result (λ n. n ≤ length into.new) }
{
    for _ in 0..TRIES {
        match reader.read(into) {
            Ok(n) => return Some(n),
            Err(e) if e.kind() == ErrorKind::Interrupted => {}
            Err(_) => return None,
        }
    }
    None
}
