// Whole writes and whole reads.
ghost use Rattle.std.specs.Prelude.{◌≡◌, ℕ, ◌+◌, ◌^◌, ◌<◌, ◌≤◌, List, [], ◌++◌, length, take, Some, IfOk, IfSome, OnErr, OnOk, IsOk};
ghost use Rattle.gt_io.specs.Counts.{Rose, RoseBy};
ghost use Rattle.gt_io.specs.Bytes.{Appended, Taken};

use crate::{Failed, Sink, Source};
use std::alloc::{AllocError, Global};

/// Writes all of the bytes: the piece, and then the rest again where the sink took less.
pub fn write_all<K: Sink>(sink: &mut K, bytes: &[u8]) -> Result<(), Failed>
    ensures ok { OnOk result (Appended (K.written sink.old) (K.written sink.new) bytes.now) }
    ensures empty { length bytes.now ≡ 0 → IsOk result × (sink.new ≡ sink.old) }

    // It fails only by a fault in this call, and some prefix of the bytes may be written then.
    ensures failed { OnErr result (Rose (K.faults sink.old) (K.faults sink.new)) }
    ensures front { OnErr result ((k : ℕ) × (k ≤ length bytes.now)
        × Appended (K.written sink.old) (K.written sink.new) (take k bytes.now)) }

    ensures faults_never_fall { K.faults sink.old ≤ K.faults sink.new }
{
    let mut at = 0;
    while at < bytes.len() {
        let count = sink.write(&bytes[at..])?;
        if count == 0 {
            return Err(Failed);
        }
        at += count;
    }
    Ok(())
}

/// Why `read_to_limit` read no whole input.
#[derive(Clone, Copy, Debug, PartialEq, Eq)]
pub enum ReadError {
    /// A read failed.
    Failed,
    /// There are more bytes than the limit.
    TooLong,
    /// There was no memory for the bytes.
    NoMemory,
}

impl From<AllocError> for ReadError {
    ghost use Rattle.gt_io.specs.declared.whole.ReadError.TheVariants.{NoMemory};

    ghost from_gives = { λ _ e. e ≡ NoMemory };

    fn from(_: AllocError) -> ReadError {
        ReadError::NoMemory
    }
}

// The most bytes that one read asks for.
const PIECE: usize = 64 * 1024;

/// Reads to the end of the source, where that comes within `limit` bytes. It asks for no more than
/// `limit + 1` bytes in all. After an error the bytes that were read are gone.
pub fn read_to_limit<S: Source>(
    alloc: Global,
    source: &mut S,
    limit: usize,
) -> Result<Vec<u8>, ReadError>
    requires { limit + 1 < 2 ^ 63 }
    ensures within { IfOk result (λ v. length v.items ≤ limit) }
    ensures counted { IfOk result (λ v.
        RoseBy (length v.items) (S.given source.old) (S.given source.new)) }
    ensures whole { IfOk result (λ v.
        IfSome (S.left source.old) (λ bytes. (v.items ≡ bytes) × (S.left source.new ≡ Some []))) }

    // It reads one byte past the limit to answer that there are too many.
    ensures too_many { result ≡ Err ReadError.TooLong →
        RoseBy (limit + 1) (S.given source.old) (S.given source.new) }
    ensures too_long { result ≡ Err ReadError.TooLong →
        IfSome (S.left source.old) (λ bytes. limit < length bytes) }

    ensures failed { result ≡ Err ReadError.Failed →
        Rose (S.faults source.old) (S.faults source.new) }

    ensures faults_never_fall { S.faults source.old ≤ S.faults source.new }
    ensures given_never_falls { S.given source.old ≤ S.given source.new }
{
    let mut piece = vec![in alloc; 0; PIECE.min(limit + 1)]?;
    let mut read = Vec::new(alloc);
    while read.len() <= limit {
        let most = piece.len().min(limit + 1 - read.len());
        if read_more(source, &mut piece[..most], &mut read)? == 0 {
            return Ok(read);
        }
    }
    Err(ReadError::TooLong)
}

// Reads one piece, and appends it to the bytes that were read before it.
fn read_more<S: Source>(
    source: &mut S,
    piece: &mut [u8],
    read: &mut Vec<u8>,
) -> Result<usize, ReadError>
    requires { 0 < length piece.old }
    ensures within { IfOk result (λ n. n ≤ length piece.new) }
    ensures counted { IfOk result (λ n. RoseBy n (S.given source.old) (S.given source.new)) }
    ensures appended { IfOk result (λ n. read.new.items ≡ read.old.items ++ take n piece.new) }
    ensures taken { IfOk result (λ n.
        Taken (S.left source.old) (S.left source.new) (take n piece.new)) }
    ensures end { IfOk result (λ n. n ≡ 0 → IfSome (S.left source.old) (λ bytes. bytes ≡ [])) }
    ensures failed { result ≡ Err ReadError.Failed →
        Rose (S.faults source.old) (S.faults source.new) }
    ensures never_too_long { result ≡ Err ReadError.TooLong → ⊥ }
    ensures faults_never_fall { S.faults source.old ≤ S.faults source.new }
    ensures given_never_falls { S.given source.old ≤ S.given source.new }
{
    match source.read(piece) {
        Ok(n) => {
            read.extend_from_slice(&piece[..n])?;
            Ok(n)
        }
        Err(Failed) => Err(ReadError::Failed),
    }
}
