// What no clause says: that memory suffices, and what real and failing readers and writers do.
ghost use Rattle.std.specs.Prelude.{◌≤◌, None, IfOk};

use crate::{
    BufferedSink, Failed, ReadError, Sink, Source, StdSink, StdSource, SureSink, SureSource,
    read_to_limit, write_all,
};
use std::alloc::Global;
use std::io;
use std::io::{Error, ErrorKind, Read, Write};
use std::test::Fail;

#[test]
fn sure_source_gives_its_bytes_in_pieces(rt: HostRuntime) -> Result<(), Fail> {
    let mut source = SureSource::of(b"abcdefgh".to_vec(rt.alloc())?);
    for want in [b"abc".as_slice(), b"def", b"gh", b""] {
        let mut piece = [0; 3];
        let count = source.read(&mut piece)?;
        assert_eq!(rt; piece.get(..count), Some(want));
    }
    Ok(())
}

#[test]
fn sure_sink_keeps_what_fits(rt: HostRuntime) -> Result<(), Fail> {
    let mut sink = SureSink::with_room(rt.alloc(), 5)?;
    for (piece, kept) in [
        (b"abc".as_slice(), b"abc".as_slice()),
        (b"de", b"abcde"),
        (b"", b"abcde"),
        (b"f", b"abcde"),
        (b"", b"abcde"),
    ] {
        assert_eq!(rt; sink.write(piece)?, piece.len());
        assert_eq!(rt; sink.bytes(), kept);
    }
    Ok(())
}

#[test]
fn read_to_limit_reads_the_whole_or_refuses(rt: HostRuntime) -> Result<(), Fail> {
    for (len, limit, fits) in [
        (0, 0, true),
        (1, 0, false),
        (10, 10, true),
        (10, 9, false),
        (200_000, 200_000, true),
        (200_001, 200_000, false),
    ] {
        let bytes = vec![in rt.alloc(); 7u8; len]?;
        let mut source = SureSource::of(bytes.clone()?);
        match read_to_limit(rt.alloc(), &mut source, limit) {
            Ok(read) => assert!(rt; fits && read.as_slice() == bytes.as_slice(), "{len}"),
            Err(e) => assert!(rt; !fits && e == ReadError::TooLong, "{len}"),
        }
    }
    Ok(())
}

// A reader and a writer of two bytes a call. Its first calls are interrupted, and of the others the third fails.
#[derive(Drop)]
struct Faulty {
    interrupts: u8,
    calls: u8,
}

impl Faulty {
    fn count(&mut self, len: usize) -> io::Result<usize>
        ensures { IfOk result (λ n. n ≤ len) }
    {
        if self.interrupts > 0 {
            self.interrupts -= 1;
            return Err(Error::from(ErrorKind::Interrupted));
        }
        self.calls = self.calls.saturating_add(1);
        if self.calls == 3 {
            return Err(Error::from(ErrorKind::Other));
        }
        Ok(len.min(2))
    }
}

impl Read for Faulty {
    fn read(&mut self, into: &mut [u8]) -> io::Result<usize> {
        self.count(into.len())
    }
}

impl Write for Faulty {
    fn write(&mut self, bytes: &[u8]) -> io::Result<usize> {
        self.count(bytes.len())
    }

    fn flush(&mut self) -> io::Result<()> {
        Ok(())
    }
}

// The sink of the command over a faulty writer: the writer takes four bytes, and then fails.
fn over_faulty(alloc: Global, interrupts: u8) -> Result<BufferedSink<StdSink<Faulty>>, Fail> {
    let writer = Faulty {
        interrupts,
        calls: 0,
    };
    Ok(BufferedSink::new(alloc, StdSink::new(writer))?)
}

#[test]
fn a_fault_in_mid_stream_is_answered(rt: HostRuntime) -> Result<(), Fail> {
    let mut source = StdSource::new(Faulty {
        interrupts: 0,
        calls: 0,
    });
    let read = read_to_limit(rt.alloc(), &mut source, 100);
    assert!(rt; matches!(read, Err(ReadError::Failed)));
    for (len, want) in [(0, Ok(())), (4, Ok(())), (5, Err(Failed))] {
        let mut sink = over_faulty(rt.alloc(), 0)?;
        assert_eq!(rt; write_all(&mut sink, &[7; 5][..len]), Ok(()));
        assert_eq!(rt; sink.flush(), want);
    }
    let mut sink = over_faulty(rt.alloc(), 0)?;
    assert_eq!(rt;
        write_all(&mut sink, vec![in rt.alloc(); 7; 65_540]?.as_slice()),
        Ok(())
    );
    assert_eq!(rt; write_all(&mut sink, b"1"), Err(Failed));
    Ok(())
}

#[test]
fn an_interrupted_call_is_tried_again(rt: HostRuntime) -> Result<(), Fail> {
    for (interrupts, goes) in [(1, true), (63, true), (64, false)] {
        let mut source = StdSource::new(Faulty {
            interrupts,
            calls: 0,
        });
        assert_eq!(rt; source.read(&mut [0; 2]).is_ok(), goes);
        let mut sink = over_faulty(rt.alloc(), interrupts)?;
        write_all(&mut sink, b"ab")?;
        assert_eq!(rt; sink.flush().is_ok(), goes);
    }
    Ok(())
}

// A sink that takes all, and counts its writes and their bytes.
#[derive(Drop)]
struct Counting {
    writes: u64,
    bytes: u64,
}

impl Sink for Counting {
    ghost written = { λ _. None };

    ghost faults = { λ _. 0 };

    fn write(&mut self, bytes: &[u8]) -> Result<usize, Failed> {
        self.writes = self.writes.saturating_add(1);
        self.bytes = self.bytes.saturating_add(bytes.len() as u64);
        Ok(bytes.len())
    }
}

#[test]
fn a_hundred_thousand_long_lines_take_few_writes(rt: HostRuntime) -> Result<(), Fail> {
    let counting = Counting {
        writes: 0,
        bytes: 0,
    };
    let mut sink = BufferedSink::new(rt.alloc(), counting)?;
    for _ in 0..100_000 {
        write_all(&mut sink, &[7; 99])?;
    }
    sink.flush()?;
    assert_eq!(rt; sink.sink().bytes, 9_900_000);
    assert!(rt; sink.sink().writes <= 200);
    Ok(())
}

#[test]
fn write_all_fills_a_sink(rt: HostRuntime) -> Result<(), Fail> {
    let mut sink = SureSink::with_room(rt.alloc(), 8)?;
    for piece in [b"one ".as_slice(), b"", b"two"] {
        write_all(&mut sink, piece)?;
    }
    assert_eq!(rt; sink.bytes(), b"one two".as_slice());
    Ok(())
}

#[test]
fn standard_streams_serve(rt: HostRuntime) -> Result<(), Fail> {
    let mut source = StdSource::new(rt.reader());
    assert!(rt; source.read(&mut [0; 8]).is_ok());
    let mut sink = StdSink::new(io::writer(&rt));
    assert_eq!(rt; sink.write(b"a line\n")?, 7);
    Ok(())
}
