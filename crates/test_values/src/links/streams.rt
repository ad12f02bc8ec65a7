//! Sources and sinks in memory and over the system's traits, with calls that fail.

use board_links::{MemorySink, MemorySource, Piece, Put, ReaderSource, Sink, Source, WriterSink};
use game_sheet::{List, NoMemory};
use std::alloc::Global;
use std::io::{self, Cursor, ErrorKind, Write};
use std::test::Fail;

fn source(alloc: Global, failing: &[u64]) -> Result<MemorySource, NoMemory> {
    let bytes = Vec::from_slice(alloc, b"board")?;
    Ok(MemorySource::new(bytes, List::from_slice(alloc, failing)?))
}

/// The first byte of each of the first four answers of a source with room for two; 0 stands for no piece.
fn answers<S: Source>(source: &mut S) -> [(Piece, u8); 4] {
    let mut seen = [(Piece::End, 0u8); 4];
    for place in seen.iter_mut() {
        let mut room = [0u8; 2];
        let piece = source.next(&mut room);
        *place = (piece, room[0]);
    }
    seen
}

#[test]
fn a_source_gives_its_bytes_in_order(rt: HostRuntime) -> Result<(), Fail> {
    let want = [
        (Piece::Got(2), b'b'),
        (Piece::Got(2), b'a'),
        (Piece::Got(1), b'd'),
        (Piece::End, 0),
    ];
    assert_eq!(rt; answers(&mut source(rt.alloc(), &[])?), want);
    let mut reader = ReaderSource::new(Cursor::new(b"board"));
    assert_eq!(rt; answers(&mut reader), want);
    Ok(())
}

#[test]
fn a_failing_call_takes_no_byte(rt: HostRuntime) -> Result<(), Fail> {
    let want = [
        (Piece::Got(2), b'b'),
        (Piece::Failed, 0),
        (Piece::Got(2), b'a'),
        (Piece::Failed, 0),
    ];
    assert_eq!(rt; answers(&mut source(rt.alloc(), &[4, 2])?), want);
    Ok(())
}

/// The answers of a sink that is given `ab` and then `c`.
fn fill<K: Sink>(sink: &mut K) -> (Put, Put) {
    let first = sink.put(b"ab");
    let second = sink.put(b"c");
    (first, second)
}

#[test]
fn a_sink_keeps_what_was_put(rt: HostRuntime) -> Result<(), Fail> {
    let alloc = rt.alloc();
    let mut sink = MemorySink::new(alloc, List::new(alloc));
    assert_eq!(rt; fill(&mut sink), (Put::Done, Put::Done));
    assert_eq!(rt; sink.bytes(), b"abc".as_slice());
    let mut second = MemorySink::new(alloc, List::from_slice(alloc, &[1])?);
    assert_eq!(rt; fill(&mut second), (Put::Failed, Put::Done));
    assert_eq!(rt; second.bytes(), b"c".as_slice());
    Ok(())
}

#[test]
fn a_writer_that_refuses_is_a_fault(rt: HostRuntime) -> Result<(), Fail> {
    let mut room = [0u8; 2];
    let mut sink = WriterSink::new(room.as_mut_slice());
    assert_eq!(rt; fill(&mut sink), (Put::Done, Put::Failed));
    Ok(())
}

/// A writer that takes one byte at a time, and is interrupted before each.
#[derive(Drop)]
struct Slow {
    bytes: Vec<u8>,
    interrupted: bool,
}

impl Write for Slow {
    fn write(&mut self, bytes: &[u8]) -> io::Result<usize> {
        self.interrupted = !self.interrupted;
        if self.interrupted {
            return Err(io::Error::from(ErrorKind::Interrupted));
        }
        let Some(first) = bytes.first() else {
            return Ok(0);
        };
        self.bytes.push(*first)?;
        Ok(1)
    }

    fn flush(&mut self) -> io::Result<()> {
        Ok(())
    }
}

#[test]
fn a_writer_that_is_interrupted_is_asked_again(rt: HostRuntime) -> Result<(), Fail> {
    let slow = Slow {
        bytes: Vec::new(rt.alloc()),
        interrupted: false,
    };
    let mut sink = WriterSink::new(slow);
    assert_eq!(rt; fill(&mut sink), (Put::Done, Put::Done));
    Ok(())
}
