//! Sources and sinks over the system's readers and writers. They tell what their reader tells of the bytes that are left, and their
//! writer of the bytes that it holds; a file or a terminal tells nothing.

ghost use Rattle.std.specs.Prelude.{◌≡◌, ◌≤◌, ◌++◌, take, length, IsSome, IfSome, IfNone, Some, if◌then◌else◌};
ghost use Rattle.board_links.specs.Pieces.{Writes, told_bytes};
ghost use Rattle.board_links.specs.declared.sink.Put.TheVariants as put;

use crate::sink::{Put, Sink};
use crate::source::{Piece, Source};
use std::io::{ErrorKind, Read, Write};

/// How often one write is tried while the system interrupts it.
const TRIES: u32 = 1_000;

/// A source over a reader, such as standard input or a file.
#[derive(Drop)]
pub struct ReaderSource<R> {
    reader: R,
    faults: u64,
}

impl<R: Read> ReaderSource<R> {
    /// A source over this reader, of which no read has failed yet.
    pub fn new(reader: R) -> Self
        ensures faults { ⟦<ReaderSource<R> as Source>⟧.faults result ≡ 0 }
        ensures left { ⟦<ReaderSource<R> as Source>⟧.left result ≡ R.remaining reader }
    {
        ReaderSource { reader, faults: 0 }
    }
}

impl<R: Read> Source for ReaderSource<R> {
    ghost left = { λ s. R.remaining s.reader };

    ghost faults = { λ s. s.faults };

    fn next(&mut self, buf: &mut [u8]) -> Piece {
        match self.reader.read(buf) {
            Ok(0) => Piece::End,
            Ok(n) => Piece::Got(n),
            Err(_) => {
                self.faults = self.faults.saturating_add(1);
                Piece::Failed
            }
        }
    }
}

/// A sink over a writer, such as standard output or a file.
#[derive(Drop)]
pub struct WriterSink<W> {
    writer: W,
    faults: u64,
}

impl<W: Write> WriterSink<W> {
    /// A sink over this writer, of which no write has failed yet.
    pub fn new(writer: W) -> Self
        ensures faults { ⟦<WriterSink<W> as Sink>⟧.faults result ≡ 0 }
        ensures held { ⟦<WriterSink<W> as Sink>⟧.held result ≡ W.contents writer }
    {
        WriterSink { writer, faults: 0 }
    }
}

/// Writes some first bytes, at least one, and says how many; none if the writer takes none, fails, or is interrupted too often.
fn write_some<W: Write>(writer: &mut W, bytes: &[u8]) -> Option<usize>
    ensures count { IfSome result (λ n. (1 ≤ n) × (n ≤ length bytes.now)) }
    ensures some { IfSome result (λ n. IsSome (W.contents writer.old) → W.contents writer.new ≡ Some (told_bytes (W.contents writer.old) ++ take n bytes.now)) }
    ensures none { IfNone result (IsSome (W.contents writer.old) → W.contents writer.new ≡ W.contents writer.old) }
{
    for _ in 0..TRIES {
        match writer.write(bytes) {
            Ok(0) => return None,
            Ok(n) => return Some(n),
            Err(error) if error.kind() == ErrorKind::Interrupted => {}
            Err(_) => return None,
        }
    }
    None
}

/// Writes all the bytes, and says whether they were taken; if not, some first part of them was.
fn write_whole<W: Write>(writer: &mut W, bytes: &[u8]) -> Put
    ensures { IsSome (W.contents writer.old) → Writes result bytes.now (told_bytes (W.contents writer.old)) (W.contents writer.new) }
{
    let mut rest = bytes;
    while !rest.is_empty() {
        match write_some(writer, rest) {
            Some(n) => rest = &rest[n..],
            None => return Put::Failed,
        }
    }
    Put::Done
}

impl<W: Write> Sink for WriterSink<W> {
    ghost held = { λ s. W.contents s.writer };

    ghost faults = { λ s. s.faults };

    fn put(&mut self, bytes: &[u8]) -> Put {
        let answer = write_whole(&mut self.writer, bytes);
        if answer == Put::Failed {
            self.faults = self.faults.saturating_add(1);
        }
        answer
    }
}
