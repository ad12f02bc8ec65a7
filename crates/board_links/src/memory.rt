//! Sources and sinks in memory, which tell all their bytes and fail at the calls that they are told to.

ghost use Rattle.std.specs.Prelude.{◌≡◌, ◌≤◌, ◌<◌, [], length, take, min, true};

use crate::sink::{Put, Sink};
use crate::source::{Piece, Source};
use game_sheet::List;
use std::alloc::Global;
use std::marker::Model;

/// A source of the bytes of a list.
pub struct MemorySource {
    bytes: Vec<u8>,
    at: usize,
    calls: u64,
    failing: List<u64>,
    faults: u64,
}

impl Drop for MemorySource {
    fn drop(self) {
        let MemorySource {
            bytes,
            at: _,
            calls: _,
            failing,
            faults: _,
        } = self;
        drop(bytes);
        drop(failing);
    }
}

impl Model for MemorySource {
    ghost use Rattle.std.specs.Prelude.{◌≤◌, drop, length};
    ghost use Rattle.board_links.specs.Memory.{SourceState};

    ghost Value = { SourceState };

    ghost view = { λ s. record { left = drop s.at s.bytes.items; calls = s.calls; failing = s.failing; faults = s.faults } };

    ghost invariant = { λ s. s.at ≤ length s.bytes.items };
}

impl MemorySource {
    /// A source of these bytes whose calls of these numbers fail, counted from 1; with none it never fails.
    pub fn new(bytes: Vec<u8>, failing: List<u64>) -> Self
        ensures { result ≡ record { left = bytes.items; calls = 0; failing = failing; faults = 0 } }
    {
        MemorySource {
            bytes,
            at: 0,
            calls: 0,
            failing,
            faults: 0,
        }
    }
}

impl Source for MemorySource {
    ghost use Rattle.std.specs.Prelude.{Some};
    ghost use Rattle.board_links.specs.Pieces.{HasSize, ReadRaises, Reads};
    ghost use Rattle.board_links.specs.Memory.{is_failed, is_failing, next_count, SourceCounts};

    ghost left = { λ s. Some s.left };

    ghost faults = { λ s. s.faults };

    fn next(&mut self, buf: &mut [u8]) -> Piece
        requires { 0 < length buf.old }
        ensures size { HasSize result (length buf.new) }
        ensures never_falls { self.old.faults ≤ self.new.faults }
        ensures raises { ReadRaises result self.old.faults self.new.faults }
        ensures told { Reads result buf.new self.old.left (Some self.new.left) }
        ensures fails { is_failed result ≡ is_failing self.old.failing (next_count self.old.calls) }
        ensures counts { SourceCounts result self.old self.new }
    {
        self.calls = self.calls.saturating_add(1);
        if self.failing.as_slice().contains(&self.calls) {
            self.faults = self.faults.saturating_add(1);
            return Piece::Failed;
        }
        let n = copied(buf, &self.bytes[self.at..]);
        if n == 0 {
            return Piece::End;
        }
        self.at += n;
        Piece::Got(n)
    }
}

/// Copies as many bytes as there are and as there is room for, and says how many.
fn copied(buf: &mut [u8], bytes: &[u8]) -> usize
    ensures count { result ≡ min (length buf.old) (length bytes.now) }
    ensures same { take result buf.new ≡ take result bytes.now }
{
    let n = buf.len().min(bytes.len());
    buf[..n].copy_from_slice(&bytes[..n]);
    n
}

/// A sink that keeps all its bytes.
pub struct MemorySink {
    bytes: Vec<u8>,
    calls: u64,
    failing: List<u64>,
    faults: u64,
}

impl Drop for MemorySink {
    fn drop(self) {
        let MemorySink {
            bytes,
            calls: _,
            failing,
            faults: _,
        } = self;
        drop(bytes);
        drop(failing);
    }
}

impl Model for MemorySink {
    ghost use Rattle.board_links.specs.Memory.{SinkState};

    ghost Value = { SinkState };

    ghost view = { λ s. record { held = s.bytes.items; calls = s.calls; failing = s.failing; faults = s.faults } };
}

impl MemorySink {
    /// A sink that holds nothing, and whose calls of these numbers fail, counted from 1; with none it fails for want of
    /// memory alone.
    pub fn new(alloc: Global, failing: List<u64>) -> Self
        ensures { result ≡ record { held = []; calls = 0; failing = failing; faults = 0 } }
    {
        MemorySink {
            bytes: Vec::new(alloc),
            calls: 0,
            failing,
            faults: 0,
        }
    }

    /// The bytes that it holds.
    pub fn bytes(&self) -> &[u8]
        ensures { result.now ≡ self.now.held }
    {
        self.bytes.as_slice()
    }
}

impl Sink for MemorySink {
    ghost use Rattle.std.specs.Prelude.{Some};
    ghost use Rattle.board_links.specs.Pieces.{WriteRaises, Writes};
    ghost use Rattle.board_links.specs.Memory.{is_failing, is_refused, next_count, SinkCounts};

    ghost held = { λ s. Some s.held };

    ghost faults = { λ s. s.faults };

    fn put(&mut self, bytes: &[u8]) -> Put
        ensures never_falls { self.old.faults ≤ self.new.faults }
        ensures raises { WriteRaises result self.old.faults self.new.faults }
        ensures told { Writes result bytes.now self.old.held (Some self.new.held) }
        ensures fails { is_failing self.old.failing (next_count self.old.calls) ≡ true
            → is_refused result ≡ true }
        ensures counts { SinkCounts result self.old self.new }
    {
        self.calls = self.calls.saturating_add(1);
        if self.failing.as_slice().contains(&self.calls) {
            self.faults = self.faults.saturating_add(1);
            return Put::Failed;
        }
        match self.bytes.extend_from_slice(bytes) {
            Ok(()) => Put::Done,
            Err(_) => {
                self.faults = self.faults.saturating_add(1);
                Put::Failed
            }
        }
    }
}
