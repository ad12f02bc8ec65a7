//! Bytes that were read from a source and aren't used yet.

ghost use Rattle.std.specs.Prelude.{◌≡◌, ◌≢◌, ◌≤◌, ◌<◌, ℕ, [], length, take, drop, slice_get, slice_index, IsSome};
ghost use Rattle.board_links.specs.Pieces.{told_bytes, ReadRaises};

use crate::next::Peeked;
use board_links::{Piece, Source};
use memchr::memchr;
use std::marker::Model;

/// The bytes of one read that aren't used yet. Contracts see them as a list.
pub struct Chunk {
    bytes: [u8; 4096],
    at: usize,
    end: usize,
}

impl Drop for Chunk {
    fn drop(self) {
        let Chunk {
            bytes: _,
            at: _,
            end: _,
        } = self;
    }
}

impl Model for Chunk {
    ghost use Rattle.std.specs.Prelude.{List, ℕ, ◌≤◌, drop, take};

    ghost Value = { List ℕ };

    ghost view = { λ c. drop c.at (take c.end c.bytes) };

    ghost invariant = { λ c. (c.at ≤ c.end) × (c.end ≤ 4096) };
}

impl Chunk {
    ghost use Rattle.line_runner.specs.Reading.{Gains, SeesEnd, Shows, PeekRaises, Fills, HasBytes};

    /// No bytes.
    pub fn new() -> Self
        ensures { result ≡ [] }
    {
        Chunk {
            bytes: [0; 4096],
            at: 0,
            end: 0,
        }
    }

    /// The next byte, which stays; where none waits, the source is read.
    pub fn peek<S: Source>(&mut self, source: &mut S) -> Peeked
        ensures never_falls { S.faults source.old ≤ S.faults source.new }
        ensures raises { PeekRaises result (S.faults source.old) (S.faults source.new) }
        ensures shows { Shows result self.new }
        ensures tells { IsSome (S.left source.old) → IsSome (S.left source.new) }
        ensures gains { IsSome (S.left source.old) → Gains self.old self.new (told_bytes (S.left source.old)) (told_bytes (S.left source.new)) }
        ensures end { IsSome (S.left source.old) → SeesEnd result (told_bytes (S.left source.new)) }
    {
        if let Some(byte) = self.first() {
            return Peeked::Byte(byte);
        }
        match self.refill(source) {
            Piece::Got(_) => match self.first() {
                Some(byte) => Peeked::Byte(byte),
                None => Peeked::End,
            },
            Piece::End => Peeked::End,
            Piece::Failed => Peeked::Failed,
        }
    }

    /// How many bytes come before a newline or the end of what waits.
    pub fn run(&self) -> usize
        ensures inside { result ≤ length self.now }
        ensures plain { (place : ℕ) → place < result → slice_index self.now place ≢ 10 }
    {
        let waiting = self.waiting();
        match memchr(b'\n', waiting) {
            Some(place) => place,
            None => waiting.len(),
        }
    }

    /// The first so many bytes.
    pub fn front(&self, count: usize) -> &[u8]
        requires { count ≤ length self.now }
        ensures { result.now ≡ take count self.now }
    {
        &self.waiting()[..count]
    }

    /// Uses the first so many bytes.
    pub fn skip(&mut self, count: usize)
        requires { count ≤ length self.old }
        ensures { self.new ≡ drop count self.old }
    {
        self.at += count;
    }

    /// Uses the first byte.
    pub fn advance(&mut self)
        requires { 0 < length self.old }
        ensures { self.new ≡ drop 1 self.old }
    {
        self.at += 1;
    }

    fn waiting(&self) -> &[u8]
        ensures { result.now ≡ self.now }
    {
        &self.bytes[self.at..self.end]
    }

    fn first(&self) -> Option<u8>
        ensures { result ≡ slice_get self.now 0 }
    {
        if self.at < self.end {
            Some(self.bytes[self.at])
        } else {
            None
        }
    }

    fn refill<S: Source>(&mut self, source: &mut S) -> Piece
        requires { self.old ≡ [] }
        ensures never_falls { S.faults source.old ≤ S.faults source.new }
        ensures raises { ReadRaises result (S.faults source.old) (S.faults source.new) }
        ensures size { HasBytes result self.new }
        ensures told { IsSome (S.left source.old) → IsSome (S.left source.new)
            × Fills result (told_bytes (S.left source.old)) self.new (told_bytes (S.left source.new)) }
    {
        self.at = 0;
        self.end = 0;
        let piece = source.next(&mut self.bytes);
        if let Piece::Got(n) = piece {
            self.end = n;
        }
        piece
    }
}
