//! The lines of a script, one by one.

ghost use Rattle.std.specs.Prelude.{◌≡◌, ◌≢◌, ◌≤◌, ◌<◌, ◌+◌, ℕ, List, [], ◌∷◌, length, drop, slice_index, true, Some, IsSome};
ghost use Rattle.board_links.specs.Pieces.{told_bytes};
ghost use Rattle.line_runner.specs.Reader.{fresh, coming};
ghost use Rattle.line_runner.specs.ScriptLines.{Script, Ended, no_lines, last_line, without_return};

use crate::chunk::Chunk;
use crate::next::{Next, Peeked};
use board_links::Source;
use std::alloc::Global;
use std::marker::Model;
use std::mem;

const MOST_BYTES: usize = 65_536;

const MOST_LINES: u32 = 1_000_000;

/// A reader of lines. Contracts see which lines are still to come, where the source tells its bytes.
pub struct Lines {
    chunk: Chunk,
    line: Vec<u8>,
    begun: Vec<u8>,
    given: u32,
    ended: bool,
}

impl Drop for Lines {
    fn drop(self) {
        let Lines {
            chunk,
            line,
            begun,
            given: _,
            ended: _,
        } = self;
        drop(chunk);
        drop(line);
        drop(begun);
    }
}

impl Model for Lines {
    ghost use Rattle.line_runner.specs.Reader.{Reader, IsWithinLimits};

    ghost Value = { Reader };

    ghost view = { λ r. record { line = r.line.items; begun = r.begun.items; waiting = r.chunk; given = r.given; ended = r.ended } };

    ghost invariant = { λ r. IsWithinLimits r.begun.items r.given };
}

impl Lines {
    ghost use Rattle.line_runner.specs.Reading.{Answers, Raises, given_after, Steps, StepRaises, given_by, StandsAt, Moves, Grows};

    /// A reader that has read nothing.
    pub fn new(alloc: Global) -> Self
        ensures { result ≡ fresh }
    {
        Lines {
            chunk: Chunk::new(),
            line: Vec::new(alloc),
            begun: Vec::new(alloc),
            given: 0,
            ended: false,
        }
    }

    /// The line that was given last; its newline isn't part of it.
    pub fn line(&self) -> &[u8]
        ensures { result.now ≡ self.now.line }
    {
        self.line.as_slice()
    }

    /// How many lines were given: the number of the last one, counted from 1.
    pub fn given(&self) -> u32
        ensures value { result ≡ self.now.given }
        ensures most { result ≤ 1000000 }
    {
        self.given
    }

    /// Reads the next line. After a fault or want of memory the same lines are still to come. A source that has told its
    /// end isn't read again.
    pub fn next_line<S: Source>(&mut self, source: &mut S) -> Next
        ensures never_falls { S.faults source.old ≤ S.faults source.new }
        ensures raises { Raises result (S.faults source.old) (S.faults source.new) }
        ensures given { self.new.given ≡ given_after result self.old.given }
        ensures most { self.new.given ≤ 1000000 }
        ensures stands { StandsAt (Some result) self.new }
        ensures tells { IsSome (S.left source.old) → IsSome (S.left source.new) }
        ensures moves { IsSome (S.left source.old) → Moves (Some result) self.new.line self.old self.new (told_bytes (S.left source.old)) (told_bytes (S.left source.new)) }
    {
        loop {
            if let Some(next) = self.step(source) {
                return next;
            }
        }
    }

    fn step<S: Source>(&mut self, source: &mut S) -> Option<Next>
        ensures never_falls { S.faults source.old ≤ S.faults source.new }
        ensures raises { StepRaises result (S.faults source.old) (S.faults source.new) }
        ensures given { self.new.given ≡ given_by result self.old.given }
        ensures most { self.new.given ≤ 1000000 }
        ensures grows { Grows result self.old.begun self.new.begun }
        ensures stands { StandsAt result self.new }
        ensures tells { IsSome (S.left source.old) → IsSome (S.left source.new) }
        ensures moves { IsSome (S.left source.old) → Moves result self.new.line self.old self.new (told_bytes (S.left source.old)) (told_bytes (S.left source.new)) }
    {
        if self.ended {
            return Some(Next::End);
        }
        match self.chunk.peek(source) {
            Peeked::Byte(byte) => self.take_some(byte),
            Peeked::End => Some(self.last()),
            Peeked::Failed => Some(Next::ReadFault),
        }
    }

    // The run of bytes before the next newline, where it fits whole; else the byte.
    fn take_some(&mut self, byte: u8) -> Option<Next>
        requires { self.old.waiting ≡ byte ∷ drop 1 self.old.waiting }
        ensures raises { (faults : ℕ) → StepRaises result faults faults }
        ensures given { self.new.given ≡ given_by result self.old.given }
        ensures most { self.new.given ≤ 1000000 }
        ensures grows { Grows result self.old.begun self.new.begun }
        ensures ended { self.new.ended ≡ self.old.ended }
        ensures stands { StandsAt result self.new }
        ensures told { (last : List ℕ → Script) (more : List ℕ) → Steps result self.new.line (coming last self.old more) (coming last self.new more) }
    {
        let run = self.chunk.run();
        if run > 1 && self.given < MOST_LINES && run <= MOST_BYTES - self.begun.len() {
            self.take_run(run)
        } else {
            self.take(byte)
        }
    }

    fn take_run(&mut self, run: usize) -> Option<Next>
        requires { (0 < run) × (run ≤ length self.old.waiting) × ((place : ℕ) → place < run → slice_index self.old.waiting place ≢ 10) × (self.old.given < 1000000) × (length self.old.begun + run ≤ 65536) }
        ensures raises { (faults : ℕ) → StepRaises result faults faults }
        ensures given { self.new.given ≡ given_by result self.old.given }
        ensures most { self.new.given ≤ 1000000 }
        ensures grows { Grows result self.old.begun self.new.begun }
        ensures ended { self.new.ended ≡ self.old.ended }
        ensures stands { StandsAt result self.new }
        ensures told { (last : List ℕ → Script) (more : List ℕ) → Steps result self.new.line (coming last self.old more) (coming last self.new more) }
    {
        match self.begun.extend_from_slice(self.chunk.front(run)) {
            Ok(()) => {
                self.chunk.skip(run);
                None
            }
            Err(_) => Some(Next::NoMemory),
        }
    }

    fn take(&mut self, byte: u8) -> Option<Next>
        requires { self.old.waiting ≡ byte ∷ drop 1 self.old.waiting }
        ensures raises { (faults : ℕ) → StepRaises result faults faults }
        ensures given { self.new.given ≡ given_by result self.old.given }
        ensures most { self.new.given ≤ 1000000 }
        ensures grows { Grows result self.old.begun self.new.begun }
        ensures ended { self.new.ended ≡ self.old.ended }
        ensures stands { StandsAt result self.new }
        ensures told { (last : List ℕ → Script) (more : List ℕ) → Steps result self.new.line (coming last self.old more) (coming last self.new more) }
    {
        if self.given == MOST_LINES {
            return Some(Next::TooMany);
        }
        if byte == b'\n' {
            self.finish();
            return Some(Next::Line);
        }
        if self.begun.len() == MOST_BYTES {
            return Some(Next::TooLong);
        }
        match self.begun.push(byte) {
            Ok(()) => {
                self.chunk.advance();
                None
            }
            Err(_) => Some(Next::NoMemory),
        }
    }

    fn finish(&mut self)
        requires waits { 0 < length self.old.waiting }
        requires room { self.old.given < 1000000 }
        ensures { self.new ≡ record self.old { line = without_return self.old.begun; begun = []; waiting = drop 1 self.old.waiting; given = self.old.given + 1 } }
    {
        self.chunk.advance();
        mem::swap(&mut self.line, &mut self.begun);
        self.begun.clear();
        strip_return(&mut self.line);
        self.given += 1;
    }

    /// The answer where the source has told its end: the line that has begun, if one has.
    fn last(&mut self) -> Next
        requires { self.old.waiting ≡ [] }
        ensures raises { (faults : ℕ) → Raises result faults faults }
        ensures given { self.new.given ≡ given_after result self.old.given }
        ensures most { self.new.given ≤ 1000000 }
        ensures ended { self.new.ended ≡ true }
        ensures stands { StandsAt (Some result) self.new }
        ensures told { Answers result self.new.line (coming last_line self.old []) (no_lines Ended) }
    {
        self.ended = true;
        if self.begun.is_empty() {
            return Next::End;
        }
        mem::swap(&mut self.line, &mut self.begun);
        self.begun.clear();
        self.given += 1;
        Next::Line
    }
}

/// Drops a carriage return at the end.
fn strip_return(line: &mut Vec<u8>)
    ensures { line.new.items ≡ without_return line.old.items }
{
    let length = line.len();
    if length > 0 && line[length - 1] == b'\r' {
        line.truncate(length - 1);
    }
}
