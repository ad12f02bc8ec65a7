//! Lines out of bytes that come piece by piece.

ghost use Rattle.std.specs.Prelude.{◌≡◌, ◌≤◌, ◌<◌, ◌+◌, ◌++◌, ◌∷◌, [], length, vec_len, vec_capacity, slice_index, IfOk, OnErr, IfSome, IfNone};
ghost use Rattle.tcp_links.specs.Newlines.{NoNewline};

use crate::halt::Halt;
use game_sheet::{Bytes, NoMemory};
use memchr::memchr;
use std::alloc::Global;
use std::io::Read;
use std::marker::Model;
use std::mem;

/// How many bytes are read at once.
const ROOM: usize = 4_096;

/// What stands at the front of the bytes that are held.
#[derive(Drop)]
pub enum Cut {
    /// A whole line, without its newline. It is held no longer.
    Line(Bytes),
    /// No whole line; what stands there may still become one.
    Part,
    /// A line that passes the limit.
    TooLong,
    /// There was no memory to take a line out.
    NoMemory,
}

/// What a read brought.
#[derive(Clone, Copy)]
pub enum Fill {
    /// Bytes; another read may bring more.
    Some,
    /// Nothing was there yet.
    Nothing,
    /// The reader has ended.
    Ended,
    /// The read failed.
    Failed,
    /// There was no memory, so nothing was read.
    NoMemory,
}

/// Bytes that came and haven't been told. Contracts see these bytes.
pub struct LineBuffer {
    alloc: Global,
    bytes: Vec<u8>,
    searched: usize,
}

impl Drop for LineBuffer {
    fn drop(self) {
        let LineBuffer {
            alloc: _,
            bytes,
            searched: _,
        } = self;
        drop(bytes);
    }
}

impl Model for LineBuffer {
    ghost use Rattle.std.specs.Prelude.{◌≤◌, ℕ, List, length};
    ghost use Rattle.tcp_links.specs.Newlines.{NoNewline};

    ghost Value = { List ℕ };

    ghost view = { λ b. b.bytes.items };

    ghost invariant = { λ b. (b.searched ≤ length b.bytes.items) × NoNewline b.bytes.items b.searched };
}

impl LineBuffer {
    ghost use Rattle.tcp_links.specs.Cuts.{Cuts, Fills};

    /// A buffer that holds nothing. It takes no memory.
    pub fn new(alloc: Global) -> LineBuffer
        ensures { result ≡ [] }
    {
        LineBuffer {
            alloc,
            bytes: Vec::new(alloc),
            searched: 0,
        }
    }

    /// Takes out the first line, of at most `limit` bytes, where it stands whole.
    pub fn cut(&mut self, limit: u32) -> Cut
        ensures { Cuts limit result self.old self.new }
    {
        match newline_from(self.bytes.as_slice(), self.searched) {
            Some(end) => {
                if end > limit as usize {
                    return Cut::TooLong;
                }
                match self.take_line(end) {
                    Ok(line) => Cut::Line(line),
                    Err(NoMemory) => Cut::NoMemory,
                }
            }
            None => {
                self.searched = self.bytes.len();
                if self.bytes.len() > limit as usize {
                    return Cut::TooLong;
                }
                Cut::Part
            }
        }
    }

    /// Takes out the line that ends at a place, with its newline.
    fn take_line(&mut self, end: usize) -> Result<Bytes, NoMemory>
        requires { end < length self.old }
        ensures line { IfOk result (λ line. (length line ≡ end) × (self.old ≡ line ++ slice_index self.old end ∷ self.new)) }
        ensures kept { OnErr result (self.new ≡ self.old) }
    {
        let rest = Vec::from_slice(self.alloc, &self.bytes.as_slice()[end + 1..])?;
        let mut line = mem::replace(&mut self.bytes, rest);
        self.searched = 0;
        line.truncate(end);
        Ok(Bytes::from_vec(line))
    }

    /// Reads once, and holds what came. Room is taken first, so that want of memory loses no byte.
    pub fn fill<R: Read>(&mut self, reader: &mut R) -> Fill
        ensures { Fills result self.old self.new }
    {
        if self.bytes.reserve(ROOM).is_err() {
            return Fill::NoMemory;
        }
        let mut room = [0u8; ROOM];
        match read(reader, &mut room) {
            Ok(0) => Fill::Ended,
            Ok(n) => {
                add(&mut self.bytes, &room[..n]);
                Fill::Some
            }
            Err(Halt::Wait) => Fill::Nothing,
            Err(Halt::Failed) => Fill::Failed,
            Err(Halt::NoMemory) => Fill::NoMemory,
        }
    }
}

/// Adds bytes for which there is room.
fn add(bytes: &mut Vec<u8>, more: &[u8])
    requires { vec_len bytes.old + length more.now ≤ vec_capacity bytes.old }
    ensures { bytes.new.items ≡ bytes.old.items ++ more.now }
{
    match bytes.extend_from_slice(more) {
        Ok(()) => {}
        Err(_) => unreachable!(),
    }
}

/// Reads once, and tells how many bytes came; 0 where the reader has ended.
fn read<R: Read>(reader: &mut R, room: &mut [u8]) -> Result<usize, Halt>
    ensures { IfOk result (λ n. n ≤ length room.new) }
{
    match reader.read(room) {
        Ok(n) => Ok(n),
        Err(error) => Err(Halt::from(error)),
    }
}

/// The place of the first newline, where none stands before a place.
fn newline_from(bytes: &[u8], from: usize) -> Option<usize>
    requires inside { from ≤ length bytes.now }
    requires before { NoNewline bytes.now from }
    ensures some { IfSome result (λ end. (end < length bytes.now) × NoNewline bytes.now end × (slice_index bytes.now end ≡ 10)) }
    ensures none { IfNone result (NoNewline bytes.now (length bytes.now)) }
{
    match memchr(b'\n', &bytes[from..]) {
        Some(place) => Some(from + place),
        None => None,
    }
}
