//! Bytes that wait to be written.

ghost use Rattle.std.specs.Prelude.{◌≡◌, ◌==◌, ◌≤◌, ◌<◌, ◌++◌, [], length, drop, OnErr, OnOk};
ghost use Rattle.poll_links.specs.Writes.{Takes, rest_after};

use game_sheet::NoMemory;
use std::alloc::Global;
use std::io::{ErrorKind, Write};
use std::marker::Model;

/// How many bytes of room are kept while nothing waits.
const KEPT: usize = 65_536;

/// What a write came to.
#[derive(Clone, Copy)]
pub enum Wrote {
    /// So many bytes were taken.
    Some(usize),
    /// None could be, for now.
    Nothing,
    /// It failed.
    Failed,
}

/// Bytes that wait to be written. Contracts see these bytes.
pub struct Outgoing {
    alloc: Global,
    bytes: Vec<u8>,
    /// How many of them were written.
    taken: usize,
}

impl Drop for Outgoing {
    fn drop(self) {
        let Outgoing {
            alloc: _,
            bytes,
            taken: _,
        } = self;
        drop(bytes);
    }
}

impl Model for Outgoing {
    ghost use Rattle.std.specs.Prelude.{◌≤◌, ℕ, List, length, drop};

    ghost Value = { List ℕ };

    ghost view = { λ o. drop o.taken o.bytes.items };

    ghost invariant = { λ o. o.taken ≤ length o.bytes.items };
}

impl Outgoing {
    /// Nothing waits. It takes no memory.
    pub fn new(alloc: Global) -> Outgoing
        ensures { result ≡ [] }
    {
        Outgoing {
            alloc,
            bytes: Vec::new(alloc),
            taken: 0,
        }
    }

    /// Whether nothing waits.
    pub fn is_empty(&self) -> bool
        ensures { result ≡ (length self.now == 0) }
    {
        self.taken >= self.bytes.len()
    }

    /// Lets these bytes wait, behind the others.
    pub fn push(&mut self, bytes: &[u8]) -> Result<(), NoMemory>
        ensures ok { OnOk result (self.new ≡ self.old ++ bytes.now) }
        ensures err { OnErr result (self.new ≡ self.old) }
    {
        match self.bytes.extend_from_slice(bytes) {
            Ok(()) => Ok(()),
            Err(_) => Err(NoMemory),
        }
    }

    /// Forgets what waits, and gives back room beyond the usual.
    pub fn clear(&mut self)
        ensures { self.new ≡ [] }
    {
        self.taken = 0;
        if self.bytes.capacity() > KEPT {
            self.bytes = Vec::new(self.alloc);
        } else {
            self.bytes.clear();
        }
    }

    /// So many bytes wait no longer.
    fn take(&mut self, count: usize)
        requires { count ≤ length self.old }
        ensures { self.new ≡ drop count self.old }
    {
        self.taken += count;
        if self.taken >= self.bytes.len() {
            self.clear();
        }
    }

    /// Writes what waits, once.
    pub fn write_to<W: Write>(&mut self, writer: &mut W) -> Wrote
        requires { 0 < length self.old }
        ensures takes { Takes result (W.contents writer.old) (W.contents writer.new) self.old }
        ensures rest { self.new ≡ rest_after result self.old }
    {
        let wrote = write(writer, &self.bytes.as_slice()[self.taken..]);
        if let Wrote::Some(count) = wrote {
            self.take(count);
        }
        wrote
    }
}

/// Writes once.
fn write<W: Write>(writer: &mut W, bytes: &[u8]) -> Wrote
    ensures { Takes result (W.contents writer.old) (W.contents writer.new) bytes.now }
{
    match writer.write(bytes) {
        Ok(0) => Wrote::Nothing,
        Ok(count) => Wrote::Some(count),
        Err(error) => match error.kind() {
            ErrorKind::WouldBlock | ErrorKind::Interrupted => Wrote::Nothing,
            _ => Wrote::Failed,
        },
    }
}
