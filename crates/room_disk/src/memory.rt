//! The disk in memory.

ghost use Rattle.std.specs.Prelude.{◌≡◌, ◌⊎◌, ◌≤◌, ◌+◌, [], ◌∷◌, ◌++◌, length, take, drop, refl, IfOk, OnOk, OnErr};
ghost use Rattle.std.proofs.Common.{inl};
ghost use Rattle.room_disk.specs.Past.{HadBeen, only_bytes};
ghost use Rattle.room_disk.specs.Disk.{Follows, Torn};

use crate::disk::{Disk, Size};
use board_links::{Piece, Put};
use game_sheet::List;
use std::alloc::{AllocError, Global};

/// A disk in memory. Each call is done at once, so a crash leaves what is there. The calls of the numbers that it is given fail,
/// counted from 1, and do nothing. It keeps each past content.
#[derive(Drop)]
pub struct MemoryDisk {
    alloc: Global,
    bytes: Vec<u8>,
    past: Vec<Vec<u8>>,
    calls: u64,
    failing: List<u64>,
    faults: u64,
}

impl MemoryDisk {
    ghost use Rattle.room_disk.specs.Memory.{bytes_of};

    /// A disk with a file of these bytes.
    pub fn new(alloc: Global, bytes: Vec<u8>, failing: List<u64>) -> Self
        ensures { bytes_of result ≡ bytes.items }
    {
        MemoryDisk {
            alloc,
            bytes,
            past: Vec::new(alloc),
            calls: 0,
            failing,
            faults: 0,
        }
    }

    /// The bytes of the file.
    pub fn bytes(&self) -> &[u8]
        ensures { result.now ≡ bytes_of self.now }
    {
        &self.bytes
    }

    /// Whether the next call is to fail; then the fault is counted.
    fn fails(&mut self) -> bool
        ensures bytes { self.new.bytes ≡ self.old.bytes }
        ensures past { self.new.past ≡ self.old.past }
        ensures alloc { self.new.alloc ≡ self.old.alloc }
        ensures faults { self.new.faults ≡ self.old.faults }
    {
        self.calls = self.calls.saturating_add(1);
        self.failing.as_slice().contains(&self.calls)
    }
}

/// These bytes over those of a file, at a place within it or at its end.
fn written(alloc: Global, file: &[u8], place: usize, bytes: &[u8]) -> Result<Vec<u8>, AllocError>
    requires { place ≤ length file.now }
    ensures { IfOk result (λ next. next.items ≡ take place file.now ++ bytes.now ++ drop (place + length bytes.now) file.now) }
{
    let mut next = file[..place].to_vec(alloc)?;
    next.extend_from_slice(bytes)?;
    if bytes.len() < file.len() - place {
        next.extend_from_slice(&file[place + bytes.len()..])?;
    }
    Ok(next)
}

/// Writes over what is there, which it keeps.
fn put(
    alloc: Global,
    file: &mut Vec<u8>,
    past: &mut Vec<Vec<u8>>,
    place: usize,
    bytes: &[u8],
) -> Result<(), AllocError>
    requires { place ≤ length file.old.items }
    ensures ok { OnOk result (file.new.items ≡ take place file.old.items ++ bytes.now ++ drop (place + length bytes.now) file.old.items) }
    ensures err { OnErr result (file.new.items ≡ file.old.items) }
    ensures tears { Follows (Torn place (length bytes.now)) (λ c. c ≡ file.old.items) (λ c. c ≡ file.new.items) }
    ensures past { OnOk result ((v : _) × (v.items ≡ file.old.items) × (past.new.items ≡ past.old.items ++ v ∷ [])) }
    ensures past_err { OnErr result (past.new.items ≡ past.old.items) }
{
    let next = written(alloc, file, place, bytes)?;
    past.push(file.to_vec(alloc)?)?;
    *file = next;
    Ok(())
}

/// Puts these bytes in the place of what is there, which it keeps.
fn put_anew(
    alloc: Global,
    file: &mut Vec<u8>,
    past: &mut Vec<Vec<u8>>,
    bytes: &[u8],
) -> Result<(), AllocError>
    ensures ok { OnOk result (file.new.items ≡ bytes.now) }
    ensures err { OnErr result (file.new.items ≡ file.old.items) }
    ensures past { OnOk result ((v : _) × (v.items ≡ file.old.items) × (past.new.items ≡ past.old.items ++ v ∷ [])) }
    ensures past_err { OnErr result (past.new.items ≡ past.old.items) }
{
    let next = bytes.to_vec(alloc)?;
    past.push(file.to_vec(alloc)?)?;
    *file = next;
    Ok(())
}

impl Disk for MemoryDisk {
    ghost is_told = { λ m. Unit {0} };

    ghost seen = { λ m. m.bytes.items };

    ghost may_leave = { λ m c. c ≡ m.bytes.items };

    ghost moment = { λ m. length m.past.items };

    ghost left_since = { λ m t c. (c ≡ m.bytes.items) ⊎ HadBeen (drop t m.past.items) c };

    ghost faults = { λ m. m.faults };

    ghost leaves_seen = { λ m told. refl };

    ghost counts_now = { λ m t c told le now. inl now };

    ghost only_now = { λ m c told left. only_bytes m.past.items m.bytes.items c left };

    fn len(&mut self) -> Size {
        if self.fails() {
            self.faults = self.faults.saturating_add(1);
            return Size::Failed;
        }
        Size::Is(self.bytes.len() as u64)
    }

    fn read_at(&mut self, place: u64, buf: &mut [u8]) -> Piece {
        if self.fails() {
            self.faults = self.faults.saturating_add(1);
            return Piece::Failed;
        }
        let place = place as usize;
        if place >= self.bytes.len() {
            return Piece::End;
        }
        let n = buf.len().min(self.bytes.len() - place);
        buf[..n].copy_from_slice(&self.bytes[place..place + n]);
        Piece::Got(n)
    }

    fn write_at(&mut self, place: u64, bytes: &[u8]) -> Put {
        let place = place as usize;
        if self.fails() || place > self.bytes.len() {
            self.faults = self.faults.saturating_add(1);
            return Put::Failed;
        }
        match put(self.alloc, &mut self.bytes, &mut self.past, place, bytes) {
            Ok(()) => Put::Done,
            Err(_) => {
                self.faults = self.faults.saturating_add(1);
                Put::Failed
            }
        }
    }

    fn sync(&mut self) -> Put {
        if self.fails() {
            self.faults = self.faults.saturating_add(1);
            return Put::Failed;
        }
        Put::Done
    }

    fn replace(&mut self, bytes: &[u8]) -> Put {
        if self.fails() {
            self.faults = self.faults.saturating_add(1);
            return Put::Failed;
        }
        match put_anew(self.alloc, &mut self.bytes, &mut self.past, bytes) {
            Ok(()) => Put::Done,
            Err(_) => {
                self.faults = self.faults.saturating_add(1);
                Put::Failed
            }
        }
    }
}
