//! Reads a file whole.

ghost use Rattle.std.specs.Prelude.{◌≡◌, IfOk, IfErr, OnOk, length};
ghost use Rattle.room_disk.specs.Disk.{AddsNone, LeavesOnly};
ghost use Rattle.record_file.specs.Gates.{IsCause};

use board_links::Piece;
use room_disk::Disk;
use std::alloc::Global;

/// Why a file wasn't read.
#[derive(Clone, Copy)]
pub enum NotRead {
    /// The disk failed.
    DiskFault,
    /// There was no memory.
    NoMemory,
}

/// The bytes of a file of so many bytes.
pub fn read_all<D: Disk>(alloc: Global, disk: &mut D, count: u64) -> Result<Vec<u8>, NotRead>
    ensures bytes { D.is_told disk.old → count ≡ length (D.seen disk.old) → IfOk result (λ v. v.items ≡ D.seen disk.old) }
    ensures told { D.is_told disk.old → D.is_told disk.new }
    ensures same { D.is_told disk.old → D.seen disk.new ≡ D.seen disk.old }
    ensures any_moment { D.is_told disk.old → LeavesOnly D.moment D.left_since disk.old disk.new (D.may_leave disk.old) }
    ensures adds_none { D.is_told disk.old → AddsNone (D.may_leave disk.old) (D.may_leave disk.new) }
    ensures cause { IfErr result (λ e. IsCause e (D.faults disk.old) (D.faults disk.new)) }
    ensures quiet { OnOk result (D.faults disk.new ≡ D.faults disk.old) }
{
    let mut bytes = Vec::new(alloc);
    let mut room = [0; 4096];
    'file: while (bytes.len() as u64) < count {
        match disk.read_at(bytes.len() as u64, &mut room) {
            Piece::Got(n) => match bytes.extend_from_slice(&room[..n]) {
                Ok(()) => {}
                Err(_) => return Err(NotRead::NoMemory),
            },
            Piece::End => return Ok(bytes),
            Piece::Failed => return Err(NotRead::DiskFault),
        }
    }
    Ok(bytes)
}
