//! What is done to a file before its records are read: it is synced, and one of at most one byte begins anew.

ghost use Rattle.std.specs.Prelude.{◌≡◌, ◌≤◌, ◌∷◌, [], ℕ, List, length, IfOk, IfErr, OnOk};
ghost use Rattle.board_links.specs.Faults.{HasRisen};
ghost use Rattle.room_disk.specs.Disk.{AddsNone, LeavesOnly, Only};
ghost use Rattle.record_file.specs.Records.{HasCause, HasRecords, IfDone};
ghost use Rattle.record_file.specs.Ready.{IsFew, IsReady, IsReason};

use crate::reading::{NotRead, read_all};
use board_links::Put;
use room_disk::{Disk, Size};
use std::alloc::Global;

/// The greatest length of a file of records.
pub const LONGEST: u64 = 268_435_456;

/// Why a file isn't ready.
#[derive(Clone, Copy)]
pub enum NotReady {
    /// The disk failed.
    DiskFault,
    /// The file is longer than the greatest length.
    Long,
    /// There was no memory.
    NoMemory,
}

/// The length of a file, once all that it has is on the disk.
fn measured<D: Disk>(disk: &mut D) -> Result<u64, NotReady>
    ensures told { D.is_told disk.old → D.is_told disk.new }
    ensures same { D.is_told disk.old → OnOk result ((D.seen disk.new ≡ D.seen disk.old) × Only (D.seen disk.old) (D.may_leave disk.new)) }
    ensures size { D.is_told disk.old → IfOk result (λ n. n ≡ length (D.seen disk.old)) }
    ensures any_moment { D.is_told disk.old → LeavesOnly D.moment D.left_since disk.old disk.new (D.may_leave disk.old) }
    ensures quiet { OnOk result (D.faults disk.new ≡ D.faults disk.old) }
    ensures cause { IfErr result (λ e. (e ≡ NotReady.DiskFault) × HasRisen (D.faults disk.old) (D.faults disk.new)) }
{
    match disk.sync() {
        Put::Done => {}
        Put::Failed => return Err(NotReady::DiskFault),
    }
    match disk.len() {
        Size::Is(n) => Ok(n),
        Size::Failed => Err(NotReady::DiskFault),
    }
}

/// Begins a file of at most one byte anew: it has one closed gate.
fn begin<D: Disk>(disk: &mut D) -> Put
    ensures told { D.is_told disk.old → D.is_told disk.new }
    ensures begun { D.is_told disk.old → length (D.seen disk.old) ≤ 1 → IfDone result ((D.seen disk.new ≡ 0 ∷ []) × Only (D.seen disk.new) (D.may_leave disk.new)) }
    ensures any_moment { D.is_told disk.old → length (D.seen disk.old) ≤ 1 → Only (D.seen disk.old) (D.may_leave disk.old)
        → LeavesOnly D.moment D.left_since disk.old disk.new IsFew }
    ensures cause { HasCause result (D.faults disk.old) (D.faults disk.new) }
{
    match disk.write_at(0, &[0]) {
        Put::Done => {}
        Put::Failed => return Put::Failed,
    }
    disk.sync()
}

/// The bytes of a file, which has a gate and is all on the disk. A crash at any moment leaves the records that it had.
pub fn ready<D: Disk>(alloc: Global, disk: &mut D) -> Result<Vec<u8>, NotReady>
    ensures told { D.is_told disk.old → D.is_told disk.new }
    ensures bytes { D.is_told disk.old → IfOk result (λ v. IsReady (D.seen disk.old) v.items (D.seen disk.new) (D.may_leave disk.new)) }
    ensures any_moment { D.is_told disk.old → Only (D.seen disk.old) (D.may_leave disk.old) → (records : List (List ℕ)) → HasRecords (D.seen disk.old) records
        → LeavesOnly D.moment D.left_since disk.old disk.new (λ c. HasRecords c records) }
    ensures never_falls { OnOk result (D.faults disk.old ≤ D.faults disk.new) }
    ensures reason { IfErr result (λ e. IsReason (D.is_told disk.old) (length (D.seen disk.old)) (D.faults disk.old) (D.faults disk.new) e) }
{
    let count = match measured(disk) {
        Ok(count) => count,
        Err(no) => return Err(no),
    };
    if count > LONGEST {
        return Err(NotReady::Long);
    }
    if count > 1 {
        return match read_all(alloc, disk, count) {
            Ok(bytes) => Ok(bytes),
            Err(NotRead::DiskFault) => Err(NotReady::DiskFault),
            Err(NotRead::NoMemory) => Err(NotReady::NoMemory),
        };
    }
    let Ok(bytes) = Vec::from_array(alloc, [0]) else {
        return Err(NotReady::NoMemory);
    };
    match begin(disk) {
        Put::Done => Ok(bytes),
        Put::Failed => Err(NotReady::DiskFault),
    }
}
