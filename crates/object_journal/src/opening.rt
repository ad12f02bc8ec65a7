//! Opens a file of records.

ghost use Rattle.std.specs.Prelude.{◌≡◌, ◌≤◌, [], None, List, ℕ, length, IfOk, IfErr};
ghost use Rattle.room_object.specs.Entry.{Entry};
ghost use Rattle.room_disk.specs.Disk.{LeavesOnly, Only};
ghost use Rattle.record_file.specs.Records.{HasRecords};
ghost use Rattle.object_journal.specs.Opening.{IsOpened, IsRefused, StandsOpen, reason_as};

use crate::kept_object::KeptObject;
use crate::replaying::{OpenNo, Replays};
use crate::scanning::replay_all;
use record_file::{LONGEST, NotReady, RecordFile, ready};
use room_disk::Disk;
use std::alloc::Global;

/// Opens a file that a crash may have left, for an object to which nothing has happened. The object then has the changes of the
/// file's records. It may crash too, at any moment, and then the file has the same records. An error hands the disk back.
pub fn open<O: Replays, D: Disk + Drop>(
    alloc: Global,
    object: O,
    disk: D,
) -> Result<KeptObject<O, D>, (OpenNo, D)>
    requires { O.stands_for object [] }
    ensures opened { D.is_told disk → IfOk result (λ k. (h : List (Entry O.Call)) × IsOpened O.stands_for O.has_come (O.records (O.number object)) (O.may_follow (O.number object)) D.is_told D.seen D.may_leave disk k.object k.file.disk k.file.end k.broken h) }
    ensures stands { IfOk result (λ k. (h : List (Entry O.Call)) × StandsOpen O.stands_for O.has_come (O.records (O.number object)) (O.may_follow (O.number object)) k.object k.file.end k.broken h
        × (D.is_told disk → IsOpened O.stands_for O.has_come (O.records (O.number object)) (O.may_follow (O.number object)) D.is_told D.seen D.may_leave disk k.object k.file.disk k.file.end k.broken h)) }
    ensures number { IfOk result (λ k. O.number k.object ≡ O.number object) }
    ensures never_falls { IfOk result (λ k. D.faults disk ≤ D.faults k.file.disk) }
    ensures refused { IfErr result (λ e. IsRefused (O.may_follow (O.number object)) D.is_told D.seen D.faults disk e.1 e.0) }
    ensures crash { D.is_told disk → Only (D.seen disk) (D.may_leave disk) → (records : List (List ℕ)) → HasRecords (D.seen disk) records
        → IfOk result (λ k. LeavesOnly D.moment D.left_since disk k.file.disk (λ c. HasRecords c records)) }
    ensures crash_err { D.is_told disk → Only (D.seen disk) (D.may_leave disk) → (records : List (List ℕ)) → HasRecords (D.seen disk) records
        → IfErr result (λ e. LeavesOnly D.moment D.left_since disk e.1 (λ c. HasRecords c records)) }
{
    let mut disk = disk;
    let mut object = object;
    let bytes = match ready(alloc, &mut disk) {
        Ok(bytes) => bytes,
        Err(no) => {
            drop(object);
            return Err((reason_of(no), disk));
        }
    };
    if bytes.is_empty() || bytes.len() as u64 > LONGEST {
        // a file that isn't told may have shrunk meanwhile
        drop(object);
        drop(bytes);
        return Err((OpenNo::NoMemory, disk));
    }
    let scanned = replay_all(alloc, &mut object, &bytes);
    drop(bytes);
    match scanned {
        Ok(end) => Ok(KeptObject {
            alloc,
            object,
            file: RecordFile { disk, end },
            broken: None,
        }),
        Err(no) => {
            drop(object);
            Err((no, disk))
        }
    }
}

fn reason_of(no: NotReady) -> OpenNo
    ensures { result ≡ reason_as no }
{
    match no {
        NotReady::DiskFault => OpenNo::DiskFault,
        NotReady::Long => OpenNo::Long,
        NotReady::NoMemory => OpenNo::NoMemory,
    }
}
