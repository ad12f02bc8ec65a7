//! Opens a room's journal.

ghost use Rattle.std.specs.Prelude.{◌≡◌, ◌≤◌, [], List, ℕ, IfOk, IfErr};
ghost use Rattle.any_game.specs.GameKind.{GameKind};
ghost use Rattle.object_journal.specs.Opening.{IsOpened, IsRefused, StandsOpen};
ghost use Rattle.record_file.specs.Records.{HasRecords};
ghost use Rattle.room_disk.specs.Disk.{LeavesOnly, Only};
ghost use Rattle.room_history.specs.declared.call.RoomCall.{RoomCall as Asks};
ghost use Rattle.room_object.specs.Entry.{Entry};
ghost use Rattle.room_journal.specs.Coming.{ReadsBack, StandsIn};
ghost use Rattle.room_journal.specs.Kept.{may_follow, room_records};

use crate::room_book::RoomBook;
use object_journal::{KeptObject, OpenNo, open};
use room_disk::Disk;
use std::alloc::Global;

/// Opens the journal of a room, which is 0 to 63. The book then has the changes of the file's records, made again by its own calls.
/// It may crash too, at any moment, and then the file has the same records. An error hands the disk back.
pub fn open_book<D: Disk + Drop>(
    alloc: Global,
    room: u8,
    disk: D,
) -> Result<KeptObject<RoomBook, D>, (OpenNo, D)>
    requires { room ≤ 63 }
    ensures opened { D.is_told disk → IfOk result (λ k. (h : List (Entry (Asks GameKind))) × IsOpened (λ b h. StandsIn b.room b.book h) (λ b h. ReadsBack room h) (room_records room) (may_follow room) D.is_told D.seen D.may_leave disk k.object k.file.disk k.file.end k.broken h) }
    ensures stands { IfOk result (λ k. (h : List (Entry (Asks GameKind))) × StandsOpen (λ b h. StandsIn b.room b.book h) (λ b h. ReadsBack room h) (room_records room) (may_follow room) k.object k.file.end k.broken h
        × (D.is_told disk → IsOpened (λ b h. StandsIn b.room b.book h) (λ b h. ReadsBack room h) (room_records room) (may_follow room) D.is_told D.seen D.may_leave disk k.object k.file.disk k.file.end k.broken h)) }
    ensures room { IfOk result (λ k. k.object.room ≡ room) }
    ensures never_falls { IfOk result (λ k. D.faults disk ≤ D.faults k.file.disk) }
    ensures refused { IfErr result (λ e. IsRefused (may_follow room) D.is_told D.seen D.faults disk e.1 e.0) }
    ensures crash { D.is_told disk → Only (D.seen disk) (D.may_leave disk) → (records : List (List ℕ)) → HasRecords (D.seen disk) records
        → IfOk result (λ k. LeavesOnly D.moment D.left_since disk k.file.disk (λ c. HasRecords c records)) }
    ensures crash_err { D.is_told disk → Only (D.seen disk) (D.may_leave disk) → (records : List (List ℕ)) → HasRecords (D.seen disk) records
        → IfErr result (λ e. LeavesOnly D.moment D.left_since disk e.1 (λ c. HasRecords c records)) }
{
    match RoomBook::new(alloc, room) {
        Ok(book) => open_for(alloc, book, disk),
        Err(_) => Err((OpenNo::NoMemory, disk)),
    }
}

/// Opens a journal for a room's book in which nothing has happened, and detaches the passes that made its actions again.
fn open_for<D: Disk + Drop>(
    alloc: Global,
    book: RoomBook,
    disk: D,
) -> Result<KeptObject<RoomBook, D>, (OpenNo, D)>
    requires { StandsIn book.room book.book [] }
    ensures opened { D.is_told disk → IfOk result (λ k. (h : List (Entry (Asks GameKind))) × IsOpened (λ b h. StandsIn b.room b.book h) (λ b h. ReadsBack book.room h) (room_records book.room) (may_follow book.room) D.is_told D.seen D.may_leave disk k.object k.file.disk k.file.end k.broken h) }
    ensures stands { IfOk result (λ k. (h : List (Entry (Asks GameKind))) × StandsOpen (λ b h. StandsIn b.room b.book h) (λ b h. ReadsBack book.room h) (room_records book.room) (may_follow book.room) k.object k.file.end k.broken h
        × (D.is_told disk → IsOpened (λ b h. StandsIn b.room b.book h) (λ b h. ReadsBack book.room h) (room_records book.room) (may_follow book.room) D.is_told D.seen D.may_leave disk k.object k.file.disk k.file.end k.broken h)) }
    ensures room { IfOk result (λ k. k.object.room ≡ book.room) }
    ensures never_falls { IfOk result (λ k. D.faults disk ≤ D.faults k.file.disk) }
    ensures refused { IfErr result (λ e. IsRefused (may_follow book.room) D.is_told D.seen D.faults disk e.1 e.0) }
    ensures crash { D.is_told disk → Only (D.seen disk) (D.may_leave disk) → (records : List (List ℕ)) → HasRecords (D.seen disk) records
        → IfOk result (λ k. LeavesOnly D.moment D.left_since disk k.file.disk (λ c. HasRecords c records)) }
    ensures crash_err { D.is_told disk → Only (D.seen disk) (D.may_leave disk) → (records : List (List ℕ)) → HasRecords (D.seen disk) records
        → IfErr result (λ e. LeavesOnly D.moment D.left_since disk e.1 (λ c. HasRecords c records)) }
{
    match open(alloc, book, disk) {
        Ok(kept) => {
            let mut kept = kept;
            kept.object.release();
            Ok(kept)
        }
        Err(no) => Err(no),
    }
}
