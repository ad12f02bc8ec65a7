//! Opens a room from its journal.

ghost use Rattle.std.specs.Prelude.{◌≡◌, ◌≤◌, ℕ, None, IfErr, IfOk, true, false};
ghost use Rattle.object_journal.specs.Opening.{IsRefused};
ghost use Rattle.room_journal.specs.Kept.{may_follow};
ghost use Rattle.kept_room.specs.Hosting.{NobodyAfter};
ghost use Rattle.kept_room.specs.Journal.{Calls, stands_in};
ghost use Rattle.kept_room.specs.Opened.{IsOpenedAs, IsOpenedRoom};

use crate::room::KeptRoom;
use object_journal::OpenNo;
use record_file::RecordFile;
use room_disk::Disk;
use room_history::RoomCall;
use room_journal::{KeptBook, RoomBook, open_book};
use std::alloc::Global;
use std::mem;

/// Opens the journal of a room, which is 0 to 63: its book then has the changes of the file's records, made again. An error hands the disk back.
pub fn open_room<D: Disk + Drop>(
    alloc: Global,
    room: u8,
    disk: D,
) -> Result<KeptRoom<D>, (OpenNo, D)>
    requires { room ≤ 63 }
    ensures opened { IfOk result (λ r. (first : Calls) × IsOpenedRoom D.is_told D.seen D.may_leave D.moment D.left_since D.faults room disk first false r
        × (D.is_told disk → IsOpenedRoom D.is_told D.seen D.may_leave D.moment D.left_since D.faults room disk first true r)) }
    ensures keeps { D.is_told disk → IfOk result (λ r. (first : Calls) × IsOpenedRoom D.is_told D.seen D.may_leave D.moment D.left_since D.faults room disk first true r) }
    ensures refused { IfErr result (λ e. IsRefused (may_follow room) D.is_told D.seen D.faults disk e.1 e.0) }
{
    match RoomBook::new(alloc, room) {
        Ok(spare) => match open_book(alloc, room, disk) {
            Ok(kept) => Ok(taken(alloc, kept, spare)),
            Err(refused) => {
                drop(spare);
                Err(refused)
            }
        },
        Err(_) => Err((OpenNo::NoMemory, disk)),
    }
}

/// Opens the journal of a room, which is 0 to 63, for the desk of a server: nobody is attached then by the passes below this number. An error
/// hands the disk back.
pub fn open_hosted<D: Disk + Drop>(
    alloc: Global,
    room: u8,
    passes: u32,
    disk: D,
) -> Result<KeptRoom<D>, (OpenNo, D)>
    requires { room ≤ 63 }
    ensures opened { IfOk result (λ r. (first : Calls) × IsOpenedAs D.is_told D.seen D.may_leave D.moment D.left_since D.faults room disk first r × NobodyAfter room passes first) }
    ensures refused { IfErr result (λ e. IsRefused (may_follow room) D.is_told D.seen D.faults disk e.1 e.0) }
{
    match open_room(alloc, room, disk) {
        Ok(opened) => Ok(emptied(opened, passes)),
        Err(refused) => Err(refused),
    }
}

/// The room, with the passes below this number detached.
fn emptied<D: Disk + Drop>(room: KeptRoom<D>, passes: u32) -> KeptRoom<D>
    requires { (h : Calls) × stands_in room.object h }
    ensures { (number : ℕ) (disk : D) (first : Calls) → IsOpenedAs D.is_told D.seen D.may_leave D.moment D.left_since D.faults number disk first room
        → (after : Calls) × IsOpenedAs D.is_told D.seen D.may_leave D.moment D.left_since D.faults number disk after result × NobodyAfter number passes after }
{
    let mut room = room;
    for pass in 0..passes {
        drop(room.ask_aside(pass, RoomCall::Detach));
    }
    room
}

/// The room of a journal that was opened; another room's book takes the place of its own.
fn taken<D: Disk + Drop>(alloc: Global, kept: KeptBook<D>, spare: RoomBook) -> KeptRoom<D>
    ensures object { result.object ≡ kept.object }
    ensures disk { result.file.disk ≡ kept.file.disk }
    ensures end { result.file.end ≡ kept.file.end }
    ensures whole { result.stopped ≡ None }
{
    let mut kept = kept;
    let object = mem::replace(&mut kept.object, spare);
    let end = kept.file.end;
    let disk = kept.close();
    KeptRoom::new(alloc, object, RecordFile { disk, end })
}
