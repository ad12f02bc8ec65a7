//! The text of what the records of a journal make.

ghost use Rattle.std.specs.Prelude.{◌≡◌, ◌≤◌, ℕ, List, length, IfOk, IfErr};
ghost use Rattle.any_game.specs.GameKind.{GameKind};
ghost use Rattle.room_history.specs.declared.call.RoomCall.{RoomCall as Asks};
ghost use Rattle.room_object.specs.Entry.{Entry};
ghost use Rattle.room_journal.specs.Coming.{StandsIn};
ghost use Rattle.journal_replay.specs.Replaying.{IsUnread, Opens, Replays, exit_as};

use crate::room_text::room_text;
use game_sheet::{List, NoMemory};
use journal_bytes::count_records;
use line_runner::Exit;
use room_disk::MemoryDisk;
use room_journal::{KeptBook, OpenNo, open_book};
use std::alloc::Global;

/// The text of what the records of a journal make, or why there is none.
pub(crate) fn journal_text(alloc: Global, bytes: Vec<u8>) -> Result<Vec<u8>, Exit>
    requires { length bytes.items ≤ 268435456 }
    ensures replays { IfOk result (λ text. Replays bytes.items text.items) }
    ensures unread { IfErr result (λ exit. IsUnread bytes.items exit) }
{
    let count = count_records(&bytes);
    let disk = MemoryDisk::new(alloc, bytes, List::new(alloc));
    match open_book(alloc, 0, disk) {
        Ok(book) => book_text(alloc, count, book),
        Err(no) => Err(refused(no)),
    }
}

/// The text of a book that was opened from the bytes of a journal with so many records.
fn book_text(alloc: Global, count: u64, book: KeptBook<MemoryDisk>) -> Result<Vec<u8>, Exit>
    requires { (h : List (Entry (Asks GameKind))) × StandsIn book.object.room book.object.book h }
    ensures replays { (file : List ℕ) → Opens file count book.object → IfOk result (λ text. Replays file text.items) }
    ensures unread { (file : List ℕ) → IfErr result (λ exit. IsUnread file exit) }
{
    let mut kept = book;
    let text = room_text(alloc, count, &mut kept.object);
    drop(kept);
    match text {
        Ok(text) => Ok(text),
        Err(NoMemory) => Err(Exit::NoMemory),
    }
}

/// How a replay ends whose journal isn't opened.
fn refused(no: (OpenNo, MemoryDisk)) -> Exit
    ensures { result ≡ exit_as no.0 }
{
    let (why, disk) = no;
    drop(disk);
    exit_of(why)
}

/// How a replay ends for this reason. A disk in memory fails only where there is no memory.
fn exit_of(no: OpenNo) -> Exit
    ensures { result ≡ exit_as no }
{
    match no {
        OpenNo::Damaged { place } => Exit::BadRecord { place },
        OpenNo::Long => Exit::LongJournal,
        OpenNo::DiskFault | OpenNo::NoMemory => Exit::NoMemory,
    }
}
