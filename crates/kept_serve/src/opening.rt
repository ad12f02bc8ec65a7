//! Opens the rooms of a server from their journals, all at once.

ghost use Rattle.std.specs.Prelude.{◌≡◌, ◌⊎◌, ◌≤◌, ◌+◌, ◌++◌, ◌∷◌, [], All, IfErr, IfOk, IfSome, List, None, length, map, option_map, vec_len};
ghost use Rattle.object_journal.specs.declared.replaying.OpenNo.TheVariants as open_no;
ghost use Rattle.any_game.specs.AnyRules.{any_rules};
ghost use Rattle.kept_room.specs.Anew.{IsCleared};
ghost use Rattle.kept_room.specs.Journal.{Calls, stands_in};
ghost use Rattle.kept_serve.specs.Anew.{AllBegin, Begins};
ghost use Rattle.object_journal.specs.Opening.{IsRefused};
ghost use Rattle.room_history.specs.Room.{serials, standing};
ghost use Rattle.room_journal.specs.Kept.{may_follow};
ghost use Rattle.kept_serve.specs.Opened.{AreOpened, AreOpenedFrom, IsOpened, IsOpenedFrom, IsRefusedFrom};
ghost use Rattle.kept_serve.specs.Refused.{LacksDisk, WereRefused};
ghost use Rattle.session_pool.specs.Rooms.{numbers};

use crate::opened_room::OpenedRoom;
use crate::shelf::Shelf;
use board_links::Put;
use game_sheet::NoMemory;
use kept_room::{KeptRoom, cleared_bytes, open_hosted};
use object_journal::OpenNo;
use room_disk::Disk;
use std::alloc::Global;
use std::snapshot::Snapshot;
use std::thread;
use std::thread::Threads;

/// A room that is to be opened, and its disk.
#[derive(Drop)]
pub struct Job<D: Disk + Drop> {
    pub(crate) room: u8,
    pub(crate) disk: D,
}

/// Opens the rooms of a server, up to 64 of them, numbered from 0, each from its disk and in a thread of its own, so that no pass below this number
/// is attached anywhere. The first that can't be opened is its error, which **refused** says of; a shelf that has no disk, and whose count of faults has
/// risen, counts as a fault of the disk.
///
/// Where no match stands in a room, and that makes its file at most half as long, the file begins anew with the count of the matches that the room has
/// made. **given** says so: each room was opened from the disk that the shelf gave, or from that disk once this was done.
pub fn open_rooms<S: Shelf, R: Threads + Sync>(
    rt: &R,
    alloc: Global,
    shelf: &mut S,
    rooms: u8,
    passes: u32,
) -> Result<Vec<OpenedRoom<S::D>>, OpenNo>
where
    S::D: Send,
    requires { rooms ≤ 64 }
    ensures opened { IfOk result (λ r. AreOpened S.D.is_told S.D.seen S.D.may_leave S.D.moment S.D.left_since S.D.faults passes rooms r.items) }
    ensures given { IfOk result (λ r. (disks : List S.D) × (S.given shelf.new ≡ option_map (λ before. before ++ disks) (S.given shelf.old))
        × AllBegin S.D.is_told S.D.seen S.D.may_leave S.D.moment S.D.left_since S.D.faults disks r.items) }
    ensures never_falls { S.faults shelf.old ≤ S.faults shelf.new }
    ensures refused { IfErr result (λ why. WereRefused S.D.is_told S.D.seen S.D.faults rooms (S.given shelf.old) (S.given shelf.new) (S.faults shelf.old) (S.faults shelf.new) why) }
{
    let jobs = take_disks(alloc, shelf, rooms)?;
    match open_jobs(rt, alloc, jobs, passes) {
        Ok(results) => gather(alloc, shelf, results),
        Err(NoMemory) => Err(OpenNo::NoMemory),
    }
}

/// The disks of so many rooms.
fn take_disks<S: Shelf>(alloc: Global, shelf: &mut S, rooms: u8) -> Result<Vec<Job<S::D>>, OpenNo>
    requires { rooms ≤ 64 }
    ensures numbered { IfOk result (λ jobs. map (λ j. j.room) jobs.items ≡ numbers 0 rooms) }
    ensures given { IfOk result (λ jobs. S.given shelf.new ≡ option_map (λ before. before ++ map (λ j. j.disk) jobs.items) (S.given shelf.old)) }
    ensures never_falls { S.faults shelf.old ≤ S.faults shelf.new }
    ensures refused { IfErr result (λ why. (disks : List S.D) × (S.given shelf.new ≡ option_map (λ before. before ++ disks) (S.given shelf.old))
        × LacksDisk rooms disks (S.faults shelf.old) (S.faults shelf.new) why) }
{
    let Ok(mut jobs) = Vec::with_capacity(alloc, usize::from(rooms)) else {
        return Err(OpenNo::NoMemory);
    };
    for room in 0..rooms {
        let Some(disk) = shelf.disk(room) else {
            drop(jobs);
            return Err(OpenNo::DiskFault);
        };
        jobs.push_reserved(Job { room, disk });
    }
    Ok(jobs)
}

/// Opens the rooms, each in a thread of its own, and gives what came of each, in their order.
fn open_jobs<D: Disk + Drop + Send, R: Threads + Sync>(
    rt: &R,
    alloc: Global,
    jobs: Vec<Job<D>>,
    passes: u32,
) -> Result<Vec<Result<OpenedRoom<D>, OpenNo>>, NoMemory>
    requires { All (λ j. j.room ≤ 63) jobs.items }
    ensures { IfOk result (λ r. AreOpenedFrom D.is_told D.seen D.may_leave D.moment D.left_since D.faults passes jobs.items r.items) }
{
    let each = |job: Job<D>| -> Result<OpenedRoom<D>, OpenNo>
        requires { job.room ≤ 63 }
        ensures { IfOk result (IsOpenedFrom D.is_told D.seen D.may_leave D.moment D.left_since D.faults passes job)
            × IfErr result (IsRefusedFrom D.is_told D.seen D.may_leave D.moment D.left_since D.faults job) }
    { open_job(alloc, passes, job) };
    let results = thread::map_vec(rt, jobs, &each)?;
    Ok(results)
}

/// Opens a room from its disk. Where no match stands in it, its file begins anew first if that makes it at most half as long.
fn open_job<D: Disk + Drop>(
    alloc: Global,
    passes: u32,
    job: Job<D>,
) -> Result<OpenedRoom<D>, OpenNo>
    requires { job.room ≤ 63 }
    ensures opened { IfOk result (IsOpenedFrom D.is_told D.seen D.may_leave D.moment D.left_since D.faults passes job) }
    ensures refused { IfErr result (IsRefusedFrom D.is_told D.seen D.may_leave D.moment D.left_since D.faults job) }
{
    let Job { room, disk } = job;
    let opened = open_disk(alloc, room, passes, disk)?;
    match bytes_anew(alloc, room, &opened.room) {
        Some(bytes) => begin_anew(alloc, room, passes, opened, &bytes),
        None => Ok(opened),
    }
}

/// Opens a room from the file of a disk, as it is.
fn open_disk<D: Disk + Drop>(
    alloc: Global,
    room: u8,
    passes: u32,
    disk: D,
) -> Result<OpenedRoom<D>, OpenNo>
    requires { room ≤ 63 }
    ensures opened { IfOk result (IsOpened D.is_told D.seen D.may_leave D.moment D.left_since D.faults passes room) }
    ensures start { IfOk result (λ r. r.start.value ≡ disk) }
    ensures refused { IfErr result (λ why. (after : D) × IsRefused (may_follow room) D.is_told D.seen D.faults disk after why) }
{
    let start = Snapshot::of(&disk);
    match open_hosted(alloc, room, passes, disk) {
        Ok(room) => Ok(OpenedRoom { room, start }),
        Err((why, disk)) => {
            drop(disk);
            drop(start);
            Err(why)
        }
    }
}

/// What the file of a room that was opened may begin anew with: the count of its matches. None where a match stands, where there is no memory for the
/// bytes, or where they are more than half of those of the file's records.
fn bytes_anew<D: Disk + Drop>(alloc: Global, room: u8, opened: &KeptRoom<D>) -> Option<Vec<u8>>
    requires { room ≤ 63 }
    ensures cleared { (old : Calls) → stands_in opened.now.object old → opened.now.object.room ≡ room
        → IfSome result (λ bytes. (standing any_rules room old ≡ None) × ((new : Calls) × IsCleared room (serials any_rules room old) bytes.items new)) }
    ensures half { IfSome result (λ bytes. length bytes.items + length bytes.items ≤ opened.now.file.end) }
{
    match opened.object.number() {
        Some(_) => None,
        None => cleared_bytes(alloc, room, opened.object.serial(), opened.file.end / 2),
    }
}

/// Has the file of a room that was opened begin anew with these bytes, and opens it again.
fn begin_anew<D: Disk + Drop>(
    alloc: Global,
    room: u8,
    passes: u32,
    opened: OpenedRoom<D>,
    bytes: &[u8],
) -> Result<OpenedRoom<D>, OpenNo>
    requires room { room ≤ 63 }
    ensures opened { IsOpened D.is_told D.seen D.may_leave D.moment D.left_since D.faults passes room opened → IfOk result (IsOpened D.is_told D.seen D.may_leave D.moment D.left_since D.faults passes room) }
    ensures begins { (o : IsOpened D.is_told D.seen D.may_leave D.moment D.left_since D.faults passes room opened) → (standing any_rules room o.first ≡ None)
        → ((new : Calls) × IsCleared room (serials any_rules room o.first) bytes.now new) → length bytes.now + length bytes.now ≤ opened.room.file.end
        → IfOk result (λ r. Begins D.is_told D.seen D.may_leave D.moment D.left_since D.faults room opened.start.value r.start.value) }
    ensures refused { (o : IsOpened D.is_told D.seen D.may_leave D.moment D.left_since D.faults passes room opened)
        → ((new : Calls) × IsCleared room (serials any_rules room o.first) bytes.now new)
        → IfErr result (λ why. (after : D) × IsRefused (may_follow room) D.is_told D.seen D.faults opened.start.value after why) }
{
    let OpenedRoom { room: kept, start } = opened;
    drop(start);
    let (mut disk, _stopped) = kept.close();
    match disk.replace(bytes) {
        Put::Done => open_disk(alloc, room, passes, disk),
        Put::Failed => {
            drop(disk);
            Err(OpenNo::DiskFault)
        }
    }
}

/// The rooms that were opened, unless one of them wasn't. The shelf is told of each.
fn gather<S: Shelf>(
    alloc: Global,
    shelf: &mut S,
    results: Vec<Result<OpenedRoom<S::D>, OpenNo>>,
) -> Result<Vec<OpenedRoom<S::D>>, OpenNo>
    requires { vec_len results ≤ 64 }
    ensures all { IfOk result (λ r. map Ok r.items ≡ results.items) }
    ensures given { S.given shelf.new ≡ S.given shelf.old }
    ensures never_falls { S.faults shelf.old ≤ S.faults shelf.new }
    ensures refused { IfErr result (λ why. (why ≡ open_no.NoMemory) ⊎ ((before : _) × (after : _) × (results.items ≡ before ++ Err why ∷ after))) }
{
    let Ok(mut rooms) = Vec::with_capacity(alloc, results.len()) else {
        drop(results);
        return Err(OpenNo::NoMemory);
    };
    let mut first = None;
    let mut number = 0;
    for result in results {
        match result {
            Ok(one) => {
                shelf.opened(number, one.room.object.serial(), one.room.object.number());
                rooms.push_reserved(one);
            }
            Err(why) => {
                shelf.refused(number, &why);
                if first.is_none() {
                    first = Some(why);
                }
            }
        }
        number += 1;
    }
    match first {
        None => Ok(rooms),
        Some(why) => {
            drop(rooms);
            Err(why)
        }
    }
}
