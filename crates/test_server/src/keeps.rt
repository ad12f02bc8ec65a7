//! Rooms that are kept on disks in memory: served, and opened again.

ghost use Rattle.std.specs.Prelude.{◌≡◌, [], IfSome, false, vec_len};

use crate::serving::{CREATE, JOIN, LEAVE, NobodyOutside, RENAME, door, readies};
use board_links::{Door, MemorySink, Sink};
use door_serve::ServeEnd;
use game_sheet::{List, NoMemory, Number};
use kept_serve::{ClosedRoom, Shelf, open_rooms, serve_opened};
use link_rounds::Ready;
use object_journal::{OpenNo, Stop};
use room_disk::MemoryDisk;
use std::alloc::Global;
use std::process::Abort;
use std::sync::Wait;
use std::test::Fail;
use std::thread::Threads;

/// The disks of rooms, the last one's first, how often there was none, and the numbers of the rooms that were opened and that could not be.
struct Disks {
    disks: Vec<MemoryDisk>,
    faults: u64,
    opened: u32,
    refused: u32,
}

impl Drop for Disks {
    fn drop(self) {
        let Disks {
            disks,
            faults: _,
            opened: _,
            refused: _,
        } = self;
        drop(disks);
    }
}

impl Shelf for Disks {
    ghost use Rattle.std.specs.Prelude.{None};

    type D = MemoryDisk;

    ghost given = { λ s. None };

    ghost faults = { λ s. s.faults };

    fn disk(&mut self, _room: u8) -> Option<MemoryDisk> {
        let disk = self.disks.pop();
        if disk.is_none() {
            self.faults = self.faults.saturating_add(1);
        }
        disk
    }

    fn opened(&mut self, _room: u8, serial: u64, _number: Option<Number>) {
        if serial > 0 {
            self.opened = self.opened.saturating_add(1);
        }
    }

    fn refused(&mut self, _room: u8, _why: &OpenNo) {
        self.refused = self.refused.saturating_add(1);
    }
}

/// A shelf of one disk, with these bytes, whose calls of these numbers fail.
fn shelf(alloc: Global, bytes: &[u8], failing: &[u64]) -> Result<Disks, NoMemory> {
    let mut disks = Vec::new(alloc);
    disks.push(MemoryDisk::new(
        alloc,
        Vec::from_slice(alloc, bytes)?,
        List::from_slice(alloc, failing)?,
    ))?;
    Ok(Disks {
        disks,
        faults: 0,
        opened: 0,
        refused: 0,
    })
}

/// How serving ended, or why a room wasn't opened.
type Ended = Result<ServeEnd, OpenNo>;

/// Opens one room over this shelf, and serves this door over it at one place: how it ends, and the rooms.
fn hosted<S: Shelf, P: Door + Send, W: Ready<P::L> + Send, K: Sink, R: Threads + Wait + Sync>(
    rt: &R,
    alloc: Global,
    shelf: &mut S,
    readies: Vec<W>,
    door: P,
    sink: &mut K,
) -> (Ended, Vec<ClosedRoom<S::D>>)
where
    S::D: Send,
    P::L: Send,
    requires readies { vec_len readies ≡ 1 }
    requires fresh { (P.given door ≡ 0) × (P.out door ≡ 0) × (P.bots_out door ≡ 0) × (P.shut door ≡ false) }
    requires none_back { IfSome (P.returned door) (λ told. told ≡ []) }
{
    match open_rooms(rt, alloc, shelf, 1, 3) {
        Ok(opened) => {
            let (end, door, closed) = serve_opened(
                rt,
                alloc,
                opened,
                1,
                readies,
                0,
                NobodyOutside,
                1000,
                door,
                sink,
                [0; 32],
            );
            drop(door);
            (Ok(end), closed)
        }
        Err(why) => {
            drop(readies);
            drop(door);
            (Err(why), Vec::new(alloc))
        }
    }
}

/// Serves one room over this shelf, two sessions one after another: how it ends, the rooms, and what was printed.
fn served<R: Threads + Wait + Sync>(
    rt: &R,
    alloc: Global,
    shelf: &mut Disks,
    first: &[&[u8]],
    second: &[&[u8]],
) -> Result<(Ended, Vec<ClosedRoom<MemoryDisk>>, MemorySink), NoMemory> {
    let readies = readies(alloc)?;
    let door = door(alloc, second, first, &[])?;
    let mut sink = MemorySink::new(alloc, List::new(alloc));
    let (end, closed) = hosted(rt, alloc, shelf, readies, door, &mut sink);
    Ok((end, closed, sink))
}

/// Whether the door gave all its links, and the report was printed.
fn is_done(end: &Ended) -> bool {
    matches!(end, Ok(ServeEnd::Done))
}

/// Whether the disk of a room failed when it was opened.
fn is_disk_fault(end: &Ended) -> bool {
    matches!(end, Err(OpenNo::DiskFault))
}

/// Whether a room stopped since a change of it wasn't kept.
fn is_not_kept(room: &ClosedRoom<MemoryDisk>) -> bool {
    matches!(room.stopped, Some(Stop::NotKept { .. }))
}

#[test]
fn a_match_outlasts_its_server(rt: HostRuntime) -> Result<(), NoMemory> {
    let alloc = rt.alloc();
    let mut shelf_1 = shelf(alloc, b"", &[])?;
    let (end, closed, sink) = served(&rt, alloc, &mut shelf_1, &[CREATE, JOIN], &[])?;
    assert!(rt; is_done(&end));
    assert_eq!(rt;
        sink.bytes(),
        b"sessions 2\nroom 0 serial 1 number 0\n".as_slice()
    );
    drop(sink);
    let [room] = closed.as_slice() else {
        panic!(rt; "the room didn't come back")
    };
    let mut shelf_2 = shelf(alloc, room.disk.bytes(), &[])?;
    drop(closed);
    let (end, closed, sink) = served(&rt, alloc, &mut shelf_2, &[LEAVE], &[CREATE])?;
    assert!(rt; is_done(&end));
    assert_eq!(rt; shelf_2.opened, 1);
    // the player left by the key that the first server gave, so another match could be made
    assert_eq!(rt;
        sink.bytes(),
        b"sessions 2\nroom 0 serial 2 number 0\n".as_slice()
    );
    drop(sink);
    drop(closed);
    drop(shelf_1);
    drop(shelf_2);
    Ok(())
}

/// Each of the first 40 calls of the disk fails once. Those of the opening end the run before a link is taken; those of the changes, which are two
/// writes and two syncs each, stop the room.
#[test]
fn a_room_whose_disk_fails_stops(rt: HostRuntime) -> Result<(), NoMemory> {
    let alloc = rt.alloc();
    let mut stops = 0u8;
    for failing in 1..41 {
        let mut shelf_1 = shelf(alloc, b"", &[failing])?;
        let (end, closed, sink) = served(
            &rt,
            alloc,
            &mut shelf_1,
            &[CREATE, JOIN, LEAVE],
            &[CREATE],
        )?;
        if closed.len() == 1 && closed[0].stopped.is_some() {
            assert!(rt; is_done(&end) && is_not_kept(&closed[0]));
            assert_eq!(rt; sink.bytes(), b"sessions 2\nroom 0 stopped\n".as_slice());
            stops = stops.saturating_add(1);
        } else if closed.len() == 0 {
            assert!(rt; is_disk_fault(&end));
            assert_eq!(rt; sink.bytes(), b"".as_slice());
        } else {
            assert!(rt; is_done(&end));
        }
        drop(sink);
        drop(closed);
        drop(shelf_1);
    }
    assert_eq!(rt; stops, 16);
    Ok(())
}

#[test]
fn a_damaged_journal_is_not_served(rt: HostRuntime) -> Result<(), NoMemory> {
    let alloc = rt.alloc();
    let mut shelf_1 = shelf(alloc, b"\x01\x05\0\0\0", &[])?;
    let (end, closed, sink) = served(&rt, alloc, &mut shelf_1, &[CREATE], &[CREATE])?;
    assert!(rt; matches!(end, Err(OpenNo::Damaged { place: 0 })));
    assert_eq!(rt; closed.len(), 0);
    assert_eq!(rt; sink.bytes(), b"".as_slice());
    assert_eq!(rt; shelf_1.refused, 1);
    drop(sink);
    drop(closed);
    drop(shelf_1);
    Ok(())
}

/// How a server over a room with these bytes ends that plays nothing, what it prints, and how many bytes the room has then. The calls of these numbers
/// fail.
fn started<R: Threads + Wait + Sync>(
    rt: &R,
    alloc: Global,
    bytes: &[u8],
    failing: &[u64],
) -> Result<(Ended, MemorySink, usize), NoMemory> {
    let mut shelf = shelf(alloc, bytes, failing)?;
    let (end, closed, sink) = served(rt, alloc, &mut shelf, &[], &[])?;
    drop(shelf);
    let count = match closed.as_slice() {
        [room] => room.disk.bytes().len(),
        _ => 0,
    };
    drop(closed);
    Ok((end, sink, count))
}

/// The records of a match with its create, a join, two renames and a leave have 119, 83, 85, 85 and 71 bytes; those of one that is made and cleared have
/// 127 and 21. Once the file has these alone, it stays.
#[test]
fn a_file_without_a_match_begins_anew(rt: HostRuntime) -> Result<(), NoMemory> {
    let alloc = rt.alloc();
    let mut shelf_1 = shelf(alloc, b"", &[])?;
    let lines = [CREATE, JOIN, RENAME, RENAME, LEAVE];
    let (end, closed, sink) = served(&rt, alloc, &mut shelf_1, &lines, &[])?;
    assert!(rt; is_done(&end));
    drop(sink);
    drop(shelf_1);
    let [room] = closed.as_slice() else {
        panic!(rt; "the room didn't come back")
    };
    assert_eq!(rt; room.disk.bytes().len(), 444);
    let (end, sink, count) = started(&rt, alloc, room.disk.bytes(), &[])?;
    assert!(rt; is_done(&end));
    assert_eq!(rt;
        sink.bytes(),
        b"sessions 2\nroom 0 serial 1 number -\n".as_slice()
    );
    assert_eq!(rt; count, 149);
    drop(sink);
    // after a sync, a length and a read
    let (end, sink, count) = started(&rt, alloc, room.disk.bytes(), &[4])?;
    assert!(rt; is_disk_fault(&end));
    assert_eq!(rt; sink.bytes(), b"".as_slice());
    assert_eq!(rt; count, 0);
    drop(sink);
    drop(closed);
    Ok(())
}
