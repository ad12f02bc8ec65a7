//! Records in a file on a disk in memory, of which some calls fail: a file is made ready, one record is kept, and then two behind one gate; and a
//! file is replaced.

use board_links::Put;
use game_sheet::{List, NoMemory};
use record_file::{Gate, RecordFile, gate_at, ready};
use room_disk::{Disk, MemoryDisk};
use std::alloc::Global;
use std::test::Fail;

/// A record of the byte `a`, with a closed gate behind it.
const ONE: [u8; 6] = [1, 0, 0, 0, b'a', 0];

/// A record of the bytes `bc` and one of no byte, behind one gate, with a closed gate behind them.
const TWO: [u8; 12] = [2, 0, 0, 0, b'b', b'c', 1, 0, 0, 0, 0, 0];

/// The file that has all three.
const ALL: [u8; 19] = [
    1, 1, 0, 0, 0, b'a', 1, 2, 0, 0, 0, b'b', b'c', 1, 0, 0, 0, 0, 0,
];

fn disk(alloc: Global, bytes: &[u8], failing: &[u64]) -> Result<MemoryDisk, NoMemory> {
    let file = Vec::from_slice(alloc, bytes)?;
    Ok(MemoryDisk::new(alloc, file, List::from_slice(alloc, failing)?))
}

/// How many records were answered, and the disk.
fn kept(alloc: Global, mut disk: MemoryDisk) -> (u32, MemoryDisk) {
    if ready(alloc, &mut disk).is_err() {
        return (0, disk);
    }
    let mut file = RecordFile { disk, end: 0 };
    let mut answered = 0;
    if file.append(&ONE) == Put::Done {
        answered = 1;
        if file.append_all(&TWO) == Put::Done {
            answered = 3;
        }
    }
    let RecordFile { disk, end: _ } = file;
    (answered, disk)
}

/// How many records a file has, of which at most four are counted.
fn count(bytes: &[u8]) -> u32 {
    let mut rest = bytes;
    let mut records = 0;
    for before in 0..4 {
        if rest.is_empty() || rest.len() > 100 {
            break;
        }
        let Gate::Record { count } = gate_at(rest) else {
            break;
        };
        rest = &rest[5 + count..];
        records = before + 1;
    }
    records
}

/// How many records were answered where the call of this number fails, and how many the file then has.
fn with_failing(alloc: Global, call: u64) -> Result<(u32, u32), NoMemory> {
    let (answered, disk) = kept(alloc, disk(alloc, &[], &[call])?);
    let records = count(disk.bytes());
    Ok((answered, records))
}

#[test]
fn records_stand_one_after_another(rt: HostRuntime) -> Result<(), Fail> {
    let alloc = rt.alloc();
    let (answered, disk) = kept(alloc, disk(alloc, &[], &[])?);
    assert!(rt; answered == 3 && disk.bytes() == ALL.as_slice());
    Ok(())
}

#[test]
fn a_file_that_is_ready_is_read_whole(rt: HostRuntime) -> Result<(), Fail> {
    let alloc = rt.alloc();
    let mut disk = disk(alloc, &ALL, &[])?;
    let is_read = match ready(alloc, &mut disk) {
        Ok(bytes) => bytes.as_slice() == ALL.as_slice(),
        Err(_) => false,
    };
    assert!(rt; is_read && count(disk.bytes()) == 3);
    Ok(())
}

/// The calls are those of making the file ready, four of the first record, and four of the other two.
#[test]
fn a_failing_call_leaves_all_that_was_answered(rt: HostRuntime) -> Result<(), Fail> {
    let rows = [
        (1, (0, 0)),
        (2, (0, 0)),
        (3, (0, 0)),
        (4, (0, 0)),
        (5, (0, 0)),
        (6, (0, 0)),
        (7, (0, 0)),
        (8, (0, 1)),
        (9, (1, 1)),
        (10, (1, 1)),
        (11, (1, 1)),
        (12, (1, 3)),
        (13, (3, 3)),
    ];
    for (call, want) in rows {
        let got = with_failing(rt.alloc(), call)?;
        assert!(rt; got == want, "call {call}");
    }
    Ok(())
}

#[test]
fn a_file_is_replaced_or_stays(rt: HostRuntime) -> Result<(), Fail> {
    let alloc = rt.alloc();
    let mut disk = disk(alloc, &ALL, &[1])?;
    let failed = disk.replace(&ONE) == Put::Failed && disk.bytes() == ALL.as_slice();
    let done = disk.replace(&ONE) == Put::Done && disk.bytes() == ONE.as_slice();
    assert!(rt; failed && done);
    Ok(())
}
