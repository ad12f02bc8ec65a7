//! Runs scripts over a room whose changes are kept on a disk in memory, and prints how they end and what the disk then has.
//!
//! A case's name begins with a word for how it is run: `faults`, `again` or `cut`. Its lines are those of a script.
//!
//! Of `faults` the script is run on an empty disk whose call of number 1 fails, then on one whose call of number 2 fails, and so on until none
//! does. For each it is printed how the run ended, how many lines it printed, and what `replay` says of the records that the disk has.
//!
//! Of `again` the script has a second part behind a line `--`. It is run as a whole on one disk; and on another disk its first part, and then,
//! with the file opened again, its second part. It is printed whether both printed the same.
//!
//! Of `cut` the last byte of the file is gone when it is opened again.

use crate::exit::print_exit;
use board_links::{MemorySink, MemorySource};
use case_rows::{split_head, split_word};
use game_sheet::{List, NoMemory};
use journal_replay::replay;
use kept_script::run_kept;
use line_runner::Exit;
use room_disk::MemoryDisk;
use std::alloc::Global;
use std::io;

/// More device calls than a case makes.
const MOST_CALLS: u64 = 1_000;

/// Runs the script of a case as its name says.
pub fn run_on_disks(rt: &HostRuntime, name: &str, script: &str) -> io::Result<()> {
    match split_word(name).0 {
        "faults" => run_faults(rt, script),
        "again" => run_again(rt, script),
        "cut" => run_cut(rt, script),
        _ => println!(rt; "-- in no form"),
    }
}

/// What a run came to: how it ended, what it printed, and its disk.
#[derive(Drop)]
struct Ran {
    exit: Exit,
    printed: MemorySink,
    disk: MemoryDisk,
}

/// Runs a script.
fn run(alloc: Global, script: &str, disk: MemoryDisk) -> Result<Ran, NoMemory> {
    let bytes = Vec::from_slice(alloc, script.as_bytes())?;
    let mut source = MemorySource::new(bytes, List::new(alloc));
    let mut printed = MemorySink::new(alloc, List::new(alloc));
    let (exit, disk) = run_kept(alloc, &mut source, &mut printed, disk);
    drop(source);
    Ok(Ran {
        exit,
        printed,
        disk,
    })
}

/// An empty disk whose call of a number fails.
fn failing_disk(alloc: Global, call: u64) -> Result<MemoryDisk, NoMemory> {
    Ok(MemoryDisk::new(alloc, Vec::new(alloc), List::from_slice(alloc, &[call])?))
}

/// A disk with these bytes.
fn disk_of(alloc: Global, bytes: &[u8]) -> Result<MemoryDisk, NoMemory> {
    Ok(MemoryDisk::new(alloc, Vec::from_slice(alloc, bytes)?, List::new(alloc)))
}

/// How many lines a sink has.
fn count_lines(sink: &MemorySink) -> usize {
    sink.bytes().iter().filter(|b| **b == b'\n').count()
}

/// Runs a script on disks whose calls fail, one after the other.
fn run_faults(rt: &HostRuntime, script: &str) -> io::Result<()> {
    for call in 1..MOST_CALLS {
        let Ok(ran) = failing(rt.alloc(), script, call) else {
            return println!(rt; "-- no memory");
        };
        let exit = ran.exit;
        let lines = count_lines(&ran.printed);
        print_lines(rt, call, exit, lines)?;
        print_records(rt, &ran.disk)?;
        drop(ran);
        if exit != Exit::StoreFault {
            break;
        }
    }
    Ok(())
}

/// Prints how a run ended whose call of a number failed, and how many lines it printed.
fn print_lines(rt: &HostRuntime, call: u64, exit: Exit, lines: usize) -> io::Result<()> {
    print!(rt; "{call} ")?;
    print_exit(rt, exit, ", ")?;
    println!(rt; "{lines} lines")
}

/// Runs a script on an empty disk whose call of a number fails.
fn failing(alloc: Global, script: &str, call: u64) -> Result<Ran, NoMemory> {
    let disk = failing_disk(alloc, call)?;
    run(alloc, script, disk)
}

/// Prints how many records a disk has, as `replay` says.
fn print_records(rt: &HostRuntime, disk: &MemoryDisk) -> io::Result<()> {
    let Ok(bytes) = Vec::from_slice(rt.alloc(), disk.bytes()) else {
        return println!(rt; "-- no memory");
    };
    let mut source = MemorySource::new(bytes, List::new(rt.alloc()));
    let mut sink = MemorySink::new(rt.alloc(), List::new(rt.alloc()));
    let exit = replay(rt.alloc(), &mut source, &mut sink);
    drop(source);
    print_said(rt, exit, first_line(sink.bytes()))
}

fn print_said(rt: &HostRuntime, exit: Exit, said: &str) -> io::Result<()> {
    print!(rt; "  ")?;
    print_exit(rt, exit, ", ")?;
    println!(rt; "{said}")
}

/// The first line of some bytes, without its newline.
fn first_line(bytes: &[u8]) -> &str {
    match std::str::from_utf8(bytes) {
        Ok(text) => split_head(text).0,
        Err(_) => "",
    }
}

/// Runs a script whose second part comes after the file was opened again, and says whether that shows.
fn run_again(rt: &HostRuntime, rows: &str) -> io::Result<()> {
    let Some((first, second)) = rows.split_once("\n--\n") else {
        return println!(rt; "-- no second part");
    };
    match ran_again(rt.alloc(), first, second) {
        Ok((whole, before, after)) => {
            let same = is_same(&whole, &before, &after);
            let (one, two, three) = (whole.exit, before.exit, after.exit);
            print_same(rt, one, two, three, same)?;
            print_records(rt, &after.disk)?;
            drop(whole);
            drop(before);
            drop(after);
            Ok(())
        }
        Err(_) => println!(rt; "-- no memory"),
    }
}

/// Prints how the run of both parts and those of each ended, and whether they printed the same.
fn print_same(
    rt: &HostRuntime,
    whole: Exit,
    before: Exit,
    after: Exit,
    same: bool,
) -> io::Result<()> {
    print_exit(rt, whole, ", ")?;
    print_exit(rt, before, ", ")?;
    print_exit(rt, after, ", the same: ")?;
    println!(rt; "{same}")
}

/// The run of both parts together, of the first part alone, and of the second over the first one's disk.
fn ran_again(alloc: Global, first: &str, second: &str) -> Result<(Ran, Ran, Ran), NoMemory> {
    let script = format!(in alloc; "{first}\n{second}")?;
    let whole = run(alloc, script.as_str(), disk_of(alloc, &[])?)?;
    let before = run(alloc, first, disk_of(alloc, &[])?)?;
    let after = run(alloc, second, disk_of(alloc, before.disk.bytes())?)?;
    Ok((whole, before, after))
}

/// Whether a run printed what two others did, one after the other.
fn is_same(whole: &Ran, before: &Ran, after: &Ran) -> bool {
    let all = whole.printed.bytes();
    let first = before.printed.bytes();
    all.starts_with(first)
        && all.ends_with(after.printed.bytes())
        && all.len() - first.len() == after.printed.bytes().len()
}

/// Runs a script, and then nothing over its file without the last byte.
fn run_cut(rt: &HostRuntime, script: &str) -> io::Result<()> {
    match ran_cut(rt.alloc(), script) {
        Ok(ran) => {
            let exit = ran.exit;
            drop(ran);
            print_exit(rt, exit, "\n")
        }
        Err(_) => println!(rt; "-- no memory"),
    }
}

/// The run over a file without its last byte.
fn ran_cut(alloc: Global, script: &str) -> Result<Ran, NoMemory> {
    let whole = run(alloc, script, disk_of(alloc, &[])?)?;
    let bytes = whole.disk.bytes();
    let short = if bytes.is_empty() {
        bytes
    } else {
        &bytes[..bytes.len() - 1]
    };
    run(alloc, "", disk_of(alloc, short)?)
}
