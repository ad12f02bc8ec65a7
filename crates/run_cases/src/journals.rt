//! Replays journals, and prints what each holds and how its replay ends.
//!
//! The lines of a case are the payloads of its journal's records. Where the name begins with the word `cut`, the last byte is left out,
//! which is the gate behind the last record.

use crate::exit::print_end;
use board_links::{MemorySource, WriterSink};
use game_sheet::{List, NoMemory};
use journal_replay::replay;
use std::alloc::Global;
use std::io;

/// Replays the journal of a name.
pub fn replay_journal(rt: &HostRuntime, name: &str, rows: &str) -> io::Result<()> {
    match journal_of(rt.alloc(), rows, name.starts_with("cut ")) {
        Ok(bytes) => print_replay(rt, MemorySource::new(bytes, List::new(rt.alloc()))),
        Err(_) => println!(rt; "-- no memory"),
    }
}

/// Replays a journal.
fn print_replay(rt: &HostRuntime, source: MemorySource) -> io::Result<()> {
    let mut source = source;
    let mut sink = WriterSink::new(rt.stdout());
    let exit = replay(rt.alloc(), &mut source, &mut sink);
    drop(sink);
    drop(source);
    print_end(rt, exit)
}

/// The bytes of a journal whose records have these payloads.
fn journal_of(alloc: Global, rows: &str, is_cut: bool) -> Result<Vec<u8>, NoMemory> {
    let mut bytes = Vec::new(alloc);
    for row in rows.lines() {
        if !row.is_empty() {
            put_record(&mut bytes, row.as_bytes())?;
        }
    }
    if !is_cut {
        bytes.push(0)?;
    }
    Ok(bytes)
}

/// Adds a record behind an open gate.
fn put_record(bytes: &mut Vec<u8>, payload: &[u8]) -> Result<(), NoMemory> {
    let Ok(count) = u32::try_from(payload.len()) else {
        return Err(NoMemory);
    };
    bytes.push(1)?;
    bytes.extend_from_slice(&count.to_le_bytes())?;
    bytes.extend_from_slice(payload)?;
    Ok(())
}
