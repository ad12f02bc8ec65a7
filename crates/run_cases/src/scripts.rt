//! Plays scripts, and worlds where a case's name begins with the word `world`.

use crate::exit::print_end;
use board_links::{MemorySource, WriterSink};
use game_sheet::List;
use std::io;
use world_script::{run_script, run_world};

/// Plays the script or world of a name.
pub fn play_script(rt: &HostRuntime, name: &str, lines: &str) -> io::Result<()> {
    match Vec::from_slice(rt.alloc(), lines.as_bytes()) {
        Ok(bytes) => play(rt, name, MemorySource::new(bytes, List::new(rt.alloc()))),
        Err(_) => println!(rt; "-- no memory"),
    }
}

/// Plays the script or world of a source, by its name.
fn play(rt: &HostRuntime, name: &str, source: MemorySource) -> io::Result<()> {
    let mut source = source;
    let mut sink = WriterSink::new(rt.stdout());
    let exit = if name.starts_with("world ") {
        run_world(rt.alloc(), &mut source, &mut sink)
    } else {
        run_script(rt.alloc(), &mut source, &mut sink)
    };
    drop(sink);
    drop(source);
    print_end(rt, exit)
}
