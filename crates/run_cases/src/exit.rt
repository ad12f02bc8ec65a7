//! How a run ends, by its word.

use line_runner::Exit;
use std::io;

/// Prints how a run ended, and a text behind it.
pub fn print_exit(rt: &HostRuntime, exit: Exit, after: &str) -> io::Result<()> {
    match exit {
        Exit::BadLine { line } => print!(rt; "BadLine {{ line: {line} }}{after}"),
        Exit::TooLong { line } => print!(rt; "TooLong {{ line: {line} }}{after}"),
        Exit::BadRecord { place } => print!(rt; "BadRecord {{ place: {place} }}{after}"),
        other => print!(rt; "{}{after}", word_of(other)),
    }
}

fn word_of(exit: Exit) -> &'static str {
    match exit {
        Exit::Done => "Done",
        Exit::Usage => "Usage",
        Exit::ReadFault => "ReadFault",
        Exit::WriteFault => "WriteFault",
        Exit::BadLine { .. } => "BadLine",
        Exit::TooLong { .. } => "TooLong",
        Exit::TooMany => "TooMany",
        Exit::NoMemory => "NoMemory",
        Exit::DoorFault => "DoorFault",
        Exit::LinkFault => "LinkFault",
        Exit::LinkEnded => "LinkEnded",
        Exit::LinkLong => "LinkLong",
        Exit::BadRecord { .. } => "BadRecord",
        Exit::LongJournal => "LongJournal",
        Exit::StoreFault => "StoreFault",
    }
}

/// Prints how a whole run ended, on a line of its own.
pub fn print_end(rt: &HostRuntime, exit: Exit) -> io::Result<()> {
    print!(rt; "-- ")?;
    print_exit(rt, exit, "\n")
}
