//! The outside world behind traits: where bytes come from and where they go, with the faults of each counted.
#![tactic(auto)]

mod door;
mod link;
mod memory;
mod memory_door;
mod memory_link;
mod sink;
mod source;
mod system;

pub use door::{Door, Visit};
pub use link::{Came, Link, Out, SessionEnd, Stage};
pub use memory::{MemorySink, MemorySource};
pub use memory_door::MemoryDoor;
pub use memory_link::{AtEnd, MemoryLink, Scripted};
pub use sink::{Put, Sink};
pub use source::{Piece, Source};
pub use system::{ReaderSource, WriterSink};
