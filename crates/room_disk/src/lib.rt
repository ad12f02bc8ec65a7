//! A file as a journal sees it: what a read gives now, and what a crash now may leave. A disk in memory for tests, and a file of the system.
#![tactic(auto)]

mod disk;
mod file;
mod memory;

pub use disk::{Disk, Size};
pub use file::{Begun, FileDisk, Place};
pub use memory::MemoryDisk;
