//! A room of a server that was opened from its journal, and one that was closed.

use kept_room::KeptRoom;
use object_journal::Stop;
use room_disk::Disk;
use std::snapshot::Snapshot;

/// A room that was opened from its journal, and the disk as it was before it was read.
#[derive(Drop)]
pub struct OpenedRoom<D: Disk + Drop> {
    /// The room.
    pub room: KeptRoom<D>,
    /// The disk.
    pub start: Snapshot<D>,
}

/// What is left of a room that was closed.
#[derive(Drop)]
pub struct ClosedRoom<D: Disk + Drop> {
    /// Its disk.
    pub disk: D,
    /// Why it had stopped, if it had.
    pub stopped: Option<Stop>,
}
