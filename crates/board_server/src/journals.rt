//! The journals of a server's rooms, one file a room, in a folder.

use crate::journal_file::{JournalDisk, open_journal};
use game_sheet::{Number, Text};
use kept_serve::Shelf;
use object_journal::OpenNo;
use std::io;

/// The journals in a folder, and how many could not be opened. What becomes of each room is said on standard error; a line that can't be written is
/// lost. No clause says which disks it gave.
pub struct Journals {
    rt: HostRuntime,
    folder: Text,
    faults: u64,
}

impl Drop for Journals {
    fn drop(self) {
        let Journals {
            rt: _,
            folder,
            faults: _,
        } = self;
        drop(folder);
    }
}

impl Journals {
    /// Those in this folder.
    pub fn new(rt: HostRuntime, folder: Text) -> Journals {
        Journals {
            rt,
            folder,
            faults: 0,
        }
    }

    /// The disk of a room.
    fn open(&self, room: u8) -> io::Result<JournalDisk> {
        let Ok(path) = format!(in self.rt.alloc(); "{}/room-{room}.journal", self.folder.as_str())
        else {
            return Err(io::Error::from(io::ErrorKind::OutOfMemory));
        };
        open_journal(&self.rt, path)
    }
}

impl Shelf for Journals {
    ghost use Rattle.std.specs.Prelude.{None};

    type D = JournalDisk;

    ghost given = { λ j. None };

    ghost faults = { λ j. j.faults };

    fn disk(&mut self, room: u8) -> Option<JournalDisk> {
        match self.open(room) {
            Ok(disk) => Some(disk),
            Err(error) => {
                let _said = eprintln!(self.rt; "room {room}: {error}");
                drop(error);
                self.faults = self.faults.saturating_add(1);
                None
            }
        }
    }

    fn opened(&mut self, room: u8, serial: u64, number: Option<Number>) {
        if serial == 0 {
            return;
        }
        let _said = match number {
            Some(number) => eprintln!(self.rt; "room {room} serial {serial} number {number}"),
            None => eprintln!(self.rt; "room {room} serial {serial} number -"),
        };
    }

    fn refused(&mut self, room: u8, why: &OpenNo) {
        let _said = match why {
            OpenNo::DiskFault => eprintln!(self.rt; "room {room}: store fault"),
            OpenNo::Long => eprintln!(self.rt; "room {room}: long journal"),
            OpenNo::Damaged { place } => eprintln!(self.rt; "room {room}: bad record {place}"),
            OpenNo::NoMemory => eprintln!(self.rt; "room {room}: no memory"),
        };
    }
}
