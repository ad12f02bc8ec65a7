//! A room that keeps its accepted changes in a journal.

ghost use Rattle.std.specs.Prelude.{◌≡◌, None};

use object_journal::Stop;
use record_file::RecordFile;
use room_disk::Disk;
use room_journal::RoomBook;
use std::alloc::Global;

/// A room that keeps its accepted changes in a journal, and why it has stopped, if it has. A room that has stopped leaves its file alone, and
/// makes calls in memory alone; nothing of the line at which it stopped may be handed out.
pub struct KeptRoom<D: Disk + Drop> {
    /// Where its memory comes from.
    pub alloc: Global,
    /// The room's book.
    pub object: RoomBook,
    /// Its journal.
    pub file: RecordFile<D>,
    /// Why the record of a call wasn't kept.
    pub stopped: Option<Stop>,
}

impl<D: Disk + Drop> Drop for KeptRoom<D> {
    fn drop(self) {
        let KeptRoom {
            alloc: _,
            object,
            file,
            stopped: _,
        } = self;
        drop(object);
        drop(file);
    }
}

impl<D: Disk + Drop> KeptRoom<D> {
    /// A room over its journal, which hasn't stopped.
    pub fn new(alloc: Global, object: RoomBook, file: RecordFile<D>) -> Self
        ensures object { result.object ≡ object }
        ensures file { result.file ≡ file }
        ensures whole { result.stopped ≡ None }
    {
        KeptRoom {
            alloc,
            object,
            file,
            stopped: None,
        }
    }

    /// Gives the disk back, and why the room has stopped, if it has.
    pub fn close(self) -> (D, Option<Stop>)
        ensures disk { result.0 ≡ self.file.disk }
        ensures stopped { result.1 ≡ self.stopped }
    {
        let KeptRoom {
            alloc: _,
            object,
            file,
            stopped,
        } = self;
        drop(object);
        let RecordFile { disk, end: _ } = file;
        (disk, stopped)
    }
}
