//! What an object has to tell so that its records can be made again.

use crate::recorded::Recorded;
use std::alloc::Global;

/// Why a file wasn't opened.
#[derive(Clone, Copy)]
pub enum OpenNo {
    /// The disk failed.
    DiskFault,
    /// The file is longer than the greatest length.
    Long,
    /// The file is damaged.
    Damaged {
        /// The place of the first open gate behind which no record stands that may follow those before it.
        place: u64,
    },
    /// There was no memory.
    NoMemory,
}

/// What becomes of a record.
#[derive(Clone, Copy)]
pub enum Replayed {
    /// The object has made its change again.
    Done,
    /// It may not follow the records before it.
    Refused,
    /// There was no memory.
    NoMemory,
}

/// An object that makes the changes of its records again.
pub trait Replays: Recorded {
    ghost use Rattle.std.specs.Prelude.{◌≡◌, [], ℕ, Bool, List};
    ghost use Rattle.room_object.specs.Entry.{Entry};
    ghost use Rattle.object_journal.specs.Replaying.{Replay};

    /// Whether a payload may follow these records of an object of this number.
    ghost may_follow: { ℕ → List (List ℕ) → List ℕ → Bool };

    /// Whether the object has come to a history by records alone.
    ghost has_come: { Self → List (Entry Self.Call) → Type 0 };

    /// Makes the change of a record again.
    fn replay(&mut self, alloc: Global, payload: &[u8]) -> Replayed
        requires { (h : List (Entry Self.Call)) × Self.stands_for self.old h × has_come self.old h }
        ensures number { Self.number self.new ≡ Self.number self.old }
        ensures replays { (h : List (Entry Self.Call)) → Self.stands_for self.old h → has_come self.old h
            → Replay Self.stands_for has_come (Self.records (Self.number self.old)) (may_follow (Self.number self.old)) h payload.now self.new result };

    /// Where nothing has happened, no record was needed.
    ghost fresh: { (object : Self) → Self.stands_for object [] → has_come object [] };
}
