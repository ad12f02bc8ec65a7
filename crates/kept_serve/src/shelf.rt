//! Where the journals of a server's rooms are.

use game_sheet::Number;
use object_journal::OpenNo;
use room_disk::Disk;

/// The journals of a server's rooms.
pub trait Shelf {
    ghost use Rattle.std.specs.Prelude.{◌≡◌, ◌≤◌, ℕ, List, Option};
    ghost use Rattle.kept_serve.specs.Given.{CountsGiven, with_given};

    /// A disk over the file of one room.
    type D: Disk + Drop;

    /// The disks that it has given, the first one first, if it tells them.
    ghost given: { Self → Option (List Self.D) };

    /// How many times it had no disk for a room; it never falls, and stands still at the last value of 64 bits.
    ghost faults: { Self → ℕ };

    /// The disk of a room; none where it can't be had.
    fn disk(&mut self, room: u8) -> Option<Self::D>
        ensures given { given self.new ≡ with_given result (given self.old) }
        ensures counts { CountsGiven result (faults self.old) (faults self.new) };

    /// Is told that a room was opened, how many matches it has had, and the state number of the match that stands.
    fn opened(&mut self, room: u8, serial: u64, number: Option<Number>)
        ensures given { given self.new ≡ given self.old }
        ensures never_falls { faults self.old ≤ faults self.new };

    /// Is told that a room wasn't opened, and why.
    fn refused(&mut self, room: u8, why: &OpenNo)
        ensures given { given self.new ≡ given self.old }
        ensures never_falls { faults self.old ≤ faults self.new };
}
