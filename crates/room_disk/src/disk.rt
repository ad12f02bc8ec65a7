//! A disk that may crash.

ghost use Rattle.std.specs.Prelude.{◌≡◌, ◌≤◌, ◌<◌, length};

use board_links::{Piece, Put};

/// How long a file is.
#[derive(Clone, Copy)]
pub enum Size {
    /// It has so many bytes.
    Is(u64),
    /// The call failed, and the count of faults rose.
    Failed,
}

/// One file on a disk that may crash at any moment, during a call or between two.
pub trait Disk {
    ghost use Rattle.std.specs.Prelude.{ℕ, List};
    ghost use Rattle.board_links.specs.Pieces.{HasSize, ReadRaises, WriteRaises};
    ghost use Rattle.room_disk.specs.Disk.{AddsNone, Elapses, Follows, LeavesOr, ReadsAt, Replaces, Settles, SizeRaises, Sizes, Torn, WritesAt};

    /// Whether the file goes by the model of a disk. Of a real file nothing can be told, so nothing is: its adapter says that it never does.
    ghost is_told: { Self → Type 0 };

    /// What a read gives.
    ghost seen: { Self → List ℕ };

    /// What a crash now may leave.
    ghost may_leave: { Self → List ℕ → Type 0 };

    /// The moment, as a number that never falls.
    ghost moment: { Self → ℕ };

    /// What a crash at some moment since that one may have left.
    ghost left_since: { Self → ℕ → List ℕ → Type 0 };

    /// How many calls have failed.
    ghost faults: { Self → ℕ };

    /// How long the file is.
    fn len(&mut self) -> Size
        ensures size { is_told self.old → Sizes result (seen self.old) }
        ensures same { is_told self.old → seen self.new ≡ seen self.old }
        ensures crash { is_told self.old → AddsNone (may_leave self.old) (may_leave self.new) }
        ensures told { is_told self.old → is_told self.new }
        ensures time { is_told self.old → Elapses (moment self.old) (moment self.new) (left_since self.old) (left_since self.new) (may_leave self.new) }
        ensures raises { SizeRaises result (faults self.old) (faults self.new) };

    /// Puts bytes of the file, from this place on, at the beginning of `buf`: 1 to as many as it has room for.
    fn read_at(&mut self, place: u64, buf: &mut [u8]) -> Piece
        requires { 0 < length buf.old }
        ensures size { HasSize result (length buf.new) }
        ensures read { is_told self.old → ReadsAt result place (seen self.old) buf.new }
        ensures same { is_told self.old → seen self.new ≡ seen self.old }
        ensures crash { is_told self.old → AddsNone (may_leave self.old) (may_leave self.new) }
        ensures told { is_told self.old → is_told self.new }
        ensures time { is_told self.old → Elapses (moment self.old) (moment self.new) (left_since self.old) (left_since self.new) (may_leave self.new) }
        ensures raises { ReadRaises result (faults self.old) (faults self.new) };

    /// Writes over what is there, and past the end. Until a sync, a crash may leave any bytes in the range.
    fn write_at(&mut self, place: u64, bytes: &[u8]) -> Put
        ensures written { is_told self.old → WritesAt result place bytes.now (seen self.old) (seen self.new) }
        ensures crash { is_told self.old → Follows (Torn place (length bytes.now)) (may_leave self.old) (may_leave self.new) }
        ensures told { is_told self.old → is_told self.new }
        ensures time { is_told self.old → Elapses (moment self.old) (moment self.new) (left_since self.old) (left_since self.new) (may_leave self.new) }
        ensures raises { WriteRaises result (faults self.old) (faults self.new) };

    /// Once it is done, a crash leaves what a read gives.
    fn sync(&mut self) -> Put
        ensures durable { is_told self.old → Settles result (seen self.old) (seen self.new) (may_leave self.new) }
        ensures crash { is_told self.old → AddsNone (may_leave self.old) (may_leave self.new) }
        ensures told { is_told self.old → is_told self.new }
        ensures time { is_told self.old → Elapses (moment self.old) (moment self.new) (left_since self.old) (left_since self.new) (may_leave self.new) }
        ensures raises { WriteRaises result (faults self.old) (faults self.new) };

    /// Has the file hold these bytes and no others, all of them on the disk. A crash leaves what it may have left before, or these bytes, never a mix.
    fn replace(&mut self, bytes: &[u8]) -> Put
        ensures replaced { is_told self.old → Replaces result bytes.now (seen self.new) (may_leave self.new) }
        ensures crash { is_told self.old → LeavesOr bytes.now (may_leave self.old) (may_leave self.new) }
        ensures told { is_told self.old → is_told self.new }
        ensures time { is_told self.old → Elapses (moment self.old) (moment self.new) (left_since self.old) (left_since self.new) (may_leave self.new) }
        ensures raises { WriteRaises result (faults self.old) (faults self.new) };

    /// What a read gives is among what a crash may leave.
    ghost leaves_seen: { (disk : Self) → is_told disk → may_leave disk (seen disk) };

    /// This moment is one of those since an earlier one.
    ghost counts_now: { (disk : Self) (t : ℕ) (c : List ℕ) → is_told disk → t ≤ moment disk → may_leave disk c → left_since disk t c };

    /// Since this moment there is no other.
    ghost only_now: { (disk : Self) (c : List ℕ) → is_told disk → left_since disk (moment disk) c → may_leave disk c };
}
