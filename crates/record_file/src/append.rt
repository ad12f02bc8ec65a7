//! A file of records, and how one more is kept.

ghost use Rattle.std.specs.Prelude.{◌≡◌, ◌+◌, ◌<◌, ◌≤◌, ◌^◌, ◌++◌, ◌∷◌, [], ℕ, List, length};
ghost use Rattle.room_disk.specs.Disk.{LeavesOnly};
ghost use Rattle.record_file.specs.Records.{framed, framed_all, IsBeforeOrAfter, IsSettled, IfDone, HasCause};

use board_links::Put;
use room_disk::Disk;

/// A file that is open at its end.
#[derive(Drop)]
pub struct RecordFile<D: Disk + Drop> {
    pub disk: D,
    /// The place of the gate that ends the records.
    pub end: u64,
}

impl<D: Disk + Drop> RecordFile<D> {
    /// Keeps one more record, given with a closed gate behind it, as `append_all` does.
    pub fn append(&mut self, frame: &[u8]) -> Put
        requires { self.old.end + length frame.now + 1 < 2 ^ 64 }
        ensures kept { (records : List (List ℕ)) (payload : List ℕ) → IsSettled D.is_told D.seen D.may_leave self.old.disk self.old.end records → frame.now ≡ framed payload
            → IfDone result (IsSettled D.is_told D.seen D.may_leave self.new.disk self.new.end (records ++ payload ∷ [])) }
        ensures any_moment { (records : List (List ℕ)) (payload : List ℕ) → IsSettled D.is_told D.seen D.may_leave self.old.disk self.old.end records → frame.now ≡ framed payload
            → LeavesOnly D.moment D.left_since self.old.disk self.new.disk (IsBeforeOrAfter records (payload ∷ [])) }
        ensures told { D.is_told self.old.disk → D.is_told self.new.disk }
        ensures end { self.new.end ≤ self.old.end + length frame.now }
        ensures cause { HasCause result (D.faults self.old.disk) (D.faults self.new.disk) }
    {
        self.append_all(frame)
    }

    /// Keeps more records, given as they stand behind the first one's gate, with a closed gate behind the last. Once this is done, every
    /// crash leaves them all; a crash at any moment leaves the records from before, with all of the new ones or with none.
    pub fn append_all(&mut self, frame: &[u8]) -> Put
        requires { self.old.end + length frame.now + 1 < 2 ^ 64 }
        ensures kept { (records : List (List ℕ)) (payload : List ℕ) (more : List (List ℕ)) → IsSettled D.is_told D.seen D.may_leave self.old.disk self.old.end records → frame.now ≡ framed_all payload more
            → IfDone result (IsSettled D.is_told D.seen D.may_leave self.new.disk self.new.end (records ++ payload ∷ more)) }
        ensures any_moment { (records : List (List ℕ)) (payload : List ℕ) (more : List (List ℕ)) → IsSettled D.is_told D.seen D.may_leave self.old.disk self.old.end records → frame.now ≡ framed_all payload more
            → LeavesOnly D.moment D.left_since self.old.disk self.new.disk (IsBeforeOrAfter records (payload ∷ more)) }
        ensures told { D.is_told self.old.disk → D.is_told self.new.disk }
        ensures end { self.new.end ≤ self.old.end + length frame.now }
        ensures cause { HasCause result (D.faults self.old.disk) (D.faults self.new.disk) }
    {
        let gate = self.end;
        match self.disk.write_at(gate + 1, frame) {
            Put::Done => {}
            Put::Failed => return Put::Failed,
        }
        match self.disk.sync() {
            Put::Done => {}
            Put::Failed => return Put::Failed,
        }
        match self.disk.write_at(gate, &[1]) {
            Put::Done => {}
            Put::Failed => return Put::Failed,
        }
        match self.disk.sync() {
            Put::Done => {}
            Put::Failed => return Put::Failed,
        }
        self.end = gate + frame.len() as u64;
        Put::Done
    }
}
