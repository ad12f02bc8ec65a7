//! Calls of a kept object that are made in memory whether their records can be kept or not.

ghost use Rattle.std.specs.Prelude.{◌≡◌, ◌∷◌, ℕ, List, None, Some, true, false};
ghost use Rattle.room_object.specs.Entry.{Entry, entry};
ghost use Rattle.room_disk.specs.Disk.{LeavesOnly};
ghost use Rattle.object_journal.specs.Keeping.{Adds, HasEither, IsKeeping, IsPast};
ghost use Rattle.object_journal.specs.Stopping.{HasCause};
ghost use Rattle.object_journal.specs.declared.performing.Stop.TheVariants as stop;

use crate::kept_object::KeptObject;
use crate::recorded::Recorded;
use board_links::Put;
use record_file::LONGEST;
use room_disk::Disk;

/// Why the record of a call wasn't kept.
#[derive(Clone, Copy)]
pub enum Stop {
    /// There was no memory for its text.
    NoMemory,
    /// It would end past the greatest length.
    Full {
        /// Where its gate would be.
        place: u64,
    },
    /// The disk failed. A crash leaves it whole or not at all.
    NotKept {
        /// The place of its gate.
        place: u64,
    },
}

impl<O: Recorded, D: Disk + Drop> KeptObject<O, D> {
    /// Makes a call of a pass, and keeps its record where it is accepted. Where that isn't done, the reason is told; the call has been made
    /// in memory all the same, and what it is replied may not be handed out.
    pub fn perform(&mut self, pass: u32, call: O::Call) -> (O::Reply, Option<Stop>)
        requires stands { (h : List (Entry O.Call)) × O.stands_for self.old.object h }
        requires in_form { O.is_in_form call }
        ensures number { O.number self.new.object ≡ O.number self.old.object }
        ensures answered { (h : List (Entry O.Call)) → O.stands_for self.old.object h → result.0 ≡ O.reply (O.number self.old.object) h (entry pass call (O.is_starved result.0)) }
        ensures stands { (h : List (Entry O.Call)) → O.stands_for self.old.object h → O.stands_for self.new.object (entry pass call (O.is_starved result.0) ∷ h) }
        ensures fed { O.is_starved result.0 ≡ true → O.may_starve call ≡ true }
        ensures kept { result.1 ≡ None → (h : List (Entry O.Call))
            → IsKeeping O.stands_for (O.records (O.number self.old.object)) D.is_told D.seen D.may_leave self.old.object self.old.file.disk self.old.file.end h
            → IsKeeping O.stands_for (O.records (O.number self.old.object)) D.is_told D.seen D.may_leave self.new.object self.new.file.disk self.new.file.end (entry pass call (O.is_starved result.0) ∷ h) }
        ensures cause { HasCause result.1 self.old.file.end (D.faults self.old.file.disk) (D.faults self.new.file.disk) }
        ensures full { (h : List (Entry O.Call)) (place : ℕ) → O.stands_for self.old.object h → result.1 ≡ Some (stop.Full place) → IsPast self.old.file.end (O.payload_of (O.number self.old.object) h pass call) }
        ensures fits { (h : List (Entry O.Call)) → O.stands_for self.old.object h → result.1 ≡ None → IsPast self.old.file.end (O.payload_of (O.number self.old.object) h pass call) → ⊥ }
        ensures told { D.is_told self.old.file.disk → D.is_told self.new.file.disk }
        ensures crash { (h : List (Entry O.Call))
            → IsKeeping O.stands_for (O.records (O.number self.old.object)) D.is_told D.seen D.may_leave self.old.object self.old.file.disk self.old.file.end h
            → LeavesOnly D.moment D.left_since self.old.file.disk self.new.file.disk
            (HasEither (O.records (O.number self.old.object) h) (O.records (O.number self.old.object) (entry pass call false ∷ h))) }
    {
        match self.object.frame_of(self.alloc, pass, &call) {
            Err(_) => {
                let reply = self.object.apply(pass, call);
                (reply, Some(Stop::NoMemory))
            }
            Ok(None) => {
                let reply = self.object.apply(pass, call);
                (reply, None)
            }
            Ok(Some(frame)) => self.perform_kept(pass, call, frame),
        }
    }

    /// Makes a call that adds this record where it is accepted.
    fn perform_kept(&mut self, pass: u32, call: O::Call, frame: Vec<u8>) -> (O::Reply, Option<Stop>)
        requires stands { (h : List (Entry O.Call)) × O.stands_for self.old.object h }
        requires adds { (h : List (Entry O.Call)) → O.stands_for self.old.object h
            → Adds (O.payload_of (O.number self.old.object) h pass call) (O.records (O.number self.old.object)) (O.reply (O.number self.old.object)) O.is_accepted h pass call (Some frame) }
        ensures number { O.number self.new.object ≡ O.number self.old.object }
        ensures answered { (h : List (Entry O.Call)) → O.stands_for self.old.object h → result.0 ≡ O.reply (O.number self.old.object) h (entry pass call (O.is_starved result.0)) }
        ensures stands { (h : List (Entry O.Call)) → O.stands_for self.old.object h → O.stands_for self.new.object (entry pass call (O.is_starved result.0) ∷ h) }
        ensures fed { O.is_starved result.0 ≡ true → O.may_starve call ≡ true }
        ensures kept { result.1 ≡ None → (h : List (Entry O.Call))
            → IsKeeping O.stands_for (O.records (O.number self.old.object)) D.is_told D.seen D.may_leave self.old.object self.old.file.disk self.old.file.end h
            → IsKeeping O.stands_for (O.records (O.number self.old.object)) D.is_told D.seen D.may_leave self.new.object self.new.file.disk self.new.file.end (entry pass call (O.is_starved result.0) ∷ h) }
        ensures cause { HasCause result.1 self.old.file.end (D.faults self.old.file.disk) (D.faults self.new.file.disk) }
        ensures full { (h : List (Entry O.Call)) (place : ℕ) → O.stands_for self.old.object h → result.1 ≡ Some (stop.Full place) → IsPast self.old.file.end (O.payload_of (O.number self.old.object) h pass call) }
        ensures fits { (h : List (Entry O.Call)) → O.stands_for self.old.object h → result.1 ≡ None → IsPast self.old.file.end (O.payload_of (O.number self.old.object) h pass call) → ⊥ }
        ensures told { D.is_told self.old.file.disk → D.is_told self.new.file.disk }
        ensures crash { (h : List (Entry O.Call))
            → IsKeeping O.stands_for (O.records (O.number self.old.object)) D.is_told D.seen D.may_leave self.old.object self.old.file.disk self.old.file.end h
            → LeavesOnly D.moment D.left_since self.old.file.disk self.new.file.disk
            (HasEither (O.records (O.number self.old.object) h) (O.records (O.number self.old.object) (entry pass call false ∷ h))) }
    {
        let place = self.file.end;
        if place > LONGEST || frame.len() as u64 >= LONGEST - place {
            let reply = self.object.apply(pass, call);
            return (reply, Some(Stop::Full { place }));
        }
        let reply = self.object.apply(pass, call);
        if !O::accepted(&reply) {
            return (reply, None);
        }
        match self.file.append(&frame) {
            Put::Done => (reply, None),
            Put::Failed => {
                self.broken = Some(place);
                (reply, Some(Stop::NotKept { place }))
            }
        }
    }
}
