//! An object over a file of records.

ghost use Rattle.std.specs.Prelude.{◌≡◌, ◌<◌, ◌+◌, ◌∷◌, ℕ, List, None, Some, false};
ghost use Rattle.room_object.specs.Entry.{Entry, entry};
ghost use Rattle.room_disk.specs.Disk.{LeavesOnly};
ghost use Rattle.object_journal.specs.Keeping.{Adds, Answers, BreaksBy, HasEither, IsBrokenBy, IsFullBy, IsKeeping, IsUnlessKept, StandsBy};

use crate::recorded::Recorded;
use board_links::Put;
use record_file::{LONGEST, RecordFile};
use room_disk::Disk;
use std::alloc::Global;

/// What a call comes to.
#[derive(Drop)]
pub enum KeptReply<R> {
    /// A record could not be kept before. The gate of that record is at this place.
    StoreBroken {
        /// The place.
        place: u64,
    },
    /// The record would end past the greatest length. Nothing has changed.
    Full {
        /// Where its gate would be.
        place: u64,
    },
    /// There was no memory. Nothing has changed.
    NoMemory,
    /// The object's reply. Where the call was accepted, its record is kept.
    Replied(R),
    /// The disk failed, and the call isn't acknowledged. A crash leaves its record whole or not at all.
    NotKept {
        /// The place of the record's gate.
        place: u64,
    },
}

/// An object, and the file that has the records of the calls that it accepted.
pub struct KeptObject<O: Recorded, D: Disk + Drop> {
    pub alloc: Global,
    pub object: O,
    pub file: RecordFile<D>,
    /// The place of a record that could not be kept.
    pub broken: Option<u64>,
}

impl<O: Recorded, D: Disk + Drop> Drop for KeptObject<O, D> {
    fn drop(self) {
        let KeptObject {
            alloc: _,
            object,
            file,
            broken: _,
        } = self;
        drop(object);
        drop(file);
    }
}

impl<O: Recorded, D: Disk + Drop> KeptObject<O, D> {
    /// Gives the disk back. What its last calls left open stays open.
    pub fn close(self) -> D
        ensures { result ≡ self.file.disk }
    {
        let KeptObject {
            alloc: _,
            object,
            file,
            broken: _,
        } = self;
        drop(object);
        let RecordFile { disk, end: _ } = file;
        disk
    }

    /// Answers a call of a pass. An accepted call is kept before it is answered.
    pub fn apply(&mut self, pass: u32, call: O::Call) -> KeptReply<O::Reply>
        requires stands { IsUnlessKept self.old.broken ((h : List (Entry O.Call)) × O.stands_for self.old.object h) }
        requires in_form { O.is_in_form call }
        ensures number { O.number self.new.object ≡ O.number self.old.object }
        ensures answered { (h : List (Entry O.Call))
            → IsKeeping O.stands_for (O.records (O.number self.old.object)) D.is_told D.seen D.may_leave self.old.object self.old.file.disk self.old.file.end h
            → Answers O.stands_for (O.records (O.number self.old.object)) (O.reply (O.number self.old.object)) O.is_starved O.is_accepted D.is_told D.seen D.may_leave D.faults
            self.old.object self.old.file.disk self.old.file.end self.old.broken self.new.object self.new.file.disk self.new.file.end self.new.broken h pass call result }
        ensures stands { (h : List (Entry O.Call)) → O.stands_for self.old.object h
            → StandsBy O.stands_for (O.reply (O.number self.old.object)) O.is_starved O.is_accepted self.old.object self.new.object h pass call result }
        ensures broken { IsBrokenBy self.old.broken result }
        ensures breaks { BreaksBy result self.old.file.end self.old.broken self.new.broken (D.faults self.old.file.disk) (D.faults self.new.file.disk) }
        ensures full { (h : List (Entry O.Call)) → O.stands_for self.old.object h → IsFullBy self.old.file.end (O.payload_of (O.number self.old.object) h pass call) result }
        ensures crash { (h : List (Entry O.Call))
            → IsKeeping O.stands_for (O.records (O.number self.old.object)) D.is_told D.seen D.may_leave self.old.object self.old.file.disk self.old.file.end h
            → LeavesOnly D.moment D.left_since self.old.file.disk self.new.file.disk
            (HasEither (O.records (O.number self.old.object) h) (O.records (O.number self.old.object) (entry pass call false ∷ h))) }
        ensures usable { IsUnlessKept self.new.broken ((h : List (Entry O.Call)) × O.stands_for self.new.object h) }
    {
        if let Some(place) = self.broken {
            drop(call);
            return KeptReply::StoreBroken { place };
        }
        match self.object.frame_of(self.alloc, pass, &call) {
            Err(_) => {
                drop(call);
                KeptReply::NoMemory
            }
            Ok(None) => self.answer(pass, call),
            Ok(Some(frame)) => self.keep(pass, call, frame),
        }
    }

    /// Answers a call that adds no record.
    fn answer(&mut self, pass: u32, call: O::Call) -> KeptReply<O::Reply>
        requires whole { self.old.broken ≡ None }
        requires stands { (h : List (Entry O.Call)) × O.stands_for self.old.object h }
        requires adds { (h : List (Entry O.Call)) → O.stands_for self.old.object h
            → Adds (O.payload_of (O.number self.old.object) h pass call) (O.records (O.number self.old.object)) (O.reply (O.number self.old.object)) O.is_accepted h pass call None }
        ensures number { O.number self.new.object ≡ O.number self.old.object }
        ensures answered { (h : List (Entry O.Call))
            → IsKeeping O.stands_for (O.records (O.number self.old.object)) D.is_told D.seen D.may_leave self.old.object self.old.file.disk self.old.file.end h
            → Answers O.stands_for (O.records (O.number self.old.object)) (O.reply (O.number self.old.object)) O.is_starved O.is_accepted D.is_told D.seen D.may_leave D.faults
            self.old.object self.old.file.disk self.old.file.end self.old.broken self.new.object self.new.file.disk self.new.file.end self.new.broken h pass call result }
        ensures stands { (h : List (Entry O.Call)) → O.stands_for self.old.object h
            → StandsBy O.stands_for (O.reply (O.number self.old.object)) O.is_starved O.is_accepted self.old.object self.new.object h pass call result }
        ensures broken { IsBrokenBy self.old.broken result }
        ensures breaks { BreaksBy result self.old.file.end self.old.broken self.new.broken (D.faults self.old.file.disk) (D.faults self.new.file.disk) }
        ensures full { (h : List (Entry O.Call)) → O.stands_for self.old.object h → IsFullBy self.old.file.end (O.payload_of (O.number self.old.object) h pass call) result }
        ensures crash { (h : List (Entry O.Call))
            → IsKeeping O.stands_for (O.records (O.number self.old.object)) D.is_told D.seen D.may_leave self.old.object self.old.file.disk self.old.file.end h
            → LeavesOnly D.moment D.left_since self.old.file.disk self.new.file.disk
            (HasEither (O.records (O.number self.old.object) h) (O.records (O.number self.old.object) (entry pass call false ∷ h))) }
    {
        let reply = self.object.apply(pass, call);
        if O::starved(&reply) {
            drop(reply);
            return KeptReply::NoMemory;
        }
        KeptReply::Replied(reply)
    }

    /// Answers a call that adds this record where it is accepted, once the record is kept.
    fn keep(&mut self, pass: u32, call: O::Call, frame: Vec<u8>) -> KeptReply<O::Reply>
        requires whole { self.old.broken ≡ None }
        requires stands { (h : List (Entry O.Call)) × O.stands_for self.old.object h }
        requires adds { (h : List (Entry O.Call)) → O.stands_for self.old.object h
            → Adds (O.payload_of (O.number self.old.object) h pass call) (O.records (O.number self.old.object)) (O.reply (O.number self.old.object)) O.is_accepted h pass call (Some frame) }
        ensures number { O.number self.new.object ≡ O.number self.old.object }
        ensures answered { (h : List (Entry O.Call))
            → IsKeeping O.stands_for (O.records (O.number self.old.object)) D.is_told D.seen D.may_leave self.old.object self.old.file.disk self.old.file.end h
            → Answers O.stands_for (O.records (O.number self.old.object)) (O.reply (O.number self.old.object)) O.is_starved O.is_accepted D.is_told D.seen D.may_leave D.faults
            self.old.object self.old.file.disk self.old.file.end self.old.broken self.new.object self.new.file.disk self.new.file.end self.new.broken h pass call result }
        ensures stands { (h : List (Entry O.Call)) → O.stands_for self.old.object h
            → StandsBy O.stands_for (O.reply (O.number self.old.object)) O.is_starved O.is_accepted self.old.object self.new.object h pass call result }
        ensures broken { IsBrokenBy self.old.broken result }
        ensures breaks { BreaksBy result self.old.file.end self.old.broken self.new.broken (D.faults self.old.file.disk) (D.faults self.new.file.disk) }
        ensures full { (h : List (Entry O.Call)) → O.stands_for self.old.object h → IsFullBy self.old.file.end (O.payload_of (O.number self.old.object) h pass call) result }
        ensures crash { (h : List (Entry O.Call))
            → IsKeeping O.stands_for (O.records (O.number self.old.object)) D.is_told D.seen D.may_leave self.old.object self.old.file.disk self.old.file.end h
            → LeavesOnly D.moment D.left_since self.old.file.disk self.new.file.disk
            (HasEither (O.records (O.number self.old.object) h) (O.records (O.number self.old.object) (entry pass call false ∷ h))) }
    {
        let place = self.file.end;
        if place > LONGEST || frame.len() as u64 >= LONGEST - place {
            drop(call);
            return KeptReply::Full { place };
        }
        let reply = self.object.apply(pass, call);
        if O::starved(&reply) {
            drop(reply);
            return KeptReply::NoMemory;
        }
        if !O::accepted(&reply) {
            return KeptReply::Replied(reply);
        }
        match self.file.append(&frame) {
            Put::Done => KeptReply::Replied(reply),
            Put::Failed => {
                drop(reply);
                self.broken = Some(place);
                KeptReply::NotKept { place }
            }
        }
    }
}
