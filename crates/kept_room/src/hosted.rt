//! A room that keeps its changes, as a server has it behind a desk.

ghost use Rattle.std.specs.Prelude.{◌≡◌, ◌∷◌, ℕ, true};
ghost use Rattle.kept_room.specs.Journal.{Calls};
ghost use Rattle.kept_room.specs.Hosting.{IsOpenedBy, NobodyAfter, StandsFrom};

use crate::form::{is_aside, is_detach};
use crate::origin::Origin;
use crate::room::KeptRoom;
use any_game::AnyGame;
use game_sheet::Number;
use hosted_room::HostedRoom;
use object_journal::Stop;
use room_disk::Disk;
use room_history::{RoomCall, RoomReply};
use room_object::Object;
use std::marker::PhantomData;

/// A room that keeps its changes, for a desk. What its rooms were opened from is that of `K`.
///
/// A change is answered only once it is on the disk. Where a change can't be kept the room stops for good: that change and every later call
/// but a Detach are answered by want of memory, and its file is left alone. So whatever reply was handed out, from that moment on a crash
/// leaves at least the changes up to it.
pub struct HostedKept<K, D: Disk + Drop> {
    room: KeptRoom<D>,
    origin: PhantomData<K>,
}

impl<K, D: Disk + Drop> Drop for HostedKept<K, D> {
    fn drop(self) {
        let HostedKept { room, origin: _ } = self;
        drop(room);
    }
}

impl<K: Origin<D>, D: Disk + Drop> HostedKept<K, D> {
    /// A room that was just opened, for a desk.
    pub fn new(room: KeptRoom<D>) -> Self
        ensures number { result.room.object.room ≡ room.object.room }
        ensures stands { (passes : ℕ) (past : Calls) → IsOpenedBy D.is_told D.seen D.may_leave D.moment D.left_since D.faults room.object.room passes past (K.start room.object.room) room
            → StandsFrom D.is_told D.seen D.may_leave D.moment D.left_since D.faults result.room.object.room (K.start result.room.object.room) result.room past }
        ensures nobody { (passes : ℕ) (past h : Calls) → IsOpenedBy D.is_told D.seen D.may_leave D.moment D.left_since D.faults room.object.room passes past (K.start room.object.room) room
            → StandsFrom D.is_told D.seen D.may_leave D.moment D.left_since D.faults result.room.object.room (K.start result.room.object.room) result.room h
            → NobodyAfter result.room.object.room passes h }
    {
        HostedKept {
            room,
            origin: PhantomData,
        }
    }

    /// Gives the disk back, and why the room has stopped, if it has.
    pub fn close(self) -> (D, Option<Stop>)
        ensures disk { result.0 ≡ self.room.file.disk }
        ensures stopped { result.1 ≡ self.room.stopped }
    {
        let HostedKept { room, origin: _ } = self;
        room.close()
    }
}

impl<K: Origin<D>, D: Disk + Drop> Object for HostedKept<K, D> {
    ghost use Rattle.any_game.specs.AnyRules.{any_rules};
    ghost use Rattle.kept_room.specs.Asides.{may_refuse};
    ghost use Rattle.kept_room.specs.Hosting.{StandsFrom};
    ghost use Rattle.match_master.specs.Held.{is_starved as says_starved};
    ghost use Rattle.room_history.specs.Room.{reply as reply_in};

    type Call = RoomCall<AnyGame>;

    type Reply = RoomReply;

    ghost number = { λ r. r.room.object.room };

    ghost stands_for = { λ r h. StandsFrom D.is_told D.seen D.may_leave D.moment D.left_since D.faults r.room.object.room (K.start r.room.object.room) r.room h };

    ghost reply = { λ room h e. reply_in any_rules room h e };

    ghost is_starved = { says_starved };

    ghost may_starve = { may_refuse };

    fn apply(&mut self, pass: u32, call: RoomCall<AnyGame>) -> RoomReply {
        if is_detach(&call) {
            return self.room.ask_aside(pass, call);
        }
        if self.room.stopped.is_some() {
            drop(call);
            return RoomReply::NoMemory;
        }
        if is_aside(&call) {
            return self.room.ask_aside(pass, call);
        }
        let reply = self.room.ask(pass, call);
        if self.room.stopped.is_some() {
            drop(reply);
            return RoomReply::NoMemory;
        }
        reply
    }
}

impl<K: Origin<D>, D: Disk + Drop> HostedRoom<AnyGame> for HostedKept<K, D> {
    ghost use Rattle.std.specs.Prelude.{is_some, refl};

    ghost has_stopped = { λ r. is_some r.room.stopped };

    ghost replies = { λ room h e. refl };

    ghost starves = { λ told. refl };

    ghost detaches = { refl };

    fn row(&self) -> Option<(u64, Option<Number>)> {
        if self.room.stopped.is_some() {
            return None;
        }
        Some((self.room.object.serial(), self.room.object.number()))
    }
}
