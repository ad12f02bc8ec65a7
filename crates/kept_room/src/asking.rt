//! Calls of a room that keeps its accepted changes in a journal.

ghost use Rattle.std.specs.Prelude.{◌≡◌, ◌∷◌, [], None, IsSome, true, false};
ghost use Rattle.any_game.specs.AnyRules.{any_rules};
ghost use Rattle.match_master.specs.Held.{is_starved, may_starve};
ghost use Rattle.room_history.specs.Room.{reply as reply_in};
ghost use Rattle.room_history.specs.declared.call.RoomCall.TheVariants as call_of;
ghost use Rattle.room_journal.specs.Kept.{IsInForm};
ghost use Rattle.room_object.specs.Entry.{entry};
ghost use Rattle.kept_room.specs.Asides.{is_aside};
ghost use Rattle.kept_room.specs.Journal.{Calls, Since, stands_in};

use crate::form::is_named;
use crate::framing::{frame_of, perform, perform_with};
use crate::room::KeptRoom;
use any_game::AnyGame;
use object_journal::Stop;
use room_disk::Disk;
use room_history::{RoomCall, RoomReply};
use room_object::Object;

impl<D: Disk + Drop> KeptRoom<D> {
    /// Makes a call of a pass, and keeps its change where it is accepted. Where that isn't done, the room stops; for a full file only where the
    /// record wouldn't fit.
    ///
    /// A call whose act is in no form of the wire is answered as if there were no memory, and changes nothing.
    pub fn ask(&mut self, pass: u32, call: RoomCall<AnyGame>) -> RoomReply
        requires stands { (h : Calls) × stands_in self.old.object h }
        ensures answered { (h : Calls) → stands_in self.old.object h → result ≡ reply_in any_rules self.old.object.room h (entry pass call (is_starved result)) }
        ensures fed { is_starved result ≡ true → may_starve call ≡ true }
        ensures since { Since D.is_told D.seen D.may_leave D.moment D.left_since D.faults self.old self.new (entry pass call (is_starved result) ∷ []) }
    {
        if self.stopped.is_some() {
            return self.ask_stopped(pass, call);
        }
        if is_named(&call) {
            return self.ask_named(pass, call);
        }
        self.ask_unnamed(pass, call)
    }

    /// Makes a call of a pass that asks for no change, by the book alone, whether the room has stopped or not.
    pub fn ask_aside(&mut self, pass: u32, call: RoomCall<AnyGame>) -> RoomReply
        requires stands { (h : Calls) × stands_in self.old.object h }
        requires aside { is_aside call ≡ true }
        ensures answered { (h : Calls) → stands_in self.old.object h → result ≡ reply_in any_rules self.old.object.room h (entry pass call (is_starved result)) }
        ensures fed { is_starved result ≡ true → may_starve call ≡ true }
        ensures since { Since D.is_told D.seen D.may_leave D.moment D.left_since D.faults self.old self.new (entry pass call (is_starved result) ∷ []) }
        ensures file { self.new.file ≡ self.old.file }
        ensures stopped { self.new.stopped ≡ self.old.stopped }
    {
        // a call that asks for no change has no record
        self.object.apply(pass, call)
    }

    /// Makes a call where the room has stopped.
    fn ask_stopped(&mut self, pass: u32, call: RoomCall<AnyGame>) -> RoomReply
        requires stands { (h : Calls) × stands_in self.old.object h }
        requires stopped { IsSome self.old.stopped }
        ensures answered { (h : Calls) → stands_in self.old.object h → result ≡ reply_in any_rules self.old.object.room h (entry pass call (is_starved result)) }
        ensures fed { is_starved result ≡ true → may_starve call ≡ true }
        ensures since { Since D.is_told D.seen D.may_leave D.moment D.left_since D.faults self.old self.new (entry pass call (is_starved result) ∷ []) }
    {
        self.object.apply(pass, call)
    }

    /// Makes a call that its record names.
    fn ask_named(&mut self, pass: u32, call: RoomCall<AnyGame>) -> RoomReply
        requires stands { (h : Calls) × stands_in self.old.object h }
        requires whole { self.old.stopped ≡ None }
        requires in_form { IsInForm call }
        ensures answered { (h : Calls) → stands_in self.old.object h → result ≡ reply_in any_rules self.old.object.room h (entry pass call (is_starved result)) }
        ensures fed { is_starved result ≡ true → may_starve call ≡ true }
        ensures since { Since D.is_told D.seen D.may_leave D.moment D.left_since D.faults self.old self.new (entry pass call (is_starved result) ∷ []) }
    {
        let (reply, stop) = perform(self.alloc, &mut self.object, &mut self.file, pass, call);
        self.stopped = stop;
        reply
    }

    /// Makes a call of which it isn't known that its record names it.
    fn ask_unnamed(&mut self, pass: u32, call: RoomCall<AnyGame>) -> RoomReply
        requires stands { (h : Calls) × stands_in self.old.object h }
        requires whole { self.old.stopped ≡ None }
        requires starves { may_starve call ≡ true }
        ensures answered { (h : Calls) → stands_in self.old.object h → result ≡ reply_in any_rules self.old.object.room h (entry pass call (is_starved result)) }
        ensures fed { is_starved result ≡ true → may_starve call ≡ true }
        ensures since { Since D.is_told D.seen D.may_leave D.moment D.left_since D.faults self.old self.new (entry pass call (is_starved result) ∷ []) }
    {
        match call {
            RoomCall::Create { game, seats, seed } => self.create(pass, game, seats, seed),
            other => {
                drop(other);
                RoomReply::NoMemory
            }
        }
    }

    /// Makes a match of a game.
    fn create(&mut self, pass: u32, game: AnyGame, seats: u8, seed: [u8; 32]) -> RoomReply
        requires stands { (h : Calls) × stands_in self.old.object h }
        requires whole { self.old.stopped ≡ None }
        ensures answered { (h : Calls) → stands_in self.old.object h → result ≡ reply_in any_rules self.old.object.room h (entry pass (call_of.Create game seats seed) (is_starved result)) }
        ensures since { Since D.is_told D.seen D.may_leave D.moment D.left_since D.faults self.old self.new (entry pass (call_of.Create game seats seed) (is_starved result) ∷ []) }
    {
        let call = RoomCall::Create { game, seats, seed };
        match frame_of(self.alloc, &call) {
            Ok(frame) => {
                let (reply, stop) = perform_with(
                    &mut self.object,
                    &mut self.file,
                    pass,
                    call,
                    frame,
                );
                self.stopped = stop;
                reply
            }
            Err(_) => {
                let reply = self.object.apply(pass, call);
                self.stopped = Some(Stop::NoMemory);
                reply
            }
        }
    }
}
