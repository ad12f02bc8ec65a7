//! A room's book: its one match, who sits there and who is attached, and what waits for each.

ghost use Rattle.std.specs.Prelude.{◌≡◌, ◌≤◌, ◌∷◌, ℕ, List, [], Option, None, Some, IfOk, true, option_map};
ghost use Rattle.room_object.specs.Entry.{Entry, entry};
ghost use Rattle.room_history.specs.Match.{Match};
ghost use Rattle.room_history.specs.Outbox.{attachment_of};
ghost use Rattle.room_history.specs.Presence.{is_attached};
ghost use Rattle.room_history.specs.Room.{number, reply, room_of, serials, viewer_of};
ghost use Rattle.room_history.specs.declared.call.RoomCall.{RoomCall as Asks};
ghost use Rattle.match_master.specs.Does.{GoesBy};
ghost use Rattle.match_master.specs.Held.{StandsFor, is_starved, may_starve, running_of};
ghost use Rattle.match_master.specs.Laws.{JudgesBySight, LeavesOthers, TellsAlike, TellsStreams};
ghost use Rattle.match_master.specs.Refusal.{Refuses};

use crate::attachments::{self, Attachments};
use crate::running_match::RunningMatch;
use game_sheet::{NoMemory, Number, Seat, seat_of};
use game_trait::Game;
use indexmap::IndexMap;
use room_history::{RoomCall, RoomReply};
use std::alloc::Global;
use std::marker::Model;

/// The book of one room. It answers one call at a time.
pub struct Book<X: Game + Drop> {
    pub(crate) alloc: Global,
    pub(crate) room: u8,
    pub(crate) serials: u64,
    pub(crate) running: Option<RunningMatch<X, X::G>>,
    pub(crate) attachments: Attachments,
}

impl<X: Game + Drop> Drop for Book<X> {
    fn drop(self) {
        let Book {
            alloc: _,
            room: _,
            serials: _,
            running,
            attachments,
        } = self;
        drop(running);
        drop(attachments);
    }
}

impl<X: Game + Drop> Model for Book<X> {
    ghost use Rattle.std.specs.Prelude.{◌≤◌};
    ghost use Rattle.match_master.specs.Attached.{all_held};
    ghost use Rattle.match_master.specs.Held.{Held, IsInOrder};

    ghost Value = { Held X X.G };

    ghost view = { λ b. record { room = b.room; serials = b.serials; running = b.running; attachments = all_held b.attachments.entries } };

    ghost invariant = { λ b. (b.room ≤ 63) × IsInOrder X.rules b.running };
}

impl<X: Game + Drop> Book<X> {
    /// The book of a room in which nothing has happened. The room is 0 to 63.
    pub fn new(alloc: Global, room: u8) -> Result<Self, NoMemory>
        requires { room ≤ 63 }
        ensures room { IfOk result (λ b. b.room ≡ room) }
        ensures stands { IfOk result (λ b. StandsFor X.rules b []) }
    {
        Ok(Book {
            alloc,
            room,
            serials: 0,
            running: None,
            attachments: IndexMap::new(alloc),
        })
    }

    /// Answers a call of a pass.
    ///
    /// A book that stands for a history of its room answers the reply to the entry of this call after it, and then stands
    /// for the history with the entry. A refused action leaves the match and every other pass's lines as they were. After
    /// `NoMemory` nothing has changed; only a Create, a Look, an Attach and a Submit take memory.
    pub fn apply(&mut self, pass: u32, call: RoomCall<X>) -> RoomReply
        ensures room { self.new.room ≡ self.old.room }
        ensures answered { (h : List (Entry (Asks X))) → StandsFor X.rules self.old h → result ≡ reply X.rules self.old.room h (entry pass call (is_starved result)) }
        ensures stands { (h : List (Entry (Asks X))) → StandsFor X.rules self.old h → StandsFor X.rules self.new (entry pass call (is_starved result) ∷ h) }
        ensures refused { (h : List (Entry (Asks X))) → StandsFor X.rules self.old h → Refuses X.rules self.old.room h pass call result }
        ensures streams { (h : List (Entry (Asks X))) → StandsFor X.rules self.old h → TellsStreams X.rules self.old.room h pass call result }
        ensures judged { (h : List (Entry (Asks X))) → StandsFor X.rules self.old h → JudgesBySight X.rules self.old.room h pass call result call }
        ensures alike { (h : List (Entry (Asks X))) → StandsFor X.rules self.old h → TellsAlike X.rules self.old.room h pass call result }
        ensures others { (h : List (Entry (Asks X))) → StandsFor X.rules self.old h → LeavesOthers X.rules self.old.room h pass call result call }
        ensures starved { is_starved result ≡ true → self.new ≡ self.old }
        ensures fed { is_starved result ≡ true → may_starve call ≡ true }
    {
        self.answer(pass, call)
    }

    /// Answers a call of a pass, by what is held alone.
    fn answer(&mut self, pass: u32, call: RoomCall<X>) -> RoomReply
        ensures room { self.new.room ≡ self.old.room }
        ensures goes { (standing : Option (Match X X.G)) → self.old.running ≡ option_map (running_of X.rules) standing → GoesBy X.rules self.old standing pass call result self.new }
        ensures starved { is_starved result ≡ true → self.new ≡ self.old }
        ensures fed { is_starved result ≡ true → may_starve call ≡ true }
    {
        match call {
            RoomCall::Create { game, seats, seed } => self.create(game, seats, &seed),
            RoomCall::Join {
                serial,
                seat,
                name,
                key,
            } => self.join(serial, seat, name, key),
            RoomCall::Rename {
                serial,
                seat,
                key,
                name,
            } => self.rename(serial, seat, &key, name),
            RoomCall::Leave { serial, seat, key } => self.leave(serial, seat, &key),
            RoomCall::Look { serial } => self.look(serial),
            RoomCall::Attach {
                serial,
                viewer,
                protocol,
            } => self.attach(pass, serial, viewer, protocol),
            RoomCall::Submit(submission) => self.submit(pass, &submission),
            RoomCall::Take => self.take(pass),
            RoomCall::Detach => self.detach(pass),
            RoomCall::Clear { serial } => self.clear(serial),
        }
    }

    /// How many matches were made. It takes no memory.
    pub fn serial(&self) -> u64
        ensures { (h : List (Entry (Asks X))) → StandsFor X.rules self.now h → result ≡ serials X.rules self.now.room h }
    {
        self.serials
    }

    /// The state number of the match that stands; none where none stands. It takes no memory.
    pub fn number(&self) -> Option<Number>
        ensures { (h : List (Entry (Asks X))) → StandsFor X.rules self.now h → result ≡ number X.rules self.now.room h }
    {
        match &self.running {
            None => None,
            Some(running) => Some(running.state.number()),
        }
    }

    /// Whether a pass is attached, be it to a session that has ended. It takes no memory.
    pub fn is_attached(&self, pass: u32) -> bool
        ensures { (h : List (Entry (Asks X))) → StandsFor X.rules self.now h → result ≡ is_attached X.rules self.now.room h pass }
    {
        attachments::is_attached(&self.attachments, pass)
    }

    /// How many bytes wait for a pass, its sync line not counted; none where it isn't attached. It takes no memory.
    pub fn waiting(&self, pass: u32) -> Option<usize>
        ensures { (h : List (Entry (Asks X))) → StandsFor X.rules self.now h
            → result ≡ option_map (λ a. (a.outbox).count) (attachment_of ((room_of X.rules self.now.room h).sessions pass)) }
    {
        attachments::count(&self.attachments, pass)
    }

    /// The seat that a pass looks from, or none for a spectator, while its session goes on. It takes no memory.
    pub fn viewer_of(&self, pass: u32) -> Option<Option<Seat>>
        ensures { (h : List (Entry (Asks X))) → StandsFor X.rules self.now h → result ≡ viewer_of X.rules self.now.room h pass }
    {
        match attachments::open_viewer(&self.attachments, pass) {
            None => None,
            Some(viewer) => Some(seat_of(viewer)),
        }
    }
}
