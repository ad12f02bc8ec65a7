//! The calls on a room that make its match, show it, and seat players at it.

ghost use Rattle.std.specs.Prelude.{◌≡◌, ◌≤◌, ◌<◌, ◌+◌, ℕ, [], Option, None, Some, Ok, Err, true, false, if◌then◌else◌, option_map};
ghost use Rattle.reducer.specs.Sound.{IsSound};
ghost use Rattle.seat_roster.specs.Roster.{free_seats, join, rename, leave};
ghost use Rattle.room_history.specs.Match.{Match};
ghost use Rattle.room_history.specs.Reply.{created_match, looked_match, match_row, named_match, reply_by, reseated_match, roster_reply};
ghost use Rattle.room_history.specs.declared.reply.RoomReply.TheVariants as answer;
ghost use Rattle.match_master.specs.Does.{Does, Says, with_cleared, with_left_seat, with_match, with_new_match, without_match};
ghost use Rattle.match_master.specs.Held.{is_starved, running_of};

use crate::attachments;
use crate::book::Book;
use crate::running_match::RunningMatch;
use game_sheet::{Key, List, Seat, Text};
use game_trait::Game;
use reducer::{StartNo, State, start};
use room_history::RoomReply;
use seat_roster::{Roster, RosterNo};

impl<X: Game + Drop> Book<X> {
    /// Makes a match where none stands.
    pub(crate) fn create(&mut self, game: X, seats: u8, seed: &[u8; 32]) -> RoomReply
        ensures room { self.new.room ≡ self.old.room }
        ensures does { (standing : Option (Match X X.G)) → self.old.running ≡ option_map (running_of X.rules) standing
            → Does self.old result self.new (reply_by (λ (m : Match X X.G). answer.Created m.serial) (created_match X.rules self.old.serials standing game seats seed.now))
            (with_new_match X.rules self.old (created_match X.rules self.old.serials standing game seats seed.now)) }
        ensures starved { is_starved result ≡ true → self.new ≡ self.old }
    {
        if self.running.is_some() || self.serials == u64::MAX {
            return RoomReply::Busy;
        }
        match start(self.alloc, &game, seats, seed) {
            Err(StartNo::BadSeats) => RoomReply::BadSeats,
            Err(StartNo::NoStart(_)) => RoomReply::NoStart,
            Err(StartNo::NoMemory) => RoomReply::NoMemory,
            Ok(state) => self.begin(game, seats, state),
        }
    }

    /// Lets a match stand that has just begun, with all its seats free.
    fn begin(&mut self, game: X, seats: u8, state: State<X::G>) -> RoomReply
        requires room { self.old.serials < 18446744073709551615 }
        requires sound { IsSound (X.rules game) state }
        ensures room { self.new.room ≡ self.old.room }
        ensures does { Does self.old result self.new (answer.Created (self.old.serials + 1))
            (record self.old { serials = self.old.serials + 1; running = Some (record { game = game; seats = seats; serial = self.old.serials + 1; state = state; log = []; roster = free_seats seats }) }) }
        ensures starved { is_starved result ≡ true → self.new ≡ self.old }
    {
        let Ok(roster) = Roster::new(self.alloc, seats) else {
            return RoomReply::NoMemory;
        };
        let serial = self.serials + 1;
        self.serials = serial;
        self.running = Some(RunningMatch {
            game,
            seats,
            serial,
            state,
            log: List::new(self.alloc),
            roster,
        });
        RoomReply::Created { serial }
    }

    /// Seats a player at a free seat of the match that stands. It takes no memory.
    pub(crate) fn join(&mut self, serial: u64, seat: Seat, name: Text, key: Key) -> RoomReply
        ensures room { self.new.room ≡ self.old.room }
        ensures does { (standing : Option (Match X X.G)) → self.old.running ≡ option_map (running_of X.rules) standing
            → Does self.old result self.new (reply_by (λ (m : Match X X.G). answer.Joined) (reseated_match (named_match standing serial) (λ roster. join roster seat name key)))
            (with_match X.rules self.old (reseated_match (named_match standing serial) (λ roster. join roster seat name key))) }
        ensures fed { is_starved result ≡ false }
    {
        let Some(running) = &mut self.running else {
            return RoomReply::NoMatch;
        };
        if running.serial != serial {
            return RoomReply::NoMatch;
        }
        match running.join(seat, name, key) {
            Ok(()) => RoomReply::Joined,
            Err(why) => roster_reply(why),
        }
    }

    /// Gives the player at a seat of the match that stands another name. It takes no memory.
    pub(crate) fn rename(&mut self, serial: u64, seat: Seat, key: &Key, name: Text) -> RoomReply
        ensures room { self.new.room ≡ self.old.room }
        ensures does { (standing : Option (Match X X.G)) → self.old.running ≡ option_map (running_of X.rules) standing
            → Does self.old result self.new (reply_by (λ (m : Match X X.G). answer.Renamed) (reseated_match (named_match standing serial) (λ roster. rename roster seat key.now name)))
            (with_match X.rules self.old (reseated_match (named_match standing serial) (λ roster. rename roster seat key.now name))) }
        ensures fed { is_starved result ≡ false }
    {
        let Some(running) = &mut self.running else {
            return RoomReply::NoMatch;
        };
        if running.serial != serial {
            return RoomReply::NoMatch;
        }
        match running.rename(seat, key, name) {
            Ok(()) => RoomReply::Renamed,
            Err(why) => roster_reply(why),
        }
    }

    /// Frees a seat of the match that stands, and ends its attachments. The match is removed with its last player. It takes no memory.
    pub(crate) fn leave(&mut self, serial: u64, seat: Seat, key: &Key) -> RoomReply
        ensures room { self.new.room ≡ self.old.room }
        ensures does { (standing : Option (Match X X.G)) → self.old.running ≡ option_map (running_of X.rules) standing
            → Does self.old result self.new (reply_by (λ (m : Match X X.G). answer.Left) (reseated_match (named_match standing serial) (λ roster. leave roster seat key.now)))
            (with_left_seat X.rules seat self.old (reseated_match (named_match standing serial) (λ roster. leave roster seat key.now))) }
        ensures fed { is_starved result ≡ false }
    {
        let Some(running) = &mut self.running else {
            return RoomReply::NoMatch;
        };
        if running.serial != serial {
            return RoomReply::NoMatch;
        }
        if let Err(why) = running.leave(seat, key) {
            return roster_reply(why);
        }
        if running.roster.is_empty() {
            self.remove();
        } else {
            attachments::leave_all(&mut self.attachments, Some(seat));
        }
        RoomReply::Left
    }

    /// Removes the match that stands, if it is the one that is named, and ends its attachments. It takes no memory.
    pub(crate) fn clear(&mut self, serial: u64) -> RoomReply
        ensures room { self.new.room ≡ self.old.room }
        ensures does { (standing : Option (Match X X.G)) → self.old.running ≡ option_map (running_of X.rules) standing
            → Does self.old result self.new (reply_by (λ (m : Match X X.G). answer.Cleared) (named_match standing serial)) (with_cleared self.old (named_match standing serial)) }
        ensures fed { is_starved result ≡ false }
    {
        let Some(running) = &self.running else {
            return RoomReply::NoMatch;
        };
        if running.serial != serial {
            return RoomReply::NoMatch;
        }
        self.remove();
        RoomReply::Cleared
    }

    /// Removes the match that stands. Every attachment ends. It takes no memory.
    fn remove(&mut self)
        ensures { self.new ≡ without_match self.old }
    {
        self.running = None;
        attachments::leave_all(&mut self.attachments, None);
    }

    /// Shows the match that stands: the one that is named, or whichever it is.
    pub(crate) fn look(&self, serial: Option<u64>) -> RoomReply
        ensures { (standing : Option (Match X X.G)) → self.now.running ≡ option_map (running_of X.rules) standing
            → Says result (reply_by (λ m. answer.Looked (match_row X.rules self.now.room m)) (looked_match standing serial)) }
    {
        let Some(running) = &self.running else {
            return RoomReply::NoMatch;
        };
        if let Some(serial) = serial
            && running.serial != serial
        {
            return RoomReply::NoMatch;
        }
        match running.row(self.alloc, self.room) {
            Ok(row) => RoomReply::Looked(row),
            Err(_) => RoomReply::NoMemory,
        }
    }
}

/// The reply for a rule of the seats that is broken.
fn roster_reply(why: RosterNo) -> RoomReply
    ensures { result ≡ roster_reply why }
{
    match why {
        RosterNo::NoSeat => RoomReply::NoSeat,
        RosterNo::SeatTaken => RoomReply::SeatTaken,
        RosterNo::BadName => RoomReply::BadName,
        RosterNo::Unauthorized => RoomReply::Unauthorized,
    }
}
