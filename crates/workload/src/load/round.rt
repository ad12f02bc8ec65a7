//! Rounds: how one begins, and how it ends.

ghost use Rattle.std.specs.Prelude.{◌≡◌, ◌<◌, ◌≤◌, ◌+◌, ◌^◌, ◌++◌, ◌∷◌, ℕ, List, [], IfOk, OnOk, Option, Some, length, slice_get};
ghost use Rattle.any_game.specs.AnyRules.{any_rules, named};
ghost use Rattle.any_game.specs.GameKind.{GameKind};
ghost use Rattle.any_game.specs.declared.any_g.AnyG.{AnyG};
ghost use Rattle.hall_history.specs.Opening.{after_open};
ghost use Rattle.world_history.specs.World.{Attaches, Drops, Leaves};
ghost use Rattle.world_history.specs.Workload.{Place as Seats, Workload, attachings, begins_round, drops_all, ends_round, first_reads, go_all, goes, leavings, opens_all, places_from, round, with_match};
ghost use Rattle.wire_json.specs.declared.protocol.Protocol.TheVariants.{One};
ghost use Rattle.workload.specs.IsLoad.{IsLoad, reads_first, round_lines};

use super::Load;
use crate::place::Place;
use any_game::{AnyGame, by_name};
use game_sheet::{MatchName, NoMemory};
use wire_json::Protocol;

impl Load {
    /// Begins a round: its matches are opened, a client is attached at each of their seats, and each reads its first line.
    pub(crate) fn begin_round(&mut self) -> Result<(), NoMemory>
        ensures { (tape words : ℕ → List ℕ) (lines : ℕ) (l : Workload GameKind AnyG) → lines + round_lines ≤ 2 ^ 64 → IsLoad tape words lines self.old l
            → OnOk result (IsLoad tape words (lines + round_lines) self.new (begins_round named any_rules tape l)) }
    {
        self.places.clear();
        self.open_all()?;
        self.attach_all()?;
        self.read_first_lines()
    }

    /// Ends a round: each client is dropped, and every seat leaves.
    pub(crate) fn end_round(&mut self) -> Result<(), NoMemory>
        ensures { (tape words : ℕ → List ℕ) (lines : ℕ) (l : Workload GameKind AnyG) → IsLoad tape words lines self.old l
            → OnOk result (IsLoad tape words lines self.new (ends_round named any_rules tape l)) }
    {
        self.cut_all();
        self.leave_all()
    }

    /// Opens the matches of a round.
    fn open_all(&mut self) -> Result<(), NoMemory>
        requires { self.old.places ≡ [] }
        ensures { (tape words : ℕ → List ℕ) (lines : ℕ) (l : Workload GameKind AnyG) → IsLoad tape words lines self.old l
            → OnOk result (IsLoad tape words lines self.new (opens_all named any_rules tape round l)) }
    {
        self.open("tic-tac-toe", 2)?;
        self.open("countdown", 3)?;
        self.open("pig", 2)?;
        self.open("high-hand", 3)?;
        self.open("blind-bid", 4)
    }

    /// Opens a match, and adds its seats to those of the round.
    fn open(&mut self, game: &str, seats: u8) -> Result<(), NoMemory>
        requires { length self.old.places + seats ≤ 14 }
        ensures opened { (tape words : ℕ → List ℕ) (lines : ℕ) (l : Workload GameKind AnyG) → IsLoad tape words lines self.old l
            → OnOk result (IsLoad tape words lines self.new (with_match named any_rules tape l (named game.now) seats (after_open named any_rules tape l.world.hall game.now seats))) }
        ensures few { OnOk result (length self.new.places ≤ length self.old.places + seats) }
    {
        let made = self.world.open_match(game, seats)?;
        let Some(name) = made else {
            return Ok(());
        };
        match by_name(self.alloc, game)? {
            Some(game) => self.add_match(game, name, seats),
            None => Ok(()),
        }
    }

    /// Adds the seats of a match to those of the round.
    fn add_match(&mut self, game: AnyGame, name: MatchName, seats: u8) -> Result<(), NoMemory>
        requires { length self.old.places + seats ≤ 14 }
        ensures { OnOk result (self.new ≡ record self.old { places = self.old.places ++ places_from game name 0 seats }) }
    {
        let added = self.add_places(&game, name, seats);
        drop(game);
        added
    }

    fn add_places(&mut self, game: &AnyGame, name: MatchName, seats: u8) -> Result<(), NoMemory>
        requires { length self.old.places + seats ≤ 14 }
        ensures { OnOk result (self.new ≡ record self.old { places = self.old.places ++ places_from game.now name 0 seats }) }
    {
        for seat in 0..seats {
            self.add_place(game, name, seat)?;
        }
        Ok(())
    }

    /// Adds a seat to those of the round.
    fn add_place(&mut self, game: &AnyGame, name: MatchName, seat: u8) -> Result<(), NoMemory>
        requires { length self.old.places < 14 }
        ensures { OnOk result (self.new ≡ record self.old { places = self.old.places ++ record { game = game.now; name = name; seat = seat } ∷ [] }) }
    {
        let place = Place::new(self.alloc, game, name, seat)?;
        self.places.push(place)?;
        Ok(())
    }

    /// How many seats the matches of the round have.
    fn count(&self) -> usize
        ensures value { result ≡ length self.now.places }
        ensures few { result ≤ 14 }
    {
        self.places.len()
    }

    /// A seat of the round.
    fn place(&self, place: usize) -> &Place
        requires { place < length self.now.places }
        ensures { slice_get self.now.places place ≡ Some result.now }
    {
        &self.places[place]
    }

    /// Attaches a client at each seat.
    fn attach_all(&mut self) -> Result<(), NoMemory>
        ensures { (tape words : ℕ → List ℕ) (lines : ℕ) (l : Workload GameKind AnyG) → IsLoad tape words lines self.old l
            → OnOk result (IsLoad tape words lines self.new (go_all named any_rules tape (attachings named any_rules tape 0 l.places) l)) }
    {
        for client in 0..self.count() {
            self.attach(client as u8)?;
        }
        Ok(())
    }

    /// Attaches a client at its seat.
    fn attach(&mut self, client: u8) -> Result<(), NoMemory>
        requires { client < length self.old.places }
        ensures goes { (tape words : ℕ → List ℕ) (lines : ℕ) (l : Workload GameKind AnyG) (place : Seats GameKind) → IsLoad tape words lines self.old l
            → slice_get self.old.places client ≡ Some place
            → OnOk result (IsLoad tape words lines self.new (goes named any_rules tape (Attaches client place.game place.name (Some place.seat) One) l)) }
        ensures keeps { OnOk result (self.new.places ≡ self.old.places) }
    {
        let place = self.place(client as usize);
        let game = place.game().copy_game(self.alloc)?;
        let name = place.name();
        let seat = Some(place.seat());
        let text = self.world.attach(client, game, name, seat, Protocol::One)?;
        drop(text);
        Ok(())
    }

    /// Lets each client read its first line.
    fn read_first_lines(&mut self) -> Result<(), NoMemory>
        ensures { (tape words : ℕ → List ℕ) (lines : ℕ) (l : Workload GameKind AnyG) → lines + round_lines ≤ 2 ^ 64 → IsLoad tape words lines self.old l
            → OnOk result (IsLoad tape words (lines + round_lines) self.new (go_all named any_rules tape (first_reads named any_rules tape 0 l.places) l)) }
    {
        for client in 0..self.count() {
            self.read_first_line(client as u8)?;
        }
        Ok(())
    }

    /// A client's first line reaches its session, which answers, and the client reads that.
    fn read_first_line(&mut self, client: u8) -> Result<(), NoMemory>
        requires { client < 32 }
        ensures goes { (tape words : ℕ → List ℕ) (lines : ℕ) (l : Workload GameKind AnyG) → lines + 3 ≤ 2 ^ 64 → IsLoad tape words lines self.old l
            → OnOk result (IsLoad tape words (lines + 3) self.new (go_all named any_rules tape (reads_first client) l)) }
        ensures keeps { OnOk result (self.new.places ≡ self.old.places) }
    {
        self.arrive(client)?;
        self.take(client)?;
        self.read(client)
    }

    /// Drops each client.
    fn cut_all(&mut self)
        ensures { (tape words : ℕ → List ℕ) (lines : ℕ) (l : Workload GameKind AnyG) → IsLoad tape words lines self.old l
            → IsLoad tape words lines self.new (go_all named any_rules tape (drops_all named any_rules tape 0 l.places) l) }
    {
        for client in 0..self.count() {
            self.cut(client as u8);
        }
    }

    /// Drops a client.
    fn cut(&mut self, client: u8)
        requires { client < 32 }
        ensures goes { (tape words : ℕ → List ℕ) (lines : ℕ) (l : Workload GameKind AnyG) → IsLoad tape words lines self.old l
            → IsLoad tape words lines self.new (goes named any_rules tape (Drops client) l) }
        ensures keeps { self.new.places ≡ self.old.places }
    {
        let text = self.world.cut(client);
        drop(text);
    }

    /// Lets every seat leave.
    fn leave_all(&mut self) -> Result<(), NoMemory>
        ensures { (tape words : ℕ → List ℕ) (lines : ℕ) (l : Workload GameKind AnyG) → IsLoad tape words lines self.old l
            → OnOk result (IsLoad tape words lines self.new (go_all named any_rules tape (leavings named any_rules tape l.places) l)) }
    {
        for place in 0..self.count() {
            self.leave(place)?;
        }
        Ok(())
    }

    /// Lets a seat leave.
    fn leave(&mut self, place: usize) -> Result<(), NoMemory>
        requires { place < length self.old.places }
        ensures goes { (tape words : ℕ → List ℕ) (lines : ℕ) (l : Workload GameKind AnyG) (seat : Seats GameKind) → IsLoad tape words lines self.old l
            → slice_get self.old.places place ≡ Some seat
            → OnOk result (IsLoad tape words lines self.new (goes named any_rules tape (Leaves seat.name seat.seat) l)) }
        ensures keeps { OnOk result (self.new.places ≡ self.old.places) }
    {
        let found = self.place(place);
        let name = found.name();
        let seat = found.seat();
        let text = self.world.leave(name, seat)?;
        drop(text);
        Ok(())
    }
}
