//! The match that stands in a room.

ghost use Rattle.std.specs.Prelude.{◌≡◌, ◌≤◌, ◌∷◌, ◌++◌, [], OnOk, OnErr, IfErr, IfOk, Ok, Err};
ghost use Rattle.match_master.specs.Does.{grown, row_at};
ghost use Rattle.reducer.specs.Prepared.{IsReady};
ghost use Rattle.reducer.specs.Sound.{IsSound};
ghost use Rattle.seat_roster.specs.Roster.{join, rename, leave};

use game_sheet::{Key, List, MatchName, NoMemory, Seat, Text};
use game_trait::Game;
use move_log::KeptEntry;
use reducer::{Prepared, State, commit};
use seat_roster::{Roster, RosterNo};
use std::alloc::Global;
use wire_json::MatchRow;

/// The match that stands: its game, its state, its log, and who sits at its seats.
pub struct RunningMatch<X, G> {
    /// The game.
    pub game: X,
    /// How many seats the match has.
    pub seats: u8,
    /// Which of the room's matches it is, from 1.
    pub serial: u64,
    /// What the accepted actions have come to.
    pub state: State<G>,
    /// The accepted actions, the oldest first.
    pub log: List<KeptEntry>,
    /// Who sits at its seats.
    pub roster: Roster,
}

impl<X: Drop, G: Drop> Drop for RunningMatch<X, G> {
    fn drop(self) {
        let RunningMatch {
            game,
            seats: _,
            serial: _,
            state,
            log,
            roster,
        } = self;
        drop(game);
        drop(state);
        drop(log);
        drop(roster);
    }
}

impl<X: Game> RunningMatch<X, X::G> {
    /// Takes an accepted action in. Without memory nothing changes.
    pub fn advance(&mut self, prepared: Prepared<X::G>, entry: KeptEntry) -> Result<(), NoMemory>
        requires sound { IsSound (X.rules self.old.game) self.old.state }
        requires ready { IsReady (X.rules self.old.game) self.old.state prepared }
        ensures ok { OnOk result (self.new ≡ grown X.rules self.old prepared entry) }
        ensures sound { IsSound (X.rules self.new.game) self.new.state }
        ensures err { OnErr result (self.new ≡ self.old) }
    {
        match self.log.push(entry) {
            Ok(()) => {
                commit(&self.game, &mut self.state, prepared);
                Ok(())
            }
            Err(_) => {
                drop(prepared);
                Err(NoMemory)
            }
        }
    }

    /// What everybody may see of the match, which stands in this room.
    pub fn row(&self, alloc: Global, room: u8) -> Result<MatchRow, NoMemory>
        requires room { room ≤ 63 }
        requires serial { 1 ≤ self.now.serial }
        ensures { IfOk result (λ row. row ≡ row_at X.rules room self.now) }
    {
        let players = self.roster.public_rows()?;
        let game = self.game.sheet().name.copy(alloc)?;
        Ok(MatchRow {
            game,
            name: MatchName::new(room, self.serial),
            over: self.state.ctx().over.is_some(),
            players,
        })
    }
}

impl<X, G: Drop> RunningMatch<X, G> {
    /// Seats a player at a free seat. It takes no memory.
    pub fn join(&mut self, seat: Seat, name: Text, key: Key) -> Result<(), RosterNo>
        ensures ok { OnOk result ((join self.old.roster seat name key ≡ Ok self.new.roster) × (self.new ≡ record self.old { roster = self.new.roster })) }
        ensures refused { IfErr result (λ why. join self.old.roster seat name key ≡ Err why) }
        ensures unchanged { OnErr result (self.new ≡ self.old) }
    {
        self.roster.join(seat, name, key)
    }

    /// Gives the player at a seat another name. It takes no memory.
    pub fn rename(&mut self, seat: Seat, key: &Key, name: Text) -> Result<(), RosterNo>
        ensures ok { OnOk result ((rename self.old.roster seat key.now name ≡ Ok self.new.roster) × (self.new ≡ record self.old { roster = self.new.roster })) }
        ensures refused { IfErr result (λ why. rename self.old.roster seat key.now name ≡ Err why) }
        ensures unchanged { OnErr result (self.new ≡ self.old) }
    {
        self.roster.rename(seat, key, name)
    }

    /// Frees the seat of a player. It takes no memory.
    pub fn leave(&mut self, seat: Seat, key: &Key) -> Result<(), RosterNo>
        ensures ok { OnOk result ((leave self.old.roster seat key.now ≡ Ok self.new.roster) × (self.new ≡ record self.old { roster = self.new.roster })) }
        ensures refused { IfErr result (λ why. leave self.old.roster seat key.now ≡ Err why) }
        ensures unchanged { OnErr result (self.new ≡ self.old) }
    {
        self.roster.leave(seat, key)
    }
}
