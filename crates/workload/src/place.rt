//! The seats of a round's matches.

ghost use Rattle.std.specs.Prelude.{◌≡◌, IfOk};

use any_game::AnyGame;
use game_sheet::{MatchName, NoMemory, Seat};
use std::alloc::Global;
use std::marker::Model;

/// A seat of a match of the round.
#[derive(Drop)]
pub struct Place {
    game: AnyGame,
    name: MatchName,
    seat: Seat,
}

impl Model for Place {
    ghost use Rattle.any_game.specs.GameKind.{GameKind};
    ghost use Rattle.world_history.specs.Workload.{Place as Seats};

    ghost Value = { Seats GameKind };

    ghost view = { λ p. record { game = p.game; name = p.name; seat = p.seat } };
}

impl Place {
    /// A seat of a match of a game.
    pub(crate) fn new(
        alloc: Global,
        game: &AnyGame,
        name: MatchName,
        seat: Seat,
    ) -> Result<Self, NoMemory>
        ensures { IfOk result (λ place. place ≡ record { game = game.now; name = name; seat = seat }) }
    {
        let game = game.copy_game(alloc)?;
        Ok(Place { game, name, seat })
    }

    /// The match's game.
    pub(crate) fn game(&self) -> &AnyGame
        ensures { result.now ≡ self.now.game }
    {
        &self.game
    }

    /// The match.
    pub(crate) fn name(&self) -> MatchName
        ensures { result ≡ self.now.name }
    {
        self.name
    }

    /// The seat.
    pub(crate) fn seat(&self) -> Seat
        ensures { result ≡ self.now.seat }
    {
        self.seat
    }
}
