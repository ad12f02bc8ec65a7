//! What the trail of a match goes over: what the match had come to, and the actions that led on from there.

ghost use Rattle.std.specs.Prelude.{◌≡◌, ℕ, IfOk};

use dice_words::Tape;
use game_sheet::Seat;
use move_log::KeptAct;
use phase_flow::Table;
use std::marker::Model;

/// What a match has come to by some actions, each of which led on from the one before.
pub(crate) struct Checkpoint<G> {
    /// The state of the game, the context and the map.
    pub(crate) table: Table<G>,
    /// The seed of the match's random words.
    pub(crate) seed: [u8; 32],
    /// The place of the match's next random word.
    pub(crate) place: u64,
    /// How many actions led here.
    pub(crate) count: u32,
}

impl<G: Drop> Drop for Checkpoint<G> {
    fn drop(self) {
        let Checkpoint {
            table,
            seed: _,
            place: _,
            count: _,
        } = self;
        drop(table);
    }
}

/// An action of a seat.
pub(crate) struct Deed {
    /// Whose action it is.
    pub(crate) seat: Seat,
    /// What is done.
    pub(crate) act: KeptAct,
}

impl Drop for Deed {
    fn drop(self) {
        let Deed { seat: _, act } = self;
        drop(act);
    }
}

impl Model for Deed {
    ghost use Rattle.reducer.specs.Accepted.{Accepted};

    ghost Value = { Accepted };

    ghost view = { λ d. record { seat = d.seat; act = d.act } };
}
