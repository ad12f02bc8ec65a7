//! What an accepted action makes of the trail of a match.

ghost use Rattle.std.specs.Prelude.{◌≡◌};
ghost use Rattle.reducer.specs.Change.{led_to};

use crate::checkpoint::{Checkpoint, Deed};
use game_sheet::Seat;
use std::sync::Arc;
use undo_redo::Step;

/// What an accepted action makes of the trail: only a move or an event makes a step of its own.
#[derive(Drop)]
pub(crate) enum Change<G> {
    /// A move or an event is done.
    On(Step<Checkpoint<G>, Deed>),
    /// A seat takes the last done action back.
    Back {
        /// Whose undo it is.
        seat: Seat,
        /// What the match comes to, which is kept already.
        to: Arc<Checkpoint<G>>,
    },
    /// A seat does the first undone action again.
    Again {
        /// Whose redo it is.
        seat: Seat,
        /// What the match comes to, which is kept already.
        to: Arc<Checkpoint<G>>,
    },
}

impl<G> Change<G> {
    /// What the match comes to.
    pub(crate) fn after(&self) -> &Checkpoint<G>
        ensures { result.now ≡ led_to self.now }
    {
        match self {
            Change::On(step) => step.after(),
            Change::Back { to, .. } => to,
            Change::Again { to, .. } => to,
        }
    }
}
