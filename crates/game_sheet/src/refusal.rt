//! The answers of a game that refuse an action, whatever the game is.

ghost use Rattle.std.specs.Prelude.{◌≡◌};
ghost use Rattle.game_sheet.specs.declared.refusal.GameNo.TheVariants.{NoMemory as Starved};

use crate::memory::NoMemory;

/// The rule that an action or the start of a match breaks.
#[derive(Clone, Copy, PartialEq, Eq, Debug)]
pub enum GameRule {
    /// Undo, and the last done action is missing or went over the end of a turn.
    NothingToUndo,
    /// Redo, and no action is undone.
    NothingToRedo,
    /// Undo or redo of another seat's action.
    NotYours,
    /// Undo of an event, or of a move that the game keeps.
    NotUndoable,
    /// The game doesn't allow the move, or there is no such end of a turn, phase or stage.
    InvalidMove,
    /// The turn or the stage may not end before more moves were made.
    TooEarly,
    /// The action asks for more words than one action has.
    TooManyWords,
    /// The action begins more tasks, or one call of game code queues more events, than there may be.
    TooManyEvents,
}

/// Why a step of a game gave no new state.
#[derive(Clone, Copy)]
pub enum GameNo {
    /// A rule is broken.
    Broken(GameRule),
    /// There was no memory.
    NoMemory,
}

impl From<NoMemory> for GameNo {
    ghost from_gives = { λ _ why. why ≡ Starved };

    fn from(_error: NoMemory) -> Self {
        GameNo::NoMemory
    }
}
