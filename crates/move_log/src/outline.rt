//! What a viewer sees of an entry besides its arguments, for those who write entries: so nothing is copied to write one.

use game_sheet::{Event, MoveId, Number, PhaseId, Seat};

/// An action without its arguments.
#[derive(Clone, Copy)]
pub enum Outline {
    /// A move of the game.
    Move(MoveId),
    /// An event.
    Event(Event),
    /// Takes the last done action back.
    Undo,
    /// Does the first undone action again.
    Redo,
}

/// An entry as a viewer sees it, without its arguments and the count of its words.
#[derive(Clone, Copy)]
pub struct Seen {
    /// Who acted.
    pub seat: Seat,
    /// What was done.
    pub act: Outline,
    /// Whether the arguments are shown as null.
    pub hidden: bool,
    /// The state number before the action.
    pub number: Number,
    /// The turn before the action.
    pub turn: u32,
    /// The phase before the action, if any.
    pub phase: Option<PhaseId>,
}
