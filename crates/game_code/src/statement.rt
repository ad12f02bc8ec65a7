//! Statements.

use crate::expression::{Expression, ItemList};
use game_sheet::{List, PhaseId, SpecId, StageId};
use game_slots::SlotRow;

/// An event that code asks for.
#[derive(Drop)]
pub enum Wish {
    /// Ends the turn.
    EndTurn,
    /// Ends the turn, with this seat to be the next. Null is as none; nothing is asked for where it is no seat of the match.
    EndTurnTo(Expression),
    /// Ends the phase.
    EndPhase,
    /// Ends the phase and enters this one.
    SetPhase(PhaseId),
    /// Ends the stage.
    EndStage,
    /// Sets the stage.
    SetStage(StageId),
    /// Sets the active seats.
    SetActive(SpecId),
    /// Ends the match, which this seat has won. Nothing is asked for where it is no seat of the match.
    Win(Expression),
    /// Ends the match in a draw.
    Draw,
    /// Ends the match.
    End,
}

/// What a statement does to a list. What doesn't fit its slot isn't done.
#[derive(Drop)]
pub enum Edit {
    /// Puts the second in the place of the item at the first.
    Set(Expression, Expression),
    /// Adds a value at the end.
    Push(Expression),
    /// Takes the item at a place out.
    Remove(Expression),
    /// Takes all items out.
    Clear,
    /// Puts a value in the place of each item.
    Fill(Expression),
}

/// A statement.
#[derive(Drop)]
pub enum Statement {
    /// Does nothing.
    Nothing,
    /// One after the other.
    Then(Box<Statement>, Box<Statement>),
    /// What follows in the block, with a value as the newest local.
    Let(Expression, Box<Statement>),
    /// What follows in the block, with the face of a die of so many faces as the newest local. Where there is no such die, it
    /// is null, and nothing is drawn.
    Roll(Expression, Box<Statement>),
    /// The first where the value is true, and otherwise the second.
    If(Expression, Box<Statement>, Box<Statement>),
    /// At each number of a span, which is the newest local: at most so many, from the first on, to before the second.
    For(u32, Expression, Expression, Box<Statement>),
    /// Changes a list, of the seat.
    Change(ItemList, Expression, Edit),
    /// Shuffles a list, of the seat, or as many of its first items as are said: from the last place i down to 1, the item at i
    /// changes places with the one at 1 below the face of a die of i + 1 faces.
    Shuffle(ItemList, Expression, u16),
    /// A slot of work begins anew, each item with this value.
    Begin(u8, Expression),
    /// Queues an event.
    Queue(Wish),
}

/// A piece of code, with its slots of work. They are empty until they begin.
pub struct Piece {
    /// The rows of its slots of work.
    pub work: List<SlotRow>,
    /// What it does.
    pub code: Statement,
}

impl Drop for Piece {
    fn drop(self) {
        let Piece { work, code } = self;
        drop(work);
        drop(code);
    }
}
