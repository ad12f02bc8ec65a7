//! What code is given from outside.

use game_sheet::{Arg, Ctx, Seat};
use game_slots::{Items, SlotRow, Table, TableRows};

/// What a piece of code is given from outside, which it doesn't change.
#[derive(Clone, Copy)]
pub struct Scene<'a> {
    /// The context of the match.
    pub context: &'a Ctx,
    /// The seat that moves; none where no seat does.
    pub seat: Option<Seat>,
    /// The arguments of the move.
    pub arguments: &'a [Arg],
    /// The rows of constants.
    pub constants: &'a [Items],
    /// The rows of the state's slots.
    pub rows: &'a TableRows,
    /// The rows of the slots of work.
    pub work: &'a [SlotRow],
}

/// What an expression reads: what is given from outside, a state and the slots of work.
#[derive(Clone, Copy)]
pub struct Sight<'a> {
    /// What is given from outside.
    pub scene: &'a Scene<'a>,
    /// The state.
    pub table: &'a Table,
    /// The slots of work.
    pub work: &'a [Items],
}
