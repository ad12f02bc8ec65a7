//! What a described game is made of, for whoever makes one. `PartFault` says what `Described::checked` tests of it; nothing
//! that holds of games hangs on the rest.

use game_code::{Expression, Piece};
use game_sheet::{List, Sheet};
use game_slots::{Items, Slots};
use slot_json::Layout;

/// All that a described game is made of.
pub struct GameParts {
    /// The fixed description of the game. It breaks none of the ten rules.
    pub sheet: Sheet,
    /// The names and rows of the slots. They make a form, the text of a state is short, each slot fits as it starts, and the
    /// greatest number of seats is the sheet's.
    pub layout: Layout,
    /// The rows of constants, by the places that code names.
    pub constants: Slots,
    /// Makes the first state, from that in which each slot is as it starts. It queues no event.
    pub setup: Piece,
    /// What each move of the sheet does, in the sheet's order.
    pub moves: List<MoveCode>,
    /// What happens in turns where the phase has none of its own.
    pub turn: TurnCode,
    /// What happens in each phase of the sheet, in the sheet's order.
    pub phases: List<PhaseCode>,
    /// How the match ends: the first that ends it counts.
    pub ends: List<EndCode>,
    /// What happens once the match has ended.
    pub on_end: Piece,
}

impl Drop for GameParts {
    fn drop(self) {
        let GameParts {
            sheet,
            layout,
            constants,
            setup,
            moves,
            turn,
            phases,
            ends,
            on_end,
        } = self;
        drop(sheet);
        drop(layout);
        drop(constants);
        drop(setup);
        drop(moves);
        drop(turn);
        drop(phases);
        drop(ends);
        drop(on_end);
    }
}

/// One move: its arguments, when it is allowed, and what it does.
pub struct MoveCode {
    /// Its arguments in order, at most 8 in all groups together. At most 4,096 rows of them are offered: the product of the
    /// groups, where a group from a list has at most as many as its list may have items.
    pub arguments: List<ArgumentGroup>,
    /// Whether it is allowed, where its arguments are right in number, kind and range. Where arguments come from a list, it
    /// begins with the test that their number is an item of it. It reads no secret slots, and of seats' slots those of the seat
    /// that moves alone.
    pub when: Expression,
    /// What it does.
    pub code: Piece,
    /// Whether it may be undone.
    pub undoable: bool,
}

impl Drop for MoveCode {
    fn drop(self) {
        let MoveCode {
            arguments,
            when,
            code,
            undoable: _,
        } = self;
        drop(arguments);
        drop(when);
        drop(code);
    }
}

/// Arguments that are offered together.
pub enum ArgumentGroup {
    /// One argument.
    One(ArgumentRow),
    /// Arguments that are offered where their number is an item of a list.
    Listed(ListedRow),
}

impl Drop for ArgumentGroup {
    fn drop(self) {
        match self {
            ArgumentGroup::One(row) => drop(row),
            ArgumentGroup::Listed(row) => drop(row),
        }
    }
}

/// One argument: what it may be, and what of that is offered.
pub struct ArgumentRow {
    /// What it may be.
    pub kind: ArgumentKind,
    /// The values that are offered, in order; none where all of its range is, or no text. Null is never offered.
    pub offers: Option<Items>,
}

impl Drop for ArgumentRow {
    fn drop(self) {
        let ArgumentRow { kind: _, offers } = self;
        drop(offers);
    }
}

/// What an argument may be.
#[derive(Clone, Copy)]
pub enum ArgumentKind {
    /// A number of a range.
    Number(NumberRange),
    /// A text.
    Text,
}

/// A range of numbers, which isn't empty.
#[derive(Clone, Copy)]
pub struct NumberRange {
    /// The least one: 0 of a seat.
    pub least: i32,
    /// The greatest one: of a seat, one below the greatest number of seats.
    pub greatest: i32,
    /// Whether it is a seat. Then it must also be one of the match.
    pub seat: bool,
}

/// Arguments that are offered where their number is an item of a list. That they are allowed there alone is said by the move's
/// condition. The number of the first is how far it is above the least of its range.
/// With each further argument it is the number so far, times how many numbers that argument's range has, and how far that
/// argument is above its least. So the rows of all ranges, in order and the last fastest, have the numbers from 0 on.
pub struct ListedRow {
    /// The ranges of the arguments. The product of how many numbers they have is below 2 to the power of 31.
    pub ranges: List<NumberRange>,
    /// How many items the list has: `Expression::Length` of it. As `when`, it reads what the seat that moves sees.
    pub length: Expression,
    /// The item at the place that is the newest local: `Expression::Item` of it at `Expression::Local(0)`. As `when`, it reads
    /// what the seat that moves sees.
    pub item: Expression,
    /// How many items the list has at most. No more are looked at.
    pub most: u16,
}

impl Drop for ListedRow {
    fn drop(self) {
        let ListedRow {
            ranges,
            length,
            item,
            most: _,
        } = self;
        drop(ranges);
        drop(length);
        drop(item);
    }
}

/// What happens in turns. A phase with turns of its own has these alone.
pub struct TurnCode {
    /// As a turn begins.
    pub on_begin: Piece,
    /// As a turn ends.
    pub on_end: Piece,
    /// After each move, with the seat that made it.
    pub on_move: Piece,
    /// Whether the turn ends; none where it doesn't end by itself.
    pub end_if: Option<Expression>,
    /// The common slot whose items are the play order, where the sheet's order is the game's own.
    pub order: Option<u8>,
}

impl Drop for TurnCode {
    fn drop(self) {
        let TurnCode {
            on_begin,
            on_end,
            on_move,
            end_if,
            order: _,
        } = self;
        drop(on_begin);
        drop(on_end);
        drop(on_move);
        drop(end_if);
    }
}

/// What happens in a phase.
pub struct PhaseCode {
    /// What happens in its turns; none where it has no turn of its own, as in the sheet.
    pub turn: Option<TurnCode>,
    /// As the phase begins.
    pub on_begin: Piece,
    /// As the phase ends.
    pub on_end: Piece,
    /// Whether the phase ends; none where it doesn't end by itself.
    pub end_if: Option<Expression>,
}

impl Drop for PhaseCode {
    fn drop(self) {
        let PhaseCode {
            turn,
            on_begin,
            on_end,
            end_if,
        } = self;
        drop(turn);
        drop(on_begin);
        drop(on_end);
        drop(end_if);
    }
}

/// One way in which the match ends.
pub struct EndCode {
    /// How it ends.
    pub kind: EndKind,
    /// The seat that wins, where that is a seat of the match; of a draw or an end whether it comes.
    pub value: Expression,
}

impl Drop for EndCode {
    fn drop(self) {
        let EndCode { kind: _, value } = self;
        drop(value);
    }
}

/// How a match ends.
#[derive(Clone, Copy)]
pub enum EndKind {
    /// A seat wins.
    Winner,
    /// Nobody wins.
    Draw,
    /// It is over.
    Ended,
}
