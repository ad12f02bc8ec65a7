//! What a file says but for its code, for those who load the code and make the game.

ghost use Rattle.std.specs.Prelude.{◌≡◌};

use game_sheet::{List, Place, Sheet, Text};
use game_slots::{Items, SlotRow, Slots};
use game_syntax::{Id, Tree};
use slot_json::Layout;

/// What a file says but for its code. Places of moves, phases, stages and specs are those of the sheet.
pub struct Frame {
    /// The sheet, which breaks no rule. A move whose `client` isn't said is one that a client may guess: see `with_clients`.
    pub sheet: Sheet,
    /// The names and rows of the state's slots, whose states have texts of at most 8,192 bytes.
    pub layout: Layout,
    /// What code can name.
    pub names: FrameNames,
    /// What each move of the sheet is given, in its order.
    pub moves: List<MoveFrame>,
    /// The slots that play orders are read from.
    pub orders: FrameOrders,
    /// The name of each spec of the sheet, in its order, and the slot of its seats.
    pub specs: List<SpecFrame>,
    /// The common list of numbers, one for each seat, by which seats are ranked.
    pub scores: Option<u8>,
}

/// What code can name.
pub struct FrameNames {
    /// The constants, in the byte order of their names.
    pub constants: List<ConstantFrame>,
    /// The items of each constant that is a row, at most 65,535 rows.
    pub rows: Slots,
    /// The slots.
    pub slots: FrameSlots,
}

/// The slots of each part, in the byte order of their names, at most 64. A slot's place here is that in the part's rows.
pub struct FrameSlots {
    /// Slots that all see.
    pub common: List<SlotFrame>,
    /// Slots of each seat.
    pub players: List<SlotFrame>,
    /// Slots that nobody sees.
    pub secret: List<SlotFrame>,
    /// Slots that live while one piece of code runs.
    pub work: List<SlotFrame>,
}

/// A constant with its name.
pub struct ConstantFrame {
    /// Its name.
    pub name: Text,
    /// What it is.
    pub kind: ConstantKind,
}

/// What a constant is.
#[derive(Clone, Copy)]
pub enum ConstantKind {
    /// A number.
    Number(i32),
    /// A row of 1 to 1,024 numbers.
    Numbers {
        /// Its place among the rows of constants.
        row: u16,
        /// Its least number.
        least: i32,
        /// Its greatest number.
        greatest: i32,
    },
    /// A row of 1 to 1,024 texts, by its place among the rows of constants.
    Texts(u16),
}

/// A slot with its name.
pub struct SlotFrame {
    /// Its name.
    pub name: Text,
    /// What it is.
    pub slot: SlotType,
}

/// What a slot is.
#[derive(Clone, Copy)]
pub struct SlotType {
    /// What it may hold, and how it starts.
    pub row: SlotRow,
    /// How many columns it has, if it is a grid.
    pub columns: Option<u16>,
}

/// What a move is given.
pub struct MoveFrame {
    /// Its arguments, at most 8.
    pub arguments: List<ArgumentFrame>,
    /// Those of its arguments whose number has to be an item of a list, in their order.
    pub lists: List<ListFrame>,
    /// Whether the turn ends by itself after this move, as `ends_turn` says, so that an `endTurn` in its code would end a second one.
    pub ends_turn: bool,
}

/// An argument of a move.
pub struct ArgumentFrame {
    /// Its name, which nothing else in sight has.
    pub name: Text,
    /// What it may be.
    pub kind: ArgumentKind,
    /// What is offered, in this order; where nothing is said all of the range, and of a text nothing.
    pub offered: Option<Items>,
}

/// What an argument may be.
#[derive(Clone, Copy)]
pub enum ArgumentKind {
    /// A number of a range that isn't empty.
    Number {
        /// The least one.
        least: i32,
        /// The greatest one.
        greatest: i32,
    },
    /// A seat of the match.
    Seat,
    /// A text.
    Text,
}

/// Arguments whose number has to be an item of a list. The number of the last row of their ranges has 32 bits.
pub struct ListFrame {
    /// The first of them.
    pub first: u8,
    /// The argument past the last of them.
    pub past: u8,
    /// Which text of the move says so.
    pub text: u8,
    /// That text's tree.
    pub tree: Tree,
    /// The list, as a node of the tree.
    pub list: Id,
}

/// The common lists of numbers that play orders are read from.
pub struct FrameOrders {
    /// That of the sheet's turn, if its order is a slot.
    pub turn: Option<u8>,
    /// That of each phase's own turn, in the order of the sheet, if it has one and its order is a slot.
    pub phases: List<Option<u8>>,
}

/// A spec of active players.
pub struct SpecFrame {
    /// Its name.
    pub name: Text,
    /// The slot whose numbers are the seats that are active by it, beside those of the sheet's row.
    pub seats: Option<SlotSeats>,
}

/// Seats that a slot names.
#[derive(Clone, Copy)]
pub struct SlotSeats {
    /// A common slot of numbers, a list or not.
    pub slot: u8,
    /// Where they are put.
    pub place: Place,
}

impl Drop for Frame {
    fn drop(self) {
        let Frame {
            sheet,
            layout,
            names,
            moves,
            orders,
            specs,
            scores: _,
        } = self;
        drop(sheet);
        drop(layout);
        drop(names);
        drop(moves);
        drop(orders);
        drop(specs);
    }
}

impl Drop for FrameNames {
    fn drop(self) {
        let FrameNames {
            constants,
            rows,
            slots,
        } = self;
        drop(constants);
        drop(rows);
        drop(slots);
    }
}

impl FrameNames {
    /// The items of the rows of constants alone.
    pub fn into_rows(self) -> Slots
        ensures { result ≡ self.rows }
    {
        let FrameNames {
            constants,
            rows,
            slots,
        } = self;
        drop(constants);
        drop(slots);
        rows
    }
}

impl Drop for FrameSlots {
    fn drop(self) {
        let FrameSlots {
            common,
            players,
            secret,
            work,
        } = self;
        drop(common);
        drop(players);
        drop(secret);
        drop(work);
    }
}

impl Drop for ConstantFrame {
    fn drop(self) {
        let ConstantFrame { name, kind: _ } = self;
        drop(name);
    }
}

impl Drop for SlotFrame {
    fn drop(self) {
        let SlotFrame { name, slot: _ } = self;
        drop(name);
    }
}

impl Drop for MoveFrame {
    fn drop(self) {
        let MoveFrame {
            arguments,
            lists,
            ends_turn: _,
        } = self;
        drop(arguments);
        drop(lists);
    }
}

impl Drop for ArgumentFrame {
    fn drop(self) {
        let ArgumentFrame {
            name,
            kind: _,
            offered,
        } = self;
        drop(name);
        drop(offered);
    }
}

impl Drop for ListFrame {
    fn drop(self) {
        let ListFrame {
            first: _,
            past: _,
            text: _,
            tree,
            list: _,
        } = self;
        drop(tree);
    }
}

impl Drop for FrameOrders {
    fn drop(self) {
        let FrameOrders { turn: _, phases } = self;
        drop(phases);
    }
}

impl Drop for SpecFrame {
    fn drop(self) {
        let SpecFrame { name, seats: _ } = self;
        drop(name);
    }
}
