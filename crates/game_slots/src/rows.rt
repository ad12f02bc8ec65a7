//! What the slots of a game may hold, where one stands, and what may be done to it.

use game_sheet::List;
use slot_values::{Number, Value};

/// What the items of a slot are. Whether one may be null is said apart.
#[derive(Clone, Copy)]
pub enum ItemKind {
    /// Numbers of a range.
    Number {
        /// The least one.
        least: i32,
        /// The greatest one.
        greatest: i32,
    },
    /// Texts.
    Text,
}

/// How many items there are.
#[derive(Clone, Copy)]
pub enum Count {
    /// So many.
    Fixed(u16),
    /// So many for each seat of the match.
    PerSeat(u16),
}

/// A slot: a list of items, or one value.
#[derive(Clone, Copy)]
pub struct SlotRow {
    /// What its items are.
    pub kind: ItemKind,
    /// Whether an item may be null.
    pub null: bool,
    /// What each item is at the beginning.
    pub start: Value,
    /// How many items there are at the beginning: 1 in a slot of one value.
    pub begin: Count,
    /// How many items there may be: 1 in a slot of one value.
    pub most: u16,
    /// Whether it is one value, which is never taken out, and no list.
    pub lone: bool,
}

/// The slots of a game's states.
pub struct TableRows {
    /// Those that all see.
    pub common: List<SlotRow>,
    /// Those of each seat, which it alone sees.
    pub players: List<SlotRow>,
    /// Those that nobody sees.
    pub secret: List<SlotRow>,
    /// The greatest number of seats, 1 to 16.
    pub most_seats: u8,
}

impl Drop for TableRows {
    fn drop(self) {
        let TableRows {
            common,
            players,
            secret,
            most_seats: _,
        } = self;
        drop(common);
        drop(players);
        drop(secret);
    }
}

/// Where a slot stands: its part, and its place in that part's rows.
#[derive(Clone, Copy)]
pub enum SlotPlace {
    /// Among those that all see.
    Common(u8),
    /// Among those of a seat.
    Player(Number, u8),
    /// Among those that nobody sees.
    Secret(u8),
    /// Among those that live while one piece of code runs.
    Work(u8),
}

/// What is done to a slot. What doesn't fit its row isn't done.
#[derive(Clone, Copy)]
pub enum Change {
    /// Puts a value in the place of an item.
    Set(Number, Value),
    /// Adds a value at the end.
    Push(Value),
    /// Takes an item out.
    Remove(Number),
    /// Takes all items out.
    Clear,
    /// Puts a value in the place of each item.
    Fill(Value),
    /// Two items change places.
    Swap(Number, Number),
}
