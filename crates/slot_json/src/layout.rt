//! The names and rows of the slots.

use game_sheet::{List, Text};
use game_slots::TableRows;

/// The slots of the three parts of a state, with their names in byte order.
pub struct Layout {
    /// What the slots may hold.
    pub rows: TableRows,
    /// The names of the slots that all see.
    pub common: List<Text>,
    /// Those of each seat's slots.
    pub players: List<Text>,
    /// Those of the slots that nobody sees.
    pub secret: List<Text>,
}

impl Drop for Layout {
    fn drop(self) {
        let Layout {
            rows,
            common,
            players,
            secret,
        } = self;
        drop(rows);
        drop(common);
        drop(players);
        drop(secret);
    }
}
