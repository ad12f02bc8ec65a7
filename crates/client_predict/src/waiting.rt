//! An action that waits for its verdict.

use game_sheet::Number;
use wire_json::Asked;

/// An action that was sent and isn't answered yet.
pub(crate) struct Waiting {
    /// Its ticket.
    pub(crate) ticket: u32,
    /// The state number that it was made for.
    pub(crate) number: Number,
    /// What was asked for.
    pub(crate) asked: Asked,
}

impl Drop for Waiting {
    fn drop(self) {
        let Waiting {
            ticket: _,
            number: _,
            asked,
        } = self;
        drop(asked);
    }
}
