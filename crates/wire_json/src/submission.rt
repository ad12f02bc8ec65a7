//! An action as a session submits it.

use crate::asked::Asked;
use game_sheet::{Key, MatchName, Number};

/// An action that a session submits to a match.
pub struct Submission {
    /// Which match.
    pub name: MatchName,
    /// The key of the session's seat.
    pub key: Key,
    /// The state number that the action was made for.
    pub number: Number,
    /// The client's own count, with which the answer comes back.
    pub ticket: u32,
    /// What is asked for.
    pub asked: Asked,
}

impl Drop for Submission {
    fn drop(self) {
        let Submission {
            name: _,
            key: _,
            number: _,
            ticket: _,
            asked,
        } = self;
        drop(asked);
    }
}
