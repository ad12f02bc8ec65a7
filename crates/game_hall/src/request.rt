//! Open requests.

use crate::rows::Rows;
use game_sheet::{Key, MatchName, Seat, Text};

/// What a request needs of itself once its room replies.
#[derive(Drop)]
pub enum Request {
    /// A match is to be made in the first room that isn't busy.
    Creating {
        /// The game's name.
        game: Text,
        /// The number of seats.
        seats: u8,
        /// The seed of the match's words.
        seed: [u8; 32],
        /// The room that is asked.
        room: u8,
    },
    /// The matches of a game are to be listed.
    Listing {
        /// The game's name.
        game: Text,
        /// Those of the rooms before.
        rows: Rows,
        /// The room that is looked at.
        room: u8,
    },
    /// A match is looked at.
    Looking,
    /// A player is to be seated.
    Joining {
        /// The match.
        name: MatchName,
        /// The seat.
        seat: Seat,
        /// The player's key.
        key: Key,
    },
    /// A player is to have another name.
    Renaming {
        /// The match.
        name: MatchName,
        /// The player's seat.
        seat: Seat,
    },
    /// A player is to leave.
    Leaving {
        /// The match.
        name: MatchName,
        /// The player's seat.
        seat: Seat,
    },
    /// The session is to be attached.
    Syncing {
        /// The match's room.
        room: u8,
    },
    /// An action is to be judged.
    Acting {
        /// The action's ticket.
        ticket: u32,
    },
}
