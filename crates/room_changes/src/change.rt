//! A change that a room accepted.

use game_sheet::{Key, Seat, Text};
use wire_json::Asked;

/// One change of a room's matches. The match is the one that stands.
#[derive(Drop)]
pub enum Change<X> {
    /// A match was made.
    Create {
        /// Its game.
        game: X,
        /// Its number of seats.
        seats: u8,
        /// The seed of its random words.
        seed: [u8; 32],
    },
    /// A player was seated.
    Join {
        /// The seat.
        seat: Seat,
        /// The player's name.
        name: Text,
        /// The key that the seat's sessions show.
        key: Key,
    },
    /// A player got another name.
    Rename {
        /// The seat.
        seat: Seat,
        /// The key of its player.
        key: Key,
        /// The new name.
        name: Text,
    },
    /// A player left, with whom the match goes where nobody else sits at it.
    Leave {
        /// The seat.
        seat: Seat,
        /// The key of its player.
        key: Key,
    },
    /// The match was cleared by whoever runs the room.
    Clear,
    /// An action was accepted.
    Act {
        /// Whose it was.
        seat: Seat,
        /// What was done.
        asked: Asked,
    },
}
