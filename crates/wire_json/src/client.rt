//! The messages from clients.

use crate::protocol::Protocol;
use crate::submission::Submission;
use game_sheet::{Key, MatchName, Seat, Text, Viewer};

/// A message from a client.
#[derive(Drop)]
pub enum ClientMsg {
    /// Asks for the names of the games.
    Games,
    /// Asks for the matches of a game.
    Matches {
        /// The game's name, 1 to 32 bytes.
        game: Text,
    },
    /// Asks who sits in a match.
    Look {
        /// Which match.
        name: MatchName,
    },
    /// Asks for a new match.
    Create {
        /// The game's name, 1 to 32 bytes.
        game: Text,
        /// How many may play, 0 to 255.
        seats: u8,
    },
    /// Asks for a free seat of a match.
    Join {
        /// Which match.
        name: MatchName,
        /// The player's name, at most 255 bytes.
        player: Text,
        /// Which seat.
        seat: Seat,
    },
    /// Asks for another name of the player of a seat.
    Rename {
        /// The seat's key.
        key: Key,
        /// Which match.
        name: MatchName,
        /// The player's new name, at most 255 bytes.
        player: Text,
        /// Which seat.
        seat: Seat,
    },
    /// Gives a seat up.
    Leave {
        /// The seat's key.
        key: Key,
        /// Which match.
        name: MatchName,
        /// Which seat.
        seat: Seat,
    },
    /// Asks for the stream of a match.
    Sync {
        /// Which match.
        name: MatchName,
        /// Who it is for.
        viewer: Viewer,
        /// How its updates are to be told.
        protocol: Protocol,
    },
    /// Asks for an action.
    Act(Submission),
    /// Asks the bot of a seat to leave it.
    Takeover {
        /// Which match.
        name: MatchName,
        /// Which seat.
        seat: Seat,
    },
}
