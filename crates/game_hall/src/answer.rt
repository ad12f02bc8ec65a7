//! The direct answers to a session's lines.

use game_sheet::{Key, List, MatchName, Seat};
use wire_json::{MatchRow, Refusal};

/// A direct answer: a message to a client that stands in no stream.
#[derive(Drop)]
pub enum Answer {
    /// The names of the games.
    Games,
    /// The matches of a game.
    Matches(List<MatchRow>),
    /// The match that was looked at.
    Match(MatchRow),
    /// A match was made.
    Created {
        /// The match.
        name: MatchName,
    },
    /// A player sits at a seat.
    Joined {
        /// The player's key.
        key: Key,
        /// The match.
        name: MatchName,
        /// The seat.
        seat: Seat,
    },
    /// A player has another name.
    Renamed {
        /// The match.
        name: MatchName,
        /// The player's seat.
        seat: Seat,
    },
    /// A player has left.
    Left {
        /// The match.
        name: MatchName,
        /// The seat, which is free.
        seat: Seat,
    },
    /// The bot at a seat was asked to leave it.
    Asked {
        /// The match.
        name: MatchName,
        /// The seat.
        seat: Seat,
    },
    /// There was no memory for the request.
    Again {
        /// The ticket of an act; none for another request.
        ticket: Option<u32>,
    },
    /// The request is refused.
    Refused(Refusal),
}
