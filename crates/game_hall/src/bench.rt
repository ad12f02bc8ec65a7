//! A core's side of the bench, where the seats of bots are kept.

use game_sheet::{MatchName, Seat};

/// What a session's core knows of the bench.
#[derive(Drop)]
pub enum Bench {
    /// There is none, so no seat is a bot's.
    Absent,
    /// Nothing is asked of it.
    Idle,
    /// The bot at a seat is to be asked to leave.
    Wants {
        /// The match.
        name: MatchName,
        /// The seat.
        seat: Seat,
    },
    /// The bench was asked, and its answer isn't known yet.
    Sought {
        /// The match.
        name: MatchName,
        /// The seat.
        seat: Seat,
    },
}
