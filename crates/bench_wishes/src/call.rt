//! What the bench is asked, and what it replies.

use game_sheet::{MatchName, Seat};

/// What is asked of the bench, of a seat of a match.
#[derive(Drop)]
pub enum WishCall {
    /// A bot has sat down.
    Sit {
        /// The match.
        name: MatchName,
        /// The bot's seat.
        seat: Seat,
    },
    /// Somebody wants the seat of a bot.
    Ask {
        /// The match.
        name: MatchName,
        /// The bot's seat.
        seat: Seat,
    },
    /// Whether somebody wants the seat of a bot.
    Wished {
        /// The match.
        name: MatchName,
        /// The bot's seat.
        seat: Seat,
    },
    /// A bot is gone.
    Rise {
        /// The match.
        name: MatchName,
        /// The bot's seat.
        seat: Seat,
    },
}

/// What the bench replies.
#[derive(Clone, Copy)]
pub enum WishReply {
    /// The bot has a row.
    Sat,
    /// The bot is to leave.
    Asked,
    /// No bot has the seat.
    NotABot,
    /// Somebody wants the seat.
    Yes,
    /// Nobody does.
    No,
    /// The bot has no row any more.
    Risen,
    /// There was no memory for a row.
    NoMemory,
}
