//! What a room replies.

use game_sheet::{Bye, Bytes};
use wire_json::{MatchRow, Verdict};

/// The reply to a call on a room. A call that takes memory may also be replied by `NoMemory`.
#[derive(Drop)]
pub enum RoomReply {
    /// A match was made.
    Created {
        /// Its serial, from 1.
        serial: u64,
    },
    /// The player sits at the seat.
    Joined,
    /// The player has the new name.
    Renamed,
    /// The seat is free.
    Left,
    /// The match is removed.
    Cleared,
    /// What everybody may see of the match.
    Looked(MatchRow),
    /// The pass is attached.
    Attached,
    /// What became of the action.
    Verdict(Verdict),
    /// What waited for the session.
    Taken {
        /// Whole lines, in order.
        bytes: Bytes,
        /// How the session ended, if it has.
        end: Option<Bye>,
    },
    /// The pass is attached no more.
    Detached,
    /// A match stands already, or the room has used up its serials.
    Busy,
    /// The game isn't played by that many seats.
    BadSeats,
    /// The game can't begin.
    NoStart,
    /// No such match stands.
    NoMatch,
    /// The match has no such seat, or nobody sits there.
    NoSeat,
    /// Somebody sits at the seat.
    SeatTaken,
    /// The name hasn't 1 to 32 bytes, or one of them is below 32.
    BadName,
    /// The pass is attached already, be it to a session that has ended.
    AlreadyAttached,
    /// The key isn't that of a player at the seat.
    Unauthorized,
    /// The pass isn't attached, or its session has ended and can't act.
    NotAttached,
    /// There was no memory. Nothing has changed.
    NoMemory,
}
