//! What a room is asked.

use game_sheet::{Key, Seat, Text, Viewer};
use wire_json::{Protocol, Submission};

/// One call on a room, made by a pass.
#[derive(Drop)]
pub enum RoomCall<X> {
    /// Makes a match. Replied by `Created`, or `Busy`, `BadSeats` or `NoStart`.
    Create {
        /// Its game.
        game: X,
        /// Its number of seats.
        seats: u8,
        /// The seed of its random words.
        seed: [u8; 32],
    },
    /// Seats a player at a free seat of the match that stands. Replied by `Joined`, or `NoMatch`, `NoSeat`, `SeatTaken` or
    /// `BadName`.
    Join {
        /// The match's serial.
        serial: u64,
        /// The seat.
        seat: Seat,
        /// The player's name.
        name: Text,
        /// The key that the seat's sessions show from now on.
        key: Key,
    },
    /// Gives the player at a seat another name. Replied by `Renamed`, or `NoMatch`, `NoSeat`, `Unauthorized` or `BadName`.
    Rename {
        /// The match's serial.
        serial: u64,
        /// The seat.
        seat: Seat,
        /// The key of its player.
        key: Key,
        /// The new name.
        name: Text,
    },
    /// Frees a seat, and ends its sessions. The last player's leaving removes the match. Replied by `Left`, or `NoMatch`,
    /// `NoSeat` or `Unauthorized`. It takes no memory.
    Leave {
        /// The match's serial.
        serial: u64,
        /// The seat.
        seat: Seat,
        /// The key of its player.
        key: Key,
    },
    /// Asks what everybody may see of the match that stands. Replied by `Looked` or `NoMatch`.
    Look {
        /// The match's serial; none for whichever stands.
        serial: Option<u64>,
    },
    /// Attaches the pass to the match that stands. Replied by `Attached`, or `AlreadyAttached`, `NoMatch` or `Unauthorized`.
    Attach {
        /// The match's serial.
        serial: u64,
        /// The seat that looks, with its key; none for a spectator.
        viewer: Viewer,
        /// How the session is told of accepted actions.
        protocol: Protocol,
    },
    /// Submits an action for the attached session. Replied by `Verdict` or `NotAttached`.
    Submit(Submission),
    /// Takes what waits for the attached session; with its end, the pass is attached no more. Replied by `Taken` or
    /// `NotAttached`. It takes no memory.
    Take,
    /// Ends the pass's attachment. What waits is lost. Replied by `Detached` or `NotAttached`. It takes no memory.
    Detach,
    /// Removes the match, as its last player's leaving does: every session that looks at it ends with `left`, and the room is
    /// free. It is for the host: no line of a session makes it. Replied by `Cleared` or `NoMatch`. It takes no memory.
    Clear {
        /// The match's serial.
        serial: u64,
    },
}
