//! What a line or a reply comes to.

use crate::request::Request;
use crate::written::WrittenAnswer;
use room_history::RoomCall;

/// What a session goes on with after a line, or after a reply to its call.
#[derive(Drop)]
pub enum Next<X> {
    /// A call is to be made.
    Calls {
        /// On this room.
        room: u8,
        /// The call.
        call: RoomCall<X>,
        /// What waits for its reply.
        request: Request,
    },
    /// The session is answered.
    Says(WrittenAnswer),
    /// The session is attached to a room, and its stream says the rest.
    Attaches {
        /// The room.
        room: u8,
    },
    /// The session's stream says it all.
    Silent,
}
