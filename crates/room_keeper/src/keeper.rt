//! Who names the errands that a server is to run beside its sessions.

use room_history::RoomReply;

/// A call that a server is to make on one of its rooms.
#[derive(Clone, Copy, PartialEq, Eq)]
pub enum Errand {
    /// Clears a match.
    Clear {
        /// The room.
        room: u8,
        /// The match's serial.
        serial: u64,
    },
    /// Looks at what everybody may see of a match.
    Look {
        /// The room.
        room: u8,
        /// The match's serial.
        serial: u64,
    },
}

/// Names errands, one after another, and is told what came of each. A server asks again and again, some ten times a second where it named none.
pub trait Keeper: Drop {
    /// What is to be done; none for now. It waits for nobody who hasn't come. A match that doesn't stand any more may be named: nothing comes of it
    /// then.
    fn next(&mut self) -> Option<Errand>;

    /// The reply to the errand that was named last; `NoMatch` where there is no such room. A server tells it before it asks for the next one.
    fn told(&mut self, reply: RoomReply);
}

/// A keeper that names no errand: the type of the keeper where a server has none.
#[derive(Clone, Copy)]
pub struct NoKeeper;

impl Keeper for NoKeeper {
    fn next(&mut self) -> Option<Errand> {
        None
    }

    fn told(&mut self, reply: RoomReply) {
        drop(reply);
    }
}
