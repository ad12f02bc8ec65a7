//! The messages to clients.

use crate::match_row::MatchRow;
use crate::protocol::Protocol;
use crate::reason::Reason;
use crate::refusal::Refusal;
use game_sheet::{Bye, Key, List, MatchName, Number, Seat, Text};
use json_tree::Tree;

/// A message to a client. The parts that a game or a sheet gives form to are JSON values.
#[derive(Drop)]
pub enum ServerMsg {
    /// The names of the games that are played here, each of 1 to 32 bytes.
    Games(List<Text>),
    /// The matches of a game, in the order of their rooms.
    Matches(List<MatchRow>),
    /// The match that was looked at.
    Match(MatchRow),
    /// A match was made.
    Created {
        /// Which match.
        name: MatchName,
    },
    /// The session's player sits at a seat.
    Joined {
        /// The secret by which the player acts for the seat.
        key: Key,
        /// Which match.
        name: MatchName,
        /// Which seat.
        seat: Seat,
    },
    /// The player at a seat has the new name.
    Renamed {
        /// Which match.
        name: MatchName,
        /// Which seat.
        seat: Seat,
    },
    /// A seat is free again.
    Left {
        /// Which match.
        name: MatchName,
        /// Which seat.
        seat: Seat,
    },
    /// The bot at a seat is asked to leave it.
    Asked {
        /// Which match.
        name: MatchName,
        /// Which seat.
        seat: Seat,
    },
    /// The first line of a session: the whole state as its viewer sees it.
    Sync {
        /// Which match.
        name: MatchName,
        /// The viewer's seat; none for a spectator.
        seat: Option<Seat>,
        /// How the session is told of each accepted action.
        protocol: Protocol,
        /// The snapshot.
        snapshot: Tree,
    },
    /// One accepted action, in a session of protocol 1.
    Update {
        /// The context after it.
        ctx: Tree,
        /// The log's entry of it.
        entry: Tree,
        /// The game's state after it, as the viewer sees it.
        g: Tree,
        /// The state number after it.
        number: Number,
    },
    /// One accepted action, in a session of protocol 2. It names the state number before it too, which is one less.
    Change {
        /// The members of the context that it changed, an object.
        ctx: Tree,
        /// The log's entry of it.
        entry: Tree,
        /// The names of the members that the state has no more, a list.
        gone: Tree,
        /// The members of the state that it changed, an object, as the viewer sees them.
        put: Tree,
        /// The state number after it, at least 1.
        number: Number,
    },
    /// The session's own action was accepted.
    Ok {
        /// The state number after it.
        number: Number,
        /// The action's ticket.
        ticket: u32,
    },
    /// The session's own action was refused.
    No {
        /// The state number at which it fell.
        number: Number,
        /// The first rule that it broke.
        reason: Reason,
        /// The action's ticket.
        ticket: u32,
    },
    /// There was no memory for the request; it may be made again.
    Again {
        /// The action's ticket; none for a request that is no action.
        ticket: Option<u32>,
    },
    /// The request is refused.
    Refused(Refusal),
    /// The stream ends.
    Bye(Bye),
}
