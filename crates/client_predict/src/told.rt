//! What a client is told by a line, and what it says of an action.

use game_sheet::{Bye, NoMemory, Number};
use wire_json::Reason;

/// What a line told the client.
#[derive(Clone, Copy, PartialEq, Eq, Debug)]
pub enum Told {
    /// The whole state: a session begins.
    Synced,
    /// An accepted action, the client's own or another's.
    Updated,
    /// The client's own action was accepted.
    Accepted {
        /// The action's ticket.
        ticket: u32,
    },
    /// The client's own action was refused.
    Refused {
        /// The action's ticket.
        ticket: u32,
        /// The first rule that it broke.
        reason: Reason,
    },
    /// There was no memory for a request.
    Again {
        /// The ticket of the action; none where the request was no action.
        ticket: Option<u32>,
    },
    /// The stream ended.
    Ended(Bye),
    /// A direct answer, which concerns no stream.
    Other,
}

/// Why a line is none for the client, in this order.
#[derive(Clone, Copy, PartialEq, Eq, Debug)]
pub enum FeedNo {
    /// The client is gone, and the line is no sync.
    Gone,
    /// The line is in no form, or what it shows is nothing that this game reads, or it tells of an action before a sync.
    BadLine,
    /// It tells of an action whose number isn't the next one.
    OutOfStep {
        /// The number settled.
        have: Number,
        /// The line's number.
        was: Number,
    },
    /// No waiting action has the ticket.
    UnknownTicket {
        /// The ticket.
        ticket: u32,
    },
    /// There was no memory. The client is as before.
    NoMemory,
}

/// Why a client makes no action, in this order.
#[derive(Clone, Copy, PartialEq, Eq, Debug)]
pub enum ActNo {
    /// It has read no sync yet.
    NotSynced,
    /// It is gone.
    Gone,
    /// Thirty-two actions wait for their verdicts.
    TooManyWaiting,
    /// There was no memory. The client is as before.
    NoMemory,
}

/// Whether an action is shown before its verdict.
#[derive(Clone, Copy, PartialEq, Eq, Debug)]
pub enum Predicted {
    /// It is shown already.
    Guessed,
    /// It is only sent.
    Sent,
}

impl From<NoMemory> for FeedNo {
    ghost use Rattle.std.specs.Prelude.{◌≡◌};
    ghost use Rattle.client_predict.specs.declared.told.FeedNo.TheVariants.{NoMemory as Starved};

    ghost from_gives = { λ _ no. no ≡ Starved };

    fn from(_error: NoMemory) -> Self {
        FeedNo::NoMemory
    }
}

impl From<NoMemory> for ActNo {
    ghost use Rattle.std.specs.Prelude.{◌≡◌};
    ghost use Rattle.client_predict.specs.declared.told.ActNo.TheVariants.{NoMemory as ActStarved};

    ghost from_gives = { λ _ no. no ≡ ActStarved };

    fn from(_error: NoMemory) -> Self {
        ActNo::NoMemory
    }
}
