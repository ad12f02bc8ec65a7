//! What became of an action.

use crate::reason::Reason;
use game_sheet::Number;

/// The answer to an action of a session.
#[derive(Clone, Copy)]
pub enum Verdict {
    /// The action was accepted.
    Ok {
        /// The state number after it.
        number: Number,
    },
    /// The action broke a rule, and changed nothing.
    No {
        /// The state number at which it fell.
        number: Number,
        /// The first rule that it broke.
        reason: Reason,
    },
}
