//! The direct answer to a session's line.

use game_sheet::Bytes;
use session_driver::Tally;

/// The direct answer to a session's line.
#[derive(Drop)]
pub struct Said {
    /// Its line; no bytes where the line has no direct answer.
    pub line: Bytes,
    /// Whether it is `again`: there was no memory.
    pub again: bool,
    /// How the action fared that the line asked for, if it asked for one.
    pub tally: Tally,
}
