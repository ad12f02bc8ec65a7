//! What a bot's link does next.

use game_sheet::Key;

/// What a bot's link does next.
#[derive(Clone, Copy)]
pub enum Step {
    /// A call had no memory, and so has every later one.
    Starve,
    /// The session ends.
    End,
    /// The link rests.
    Rest,
    /// It gives the line that leaves its seat, under this key.
    Leave(Key),
    /// It gives the line that joins its seat.
    Join,
    /// It gives the line that asks for its stream, under this key.
    Sync(Key),
    /// It asks its bot.
    Ask,
}
