//! Which lines of its own a bot's link gave.

/// Which lines of its own a bot's link gave, its acts aside.
#[derive(Clone, Copy)]
pub struct Gave {
    /// The line that joins its seat.
    pub join: bool,
    /// The line that asks for its stream.
    pub sync: bool,
    /// The line that leaves its seat.
    pub leave: bool,
}
