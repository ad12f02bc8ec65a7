//! How a bot rests.

/// What a bot's link does where it has nothing to say.
pub trait Rest: Drop {
    /// Rests a while.
    fn rest(&mut self);
}

/// No rest at all: for a bot's link that gets a turn only where it may have something to say, so that it never holds its worker up.
#[derive(Drop)]
pub struct NoRest;

impl Rest for NoRest {
    fn rest(&mut self) {}
}
