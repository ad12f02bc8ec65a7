//! A snapshot by its parts.

use game_sheet::{Ctx, Number};
use move_log::Entry;

/// What a client shows of a match: the parts of a snapshot, of which the context and the log are always the settled one's.
#[derive(Drop)]
pub struct Shown<'a, G> {
    /// The state number.
    pub number: Number,
    /// The context.
    pub ctx: &'a Ctx,
    /// The viewer's own part of the game's state.
    pub g: &'a G,
    /// The log.
    pub log: &'a [Entry],
}
