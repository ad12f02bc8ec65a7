//! What a viewer is shown of a match, as one value.

use game_sheet::{Ctx, List, Number};
use move_log::Entry;

/// What a viewer is shown of a match.
pub struct Snapshot<G> {
    /// The state number.
    pub number: Number,
    /// The context.
    pub ctx: Ctx,
    /// The viewer's own part of the game's state.
    pub g: G,
    /// The log, with what the viewer may not see left out.
    pub log: List<Entry>,
}

impl<G: Drop> Drop for Snapshot<G> {
    fn drop(self) {
        let Snapshot {
            number: _,
            ctx,
            g,
            log,
        } = self;
        drop(ctx);
        drop(g);
        drop(log);
    }
}
