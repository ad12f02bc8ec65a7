//! What a bot is shown.

use any_game::AnyG;
use game_sheet::{Ctx, Number};

/// What a bot is shown of a match at one state number, as its seat's player sees it.
pub struct Glance {
    /// The state number.
    pub number: Number,
    /// The context.
    pub ctx: Ctx,
    /// The player's own part of the game's state.
    pub g: AnyG,
}

impl Drop for Glance {
    fn drop(self) {
        let Glance { number: _, ctx, g } = self;
        drop(ctx);
        drop(g);
    }
}
