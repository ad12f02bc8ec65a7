//! All that a match has come to.

use game_sheet::Ctx;
use stage_map::Active;

/// The greatest count of turns and of moves with which an action begins, far below the end of their range.
pub const MOST_COUNT: u32 = 4_000_000_000;

/// The state of the game, the context of the match and its map of active players.
pub struct Table<G> {
    /// The state of the game.
    pub g: G,
    /// The context of the match.
    pub ctx: Ctx,
    /// The map with its counts, its follower and the earlier maps; the context shows a part of it.
    pub active: Active,
}

impl<G: Drop> Drop for Table<G> {
    fn drop(self) {
        let Table { g, ctx, active } = self;
        drop(g);
        drop(ctx);
        drop(active);
    }
}
