//! An accepted action, as the lines that tell of it are made from it.

ghost use Rattle.std.specs.Prelude.{◌≡◌, Some};
ghost use Rattle.std.specs.Option.{ForSome};
ghost use Rattle.serde_json.specs.Written.{compact_text};
ghost use Rattle.move_log.specs.Redact.{redact};
ghost use Rattle.player_sight.specs.Change.{put_part};
ghost use Rattle.player_sight.specs.CtxData.{ctx_data};
ghost use Rattle.player_sight.specs.EntryData.{entry_data};

use game_trait::Game;
use move_log::Entry;
use reducer::{Prepared, State};

/// An action that a state of a match has accepted and not yet taken in, with what it comes to and its entry of the log.
#[derive(Drop)]
pub struct Action<'a, X: Game> {
    /// The game.
    pub game: &'a X,
    /// The state before it.
    pub state: &'a State<X::G>,
    /// What it comes to.
    pub prepared: &'a Prepared<X::G>,
    /// Its entry of the log.
    pub entry: &'a Entry,
    /// The texts in it that more than one viewer sees.
    pub texts: &'a SharedTexts,
    ghost ctx: { texts.now.ctx.items ≡ compact_text (ctx_data (X.rules game.now).sheet prepared.now.table.ctx) },
    ghost own: { texts.now.entry.items ≡ compact_text (entry_data (X.rules game.now).sheet (redact (X.rules game.now).sheet (Some entry.now.seat) entry.now)) },
    ghost changed: { ForSome texts.now.changed (λ t. t.items ≡ compact_text (put_part (ctx_data (X.rules game.now).sheet state.now.table.ctx)
        (ctx_data (X.rules game.now).sheet prepared.now.table.ctx))) },
}

/// What all viewers see of an action, and what all see from whom no argument is hidden.
#[derive(Drop)]
pub struct SharedTexts {
    /// The text of the context after it.
    pub ctx: Vec<u8>,
    /// The text of its entry as the seat sees it that acted.
    pub entry: Vec<u8>,
    /// The text of what changed in the context, if it was made: where somebody is told changes.
    pub changed: Option<Vec<u8>>,
}
