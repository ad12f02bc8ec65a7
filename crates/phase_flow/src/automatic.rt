//! The task that comes by itself.

ghost use Rattle.std.specs.Prelude.{◌≡◌, None};
ghost use Rattle.phase_flow.specs.Automatic.{automatic, is_full, turn_ended};

use crate::rows::turn_row;
use crate::table::Table;
use crate::task::Task;
use game_sheet::{Ctx, Event, TurnRow};
use game_trait::Game;

/// The task that comes by itself on a table, if one does.
pub(crate) fn automatic<X: Game>(game: &X, table: &Table<X::G>) -> Option<Task>
    ensures { result ≡ automatic (X.rules game.now) table.now }
{
    if let Some(outcome) = game.end_if(&table.g, &table.ctx) {
        return Some(by_itself(Event::EndGame { outcome }));
    }
    if table.ctx.phase.is_some() && game.phase_end_if(&table.g, &table.ctx) {
        return Some(by_itself(Event::EndPhase));
    }
    let row = turn_row(game.sheet(), &table.ctx);
    let says = game.turn_end_if(&table.g, &table.ctx);
    turn_ended(row, &table.ctx, says)
}

/// The turn's end, where the turn ends by itself; `says` is whether the game says so.
fn turn_ended(row: &TurnRow, ctx: &Ctx, says: bool) -> Option<Task>
    ensures { result ≡ turn_ended row.now ctx.now says }
{
    if ctx.moves < row.min_moves {
        return None;
    }
    if says || is_full(row.max_moves, ctx) {
        return Some(by_itself(Event::EndTurn { to: None }));
    }
    None
}

/// Whether a turn has had its greatest count of moves, and no map stands.
fn is_full(most: Option<u32>, ctx: &Ctx) -> bool
    ensures { result ≡ is_full most ctx.now }
{
    match most {
        None => false,
        Some(most) => most <= ctx.moves && ctx.active.is_none(),
    }
}

/// An event of whoever is current when it happens.
pub(crate) fn by_itself(event: Event) -> Task
    ensures { result ≡ record { event = event; speaker = None } }
{
    Task {
        event,
        speaker: None,
    }
}
