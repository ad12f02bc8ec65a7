//! What a line shows of an accepted action.

ghost use Rattle.std.specs.Prelude.{◌≡◌, IfOk};
ghost use Rattle.serde_json.specs.Data.{array, no_items};
ghost use Rattle.game_sheet.specs.SheetFits.{SheetFits};
ghost use Rattle.player_sight.specs.Change.{patched};
ghost use Rattle.player_sight.specs.CtxData.{ctx_data};
ghost use Rattle.sight_reading.specs.CtxReading.{ctx_in};
ghost use Rattle.client_predict.specs.Reading.{change_in, change_onto};
ghost use Rattle.client_predict.specs.Stack.{snapshot_of};

use crate::shown::Shown;
use game_sheet::{Ctx, NoMemory, Sheet};
use game_trait::Game;
use json_tree::Tree;
use move_log::Entry;
use player_sight::ctx_value;
use serde_json::Value;
use sight_reading::{ctx_of, entry_of, patched};
use std::alloc::Global;

/// The context, the log's entry and the game's state of an accepted action.
#[derive(Drop)]
pub(crate) struct Change<G> {
    /// The context after the action.
    pub(crate) ctx: Ctx,
    /// The action.
    pub(crate) entry: Entry,
    /// The viewer's part of the game's state after it.
    pub(crate) g: G,
}

/// What an update of these parts shows; none where one of them is in no form of the game.
pub(crate) fn change_of<X: Game>(
    alloc: Global,
    game: &X,
    ctx: &Tree,
    entry: &Tree,
    g: &Tree,
) -> Result<Option<Change<X::G>>, NoMemory>
    ensures { IfOk result (λ read. read ≡ change_in (X.rules game.now) ctx.now entry.now g.now) }
{
    let sheet = game.sheet();
    let Some(ctx) = ctx_of(alloc, sheet, ctx.value())? else {
        return Ok(None);
    };
    let Some(entry) = entry_of(alloc, sheet, entry.value())? else {
        return Ok(None);
    };
    let Some(g) = game.from_value(alloc, g.value())? else {
        return Ok(None);
    };
    Ok(Some(Change { ctx, entry, g }))
}

/// What an entry and the changed parts show on a settled snapshot; none where no context or no state of the game has their value.
pub(crate) fn change_onto<X: Game>(
    alloc: Global,
    game: &X,
    settled: &Shown<'_, X::G>,
    entry: Entry,
    ctx: &Tree,
    gone: &Tree,
    put: &Tree,
) -> Result<Option<Change<X::G>>, NoMemory>
    ensures { IfOk result (λ change. change
        ≡ change_onto (X.rules game.now) (snapshot_of settled.now) entry ctx.now gone.now put.now) }
{
    let Some(ctx) = ctx_onto(alloc, game.sheet(), settled.ctx, ctx)? else {
        return Ok(None);
    };
    let Some(g) = state_onto(alloc, game, settled.g, gone, put)? else {
        return Ok(None);
    };
    Ok(Some(Change { ctx, entry, g }))
}

/// The context whose value is another's with some members put in place.
fn ctx_onto(alloc: Global, sheet: &Sheet, old: &Ctx, put: &Tree) -> Result<Option<Ctx>, NoMemory>
    requires { SheetFits sheet.now }
    ensures { IfOk result (λ ctx. ctx ≡ ctx_in sheet.now (patched (ctx_data sheet.now old.now) (array no_items) put.now)) }
{
    let old = ctx_value(alloc, sheet, old)?;
    let none = Value::Array(Vec::new(alloc));
    let new = patched(alloc, &old, &none, put.value());
    drop(old);
    drop(none);
    let new = new?;
    let ctx = ctx_of(alloc, sheet, &new);
    drop(new);
    ctx
}

/// The game's state whose value is another's without the members that are gone and with those that are put.
fn state_onto<X: Game>(
    alloc: Global,
    game: &X,
    old: &X::G,
    gone: &Tree,
    put: &Tree,
) -> Result<Option<X::G>, NoMemory>
    ensures { IfOk result (λ g. g
        ≡ (X.rules game.now).read (patched ((X.rules game.now).value old.now) gone.now put.now)) }
{
    let old = game.to_value(alloc, old)?;
    let new = patched(alloc, &old, gone.value(), put.value());
    drop(old);
    let new = new?;
    let g = game.from_value(alloc, &new);
    drop(new);
    g
}
