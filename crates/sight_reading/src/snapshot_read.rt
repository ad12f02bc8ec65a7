//! Reads the value of a snapshot back.

ghost use Rattle.std.specs.Prelude.{◌≡◌, IfOk, IfSome, Some, codes, option_and_then};
ghost use Rattle.serde_json.specs.Find.{get};
ghost use Rattle.serde_json.specs.View.{view, items_view};
ghost use Rattle.game_sheet.specs.SheetFits.{SheetFits};
ghost use Rattle.json_tree.specs.Canonical.{IsCanonical};
ghost use Rattle.sight_reading.specs.CtxReading.{ctx_in};
ghost use Rattle.player_sight.specs.PlainSnapshot.{IsPlain};
ghost use Rattle.player_sight.specs.Seen.{snap_of};
ghost use Rattle.player_sight.specs.SnapshotData.{snapshot_data};
ghost use Rattle.sight_reading.specs.SnapshotReading.{entries_from, log_in, from_state, from_ctx, snapshot_in};
ghost use Rattle.player_sight.specs.declared.shown.Snapshot.{Snapshot as Shown};

use crate::ctx_read::ctx_of;
use crate::entry_read::entry_of;
use crate::part_read::number_of;
use game_sheet::{Ctx, List, NoMemory, Number, Sheet};
use game_trait::Game;
use json_tree::{extra_field, list_of};
use move_log::Entry;
use player_sight::Snapshot;
use serde_json::Value;
use std::alloc::Global;

/// The plain snapshot that has this value; none exactly where no plain snapshot of the game has it.
pub fn from_value<X: Game>(
    alloc: Global,
    game: &X,
    v: &Value,
) -> Result<Option<Snapshot<X::G>>, NoMemory>
    ensures exact { IfOk result (λ read. read ≡ snapshot_in (X.rules game.now) (view v.now)) }
    ensures found { IfOk result (λ read. IsCanonical (view v.now) → IfSome read (λ s. IsPlain (X.rules game.now) s × (snapshot_data (X.rules game.now).sheet (snap_of (X.rules game.now) s) ≡ view v.now))) }
    ensures only { IfOk result (λ read. (s : Shown X.G) → IsPlain (X.rules game.now) s → snapshot_data (X.rules game.now).sheet (snap_of (X.rules game.now) s) ≡ view v.now → read ≡ Some s) }
{
    let read = read_snapshot(alloc, game, v)?;
    Ok(read)
}

#[tactic(auto, unfolding(crate::specs::SnapshotReading::snapshot_in))]
fn read_snapshot<X: Game>(
    alloc: Global,
    game: &X,
    v: &Value,
) -> Result<Option<Snapshot<X::G>>, NoMemory>
    ensures exact { IfOk result (λ read. read ≡ snapshot_in (X.rules game.now) (view v.now)) }
    ensures fits { SheetFits (X.rules game.now).sheet }
{
    let sheet = game.sheet();
    if extra_field(v, &["ctx", "g", "log", "number"]) {
        return Ok(None);
    }
    let Some(number) = number_of(v, "number") else {
        return Ok(None);
    };
    match ctx_member_of(alloc, sheet, v)? {
        Some(ctx) => with_ctx(alloc, game, sheet, v, number, ctx),
        None => Ok(None),
    }
}

// The snapshot of this number and context, with the state and the log that the value has.
fn with_ctx<X: Game>(
    alloc: Global,
    game: &X,
    sheet: &Sheet,
    v: &Value,
    number: Number,
    ctx: Ctx,
) -> Result<Option<Snapshot<X::G>>, NoMemory>
    requires { SheetFits sheet.now }
    ensures { IfOk result (λ read. read ≡ from_ctx (X.rules game.now) sheet.now (view v.now) number ctx) }
{
    match state_of(alloc, game, v) {
        Ok(Some(g)) => with_state(alloc, sheet, v, number, ctx, g),
        Ok(None) => {
            drop(ctx);
            Ok(None)
        }
        Err(no) => {
            drop(ctx);
            Err(no)
        }
    }
}

fn with_state<G: Drop>(
    alloc: Global,
    sheet: &Sheet,
    v: &Value,
    number: Number,
    ctx: Ctx,
    g: G,
) -> Result<Option<Snapshot<G>>, NoMemory>
    requires { SheetFits sheet.now }
    ensures { IfOk result (λ read. read ≡ from_state sheet.now (view v.now) number ctx g) }
{
    match log_member_of(alloc, sheet, v) {
        Ok(Some(log)) => Ok(Some(Snapshot {
            number,
            ctx,
            g,
            log,
        })),
        Ok(None) => {
            drop(ctx);
            drop(g);
            Ok(None)
        }
        Err(no) => {
            drop(ctx);
            drop(g);
            Err(no)
        }
    }
}

fn ctx_member_of(alloc: Global, sheet: &Sheet, v: &Value) -> Result<Option<Ctx>, NoMemory>
    requires { SheetFits sheet.now }
    ensures { IfOk result (λ read. read ≡ option_and_then (ctx_in sheet.now) (get (codes "ctx") (view v.now))) }
{
    match v.get("ctx") {
        Some(ctx) => ctx_of(alloc, sheet, ctx),
        None => Ok(None),
    }
}

fn state_of<X: Game>(alloc: Global, game: &X, v: &Value) -> Result<Option<X::G>, NoMemory>
    ensures { IfOk result (λ read. read ≡ option_and_then (X.rules game.now).read (get (codes "g") (view v.now))) }
{
    match v.get("g") {
        Some(g) => game.from_value(alloc, g),
        None => Ok(None),
    }
}

fn log_member_of(alloc: Global, sheet: &Sheet, v: &Value) -> Result<Option<List<Entry>>, NoMemory>
    requires { SheetFits sheet.now }
    ensures { IfOk result (λ read. read ≡ log_in sheet.now (get (codes "log") (view v.now))) }
{
    match list_of(v, "log") {
        Ok(items) => entries_of(alloc, sheet, items),
        Err(_) => Ok(None),
    }
}

fn entries_of(
    alloc: Global,
    sheet: &Sheet,
    items: &[Value],
) -> Result<Option<List<Entry>>, NoMemory>
    requires { SheetFits sheet.now }
    ensures { IfOk result (λ read. read ≡ entries_from sheet.now (items_view items.now)) }
{
    let mut entries = List::new(alloc);
    for item in items {
        let Some(entry) = entry_of(alloc, sheet, item)? else {
            return Ok(None);
        };
        entries.push(entry)?;
    }
    Ok(Some(entries))
}
