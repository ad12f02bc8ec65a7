//! The snapshot that a viewer is shown, and its value.

ghost use Rattle.std.specs.Prelude.{◌≡◌, ◌≤◌, ◌+◌, max, map, IfOk, OnOk, IsTrue, false, codes};
ghost use Rattle.std.specs.List.{AllByRecursion};
ghost use Rattle.serde_json.specs.Data.{object, no_members, put, depth};
ghost use Rattle.serde_json.specs.View.{view, members_view};
ghost use Rattle.serde_json.specs.Written.{has_float};
ghost use Rattle.move_log.specs.Redact.{redact};
ghost use Rattle.player_sight.specs.Plain.{IsPlainCtx};
ghost use Rattle.player_sight.specs.PlainSnapshot.{IsPlain, MayBeShown};
ghost use Rattle.player_sight.specs.Seen.{seen, snap_of};
ghost use Rattle.player_sight.specs.CtxData.{ctx_data};
ghost use Rattle.player_sight.specs.EntryData.{log_data};
ghost use Rattle.player_sight.specs.SnapshotData.{snapshot_data};

use crate::context::ctx_value;
use crate::entries::log_value;
use crate::members::put_number;
use crate::shown::Snapshot;
use game_sheet::{Ctx, List, NoMemory, Number, Seat, Sheet};
use game_trait::Game;
use move_log::Entry;
use serde_json::{Map, Value};
use std::alloc::Global;

/// What a viewer is shown of a match: a seat, or a spectator where there is none.
pub fn snapshot<X: Game>(
    alloc: Global,
    game: &X,
    number: Number,
    ctx: &Ctx,
    g: &X::G,
    log: &[Entry],
    viewer: Option<Seat>,
) -> Result<Snapshot<X::G>, NoMemory>
    ensures value { IfOk result (λ s. s ≡ seen (X.rules game.now) number ctx.now g.now log.now viewer) }
    ensures plain { IsTrue ((X.rules game.now).own g.now) → IsPlainCtx (X.rules game.now).sheet ctx.now → AllByRecursion (MayBeShown (X.rules game.now).sheet) log.now
        → IfOk result (IsPlain (X.rules game.now)) }
{
    let shown = game.view(alloc, g, ctx, viewer)?;
    let ctx = ctx.copy(alloc)?;
    let log = redacted_log(alloc, game.sheet(), log, viewer)?;
    Ok(Snapshot {
        number,
        ctx,
        g: shown,
        log,
    })
}

fn redacted_log(
    alloc: Global,
    sheet: &Sheet,
    log: &[Entry],
    viewer: Option<Seat>,
) -> Result<List<Entry>, NoMemory>
    ensures { IfOk result (λ shown. shown ≡ map (redact sheet.now viewer) log.now) }
{
    let mut shown = List::new(alloc);
    for entry in log {
        shown.push(entry.redacted(sheet, viewer))?;
    }
    Ok(shown)
}

/// The value of a snapshot.
pub fn to_value<X: Game>(alloc: Global, game: &X, s: &Snapshot<X::G>) -> Result<Value, NoMemory>
    ensures value { IfOk result (λ v. view v ≡ snapshot_data (X.rules game.now).sheet (snap_of (X.rules game.now) s.now)) }
    ensures no_float { IfOk result (λ v. has_float (view v) ≡ false) }
    ensures shallow { IfOk result (λ v. depth (view v) ≤ max 4 (depth ((X.rules game.now).value s.now.g)) + 1) }
{
    let g = game.to_value(alloc, &s.g)?;
    snapshot_value(alloc, game.sheet(), s.number, &s.ctx, g, s.log.as_slice())
}

/// The value of a snapshot: the state number, the context, the value of the viewer's part of the game's state, and the log.
pub fn snapshot_value(
    alloc: Global,
    sheet: &Sheet,
    number: Number,
    ctx: &Ctx,
    g: Value,
    log: &[Entry],
) -> Result<Value, NoMemory>
    requires { has_float (view g) ≡ false }
    ensures value { IfOk result (λ v. view v ≡ snapshot_data sheet.now (record { number = number; ctx = ctx.now; g = view g; log = log.now })) }
    ensures no_float { IfOk result (λ v. has_float (view v) ≡ false) }
    ensures shallow { IfOk result (λ v. depth (view v) ≤ max 4 (depth (view g)) + 1) }
{
    let value = snapshot_object(alloc, sheet, number, ctx, g, log)?;
    Ok(value)
}

fn snapshot_object(
    alloc: Global,
    sheet: &Sheet,
    number: Number,
    ctx: &Ctx,
    g: Value,
    log: &[Entry],
) -> Result<Value, NoMemory>
    ensures { IfOk result (λ v. view v ≡ snapshot_data sheet.now (record { number = number; ctx = ctx.now; g = view g; log = log.now })) }
{
    let mut map = Map::new(alloc);
    match fill_snapshot(alloc, sheet, number, ctx, g, log, &mut map) {
        Ok(()) => Ok(Value::Object(map)),
        Err(no) => {
            drop(map);
            Err(no)
        }
    }
}

// Puts the members of a snapshot into an empty map.
#[tactic(auto, using(crate::proofs::MemberPut::snapshot_put))]
fn fill_snapshot(
    alloc: Global,
    sheet: &Sheet,
    number: Number,
    ctx: &Ctx,
    g: Value,
    log: &[Entry],
    map: &mut Map<String, Value>,
) -> Result<(), NoMemory>
    requires { members_view map.old.entries ≡ no_members }
    ensures { OnOk result (object (members_view map.new.entries)
        ≡ snapshot_data sheet.now (record { number = number; ctx = ctx.now; g = view g; log = log.now })) }
{
    serde_json::put(map, alloc, "g", g)?;
    put_ctx(alloc, sheet, map, ctx)?;
    put_log(alloc, sheet, map, log)?;
    put_number(alloc, map, "number", number)
}

fn put_ctx(
    alloc: Global,
    sheet: &Sheet,
    map: &mut Map<String, Value>,
    ctx: &Ctx,
) -> Result<(), NoMemory>
    ensures { OnOk result (members_view map.new.entries ≡ put (codes "ctx") (ctx_data sheet.now ctx.now) (members_view map.old.entries)) }
{
    let value = ctx_value(alloc, sheet, ctx)?;
    serde_json::put(map, alloc, "ctx", value)?;
    Ok(())
}

fn put_log(
    alloc: Global,
    sheet: &Sheet,
    map: &mut Map<String, Value>,
    log: &[Entry],
) -> Result<(), NoMemory>
    ensures { OnOk result (members_view map.new.entries ≡ put (codes "log") (log_data sheet.now log.now) (members_view map.old.entries)) }
{
    let value = log_value(alloc, sheet, log)?;
    serde_json::put(map, alloc, "log", value)?;
    Ok(())
}
