//! The value of a match's context.

ghost use Rattle.std.specs.Prelude.{◌≡◌, ◌≤◌, IfOk, OnOk, true, false, codes};
ghost use Rattle.serde_json.specs.Data.{boolean, object, member, no_members, put, depth};
ghost use Rattle.serde_json.specs.View.{view, members_view};
ghost use Rattle.serde_json.specs.Written.{has_float};
ghost use Rattle.sheet_json.specs.Seats.{natural};
ghost use Rattle.player_sight.specs.Parts.{naturals, phase_or_null};
ghost use Rattle.player_sight.specs.CtxData.{with_row, rows_members, active_data, over_data, ctx_data};
ghost use Rattle.player_sight.specs.Tails.{with_last_members};

use crate::members::{put_number, put_phase};
use crate::parts::{seats_value, stage_value};
use game_sheet::{Ctx, List, NoMemory, Outcome, Seat, Sheet, StageId};
use serde_json::{Map, Value, json};
use std::alloc::Global;

/// The value of a context.
///
/// A phase or stage that isn't on the sheet has null for its name.
pub fn ctx_value(alloc: Global, sheet: &Sheet, ctx: &Ctx) -> Result<Value, NoMemory>
    ensures value { IfOk result (λ v. view v ≡ ctx_data sheet.now ctx.now) }
    ensures no_float { IfOk result (λ v. has_float (view v) ≡ false) }
    ensures shallow { IfOk result (λ v. depth (view v) ≤ 2) }
{
    let value = ctx_object(alloc, sheet, ctx)?;
    Ok(value)
}

fn ctx_object(alloc: Global, sheet: &Sheet, ctx: &Ctx) -> Result<Value, NoMemory>
    ensures { IfOk result (λ v. view v ≡ ctx_data sheet.now ctx.now) }
{
    let mut map = Map::new(alloc);
    match fill_ctx(alloc, sheet, ctx, &mut map) {
        Ok(()) => Ok(Value::Object(map)),
        Err(no) => {
            drop(map);
            Err(no)
        }
    }
}

// Puts the members of a context into an empty map.
#[tactic(auto, using(crate::proofs::MemberPut::ctx_put))]
fn fill_ctx(
    alloc: Global,
    sheet: &Sheet,
    ctx: &Ctx,
    map: &mut Map<String, Value>,
) -> Result<(), NoMemory>
    requires { members_view map.old.entries ≡ no_members }
    ensures { OnOk result (object (members_view map.new.entries) ≡ ctx_data sheet.now ctx.now) }
{
    put_active(alloc, sheet, map, ctx)?;
    put_number(alloc, map, "currentPlayer", ctx.current as u32)?;
    put_over(alloc, map, ctx)?;
    put_number(alloc, map, "numMoves", ctx.moves)?;
    fill_from_seats(alloc, sheet, ctx, map)
}

fn fill_from_seats(
    alloc: Global,
    sheet: &Sheet,
    ctx: &Ctx,
    map: &mut Map<String, Value>,
) -> Result<(), NoMemory>
    ensures { OnOk result (members_view map.new.entries ≡ with_last_members (phase_or_null sheet.now ctx.now.phase) (naturals ctx.now.order)
        ctx.now (members_view map.old.entries)) }
{
    put_number(alloc, map, "numPlayers", ctx.seats as u32)?;
    put_phase(alloc, sheet, map, ctx.phase)?;
    put_order(alloc, map, ctx)?;
    put_number(alloc, map, "playOrderPos", ctx.pos as u32)?;
    put_number(alloc, map, "turn", ctx.turn)
}

fn put_active(
    alloc: Global,
    sheet: &Sheet,
    map: &mut Map<String, Value>,
    ctx: &Ctx,
) -> Result<(), NoMemory>
    ensures { OnOk result (members_view map.new.entries
        ≡ put (codes "activePlayers") (active_data sheet.now ctx.now.active) (members_view map.old.entries)) }
{
    let active = active_value(alloc, sheet, &ctx.active)?;
    serde_json::put(map, alloc, "activePlayers", active)?;
    Ok(())
}

fn put_over(alloc: Global, map: &mut Map<String, Value>, ctx: &Ctx) -> Result<(), NoMemory>
    ensures { OnOk result (members_view map.new.entries
        ≡ put (codes "gameover") (over_data ctx.now.over) (members_view map.old.entries)) }
{
    let over = over_value(alloc, ctx.over)?;
    serde_json::put(map, alloc, "gameover", over)?;
    Ok(())
}

fn put_order(alloc: Global, map: &mut Map<String, Value>, ctx: &Ctx) -> Result<(), NoMemory>
    ensures { OnOk result (members_view map.new.entries
        ≡ put (codes "playOrder") (naturals ctx.now.order) (members_view map.old.entries)) }
{
    let order = seats_value(alloc, ctx.order.as_slice())?;
    serde_json::put(map, alloc, "playOrder", order)?;
    Ok(())
}

fn active_value(
    alloc: Global,
    sheet: &Sheet,
    active: &Option<List<(Seat, Option<StageId>)>>,
) -> Result<Value, NoMemory>
    ensures { IfOk result (λ v. view v ≡ active_data sheet.now active.now) }
{
    match active {
        Some(rows) => rows_value(alloc, sheet, rows.as_slice()),
        None => Ok(Value::Null),
    }
}

/// The object from each seat to its stage.
pub fn rows_value(
    alloc: Global,
    sheet: &Sheet,
    rows: &[(Seat, Option<StageId>)],
) -> Result<Value, NoMemory>
    ensures value { IfOk result (λ v. view v ≡ object (rows_members sheet.now rows.now)) }
    ensures no_float { IfOk result (λ v. has_float (view v) ≡ false) }
{
    let value = rows_object(alloc, sheet, rows)?;
    Ok(value)
}

fn rows_object(
    alloc: Global,
    sheet: &Sheet,
    rows: &[(Seat, Option<StageId>)],
) -> Result<Value, NoMemory>
    ensures { IfOk result (λ v. view v ≡ object (rows_members sheet.now rows.now)) }
{
    let mut map = Map::new(alloc);
    for row in rows {
        put_row(alloc, sheet, &mut map, *row)?;
    }
    Ok(Value::Object(map))
}

fn put_row(
    alloc: Global,
    sheet: &Sheet,
    map: &mut Map<String, Value>,
    row: (Seat, Option<StageId>),
) -> Result<(), NoMemory>
    ensures { OnOk result (members_view map.new.entries ≡ with_row sheet.now (members_view map.old.entries) row) }
{
    let name = format!(in alloc; "{}", row.0)?;
    let stage = stage_value(alloc, sheet, row.1)?;
    serde_json::put(map, alloc, name.as_str(), stage)?;
    Ok(())
}

fn over_value(alloc: Global, over: Option<Outcome>) -> Result<Value, NoMemory>
    ensures { IfOk result (λ v. view v ≡ over_data over) }
{
    match over {
        None => Ok(Value::Null),
        Some(Outcome::Winner(seat)) => winner_value(alloc, seat),
        Some(Outcome::Draw) => flag_value(alloc, "draw"),
        Some(Outcome::Ended) => flag_value(alloc, "ended"),
    }
}

fn winner_value(alloc: Global, seat: Seat) -> Result<Value, NoMemory>
    ensures { IfOk result (λ v. view v ≡ object (member (codes "winner") (natural seat) no_members)) }
{
    Ok(json!(in alloc; {"winner": seat})?)
}

fn flag_value(alloc: Global, name: &str) -> Result<Value, NoMemory>
    ensures { IfOk result (λ v. view v ≡ object (member name.now (boolean true) no_members)) }
{
    let mut map = Map::new(alloc);
    serde_json::put(&mut map, alloc, name, Value::Bool(true))?;
    Ok(Value::Object(map))
}
