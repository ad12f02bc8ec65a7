//! The context that a row says.

ghost use Rattle.std.specs.Prelude.{◌≤◌, ◌<◌, IfOk, length};

use crate::fault::{RowFault, RowNo};
use crate::reading::{number_of, phase_of};
use game_sheet::{Ctx, List, MoveId, NoMemory, PhaseId, Seat, Sheet, StageId};
use json_tree::{FieldFault, list_of};
use serde_json::Value;
use stage_map::{is_active, moves_of};
use std::alloc::Global;

/// The numbers of a context.
#[derive(Clone, Copy)]
struct Numbers {
    seats: u8,
    turn: u32,
    current: Seat,
    pos: u8,
    moves: u32,
}

/// The context of a row, in which the current seat alone may act.
pub(crate) fn context_of(alloc: Global, sheet: &Sheet, row: &Value) -> Result<Ctx, RowNo>
    requires seats { sheet.now.min_seats ≤ 16 }
    requires phases { length sheet.now.phases ≤ 16 }
{
    match row.get("ctx") {
        Some(said) => context_said(alloc, sheet, said),
        None => context_said(alloc, sheet, &Value::Null),
    }
}

fn context_said(alloc: Global, sheet: &Sheet, said: &Value) -> Result<Ctx, RowNo>
    requires seats { sheet.now.min_seats ≤ 16 }
    requires phases { length sheet.now.phases ≤ 16 }
{
    let Ok(numbers) = numbers_of(said, sheet.min_seats) else {
        return Err(RowNo::Fault(RowFault::BadContext));
    };
    let phase = phase_of(sheet, said, "phase")?;
    let order = order_of(alloc, said, numbers.seats)?;
    let len = order.len();
    if (numbers.pos as usize) < len && len <= 64 && numbers.current < numbers.seats {
        Ok(context(numbers, phase, order))
    } else {
        Err(RowNo::Fault(RowFault::BadContext))
    }
}

fn context(numbers: Numbers, phase: Option<PhaseId>, order: List<Seat>) -> Ctx {
    Ctx {
        seats: numbers.seats,
        turn: numbers.turn,
        current: numbers.current,
        order,
        pos: numbers.pos,
        phase,
        active: None,
        moves: numbers.moves,
        over: None,
    }
}

fn numbers_of(said: &Value, least: u8) -> Result<Numbers, FieldFault>
    requires { least ≤ 16 }
{
    let seats = number_of(said, "seats", u64::from(least), 16)? as u8;
    let turn = number_of(said, "turn", 1, 4294967295)? as u32;
    let current = number_of(said, "current", 0, 15)? as u8;
    let pos = number_of(said, "pos", 0, 63)? as u8;
    let moves = number_of(said, "moves", 0, 4294967295)? as u32;
    Ok(Numbers {
        seats,
        turn,
        current,
        pos,
        moves,
    })
}

/// The play order; all seats in turn where there is none.
fn order_of(alloc: Global, said: &Value, seats: u8) -> Result<List<Seat>, RowNo> {
    match list_of(said, "order") {
        Ok(items) => seats_of(alloc, items, seats),
        Err(FieldFault::Missing) => Ok(all_seats(alloc, seats)?),
        Err(_) => Err(RowNo::Fault(RowFault::BadContext)),
    }
}

fn all_seats(alloc: Global, seats: u8) -> Result<List<Seat>, NoMemory> {
    let mut list = List::new(alloc);
    for seat in 0..seats {
        list.push(seat)?;
    }
    Ok(list)
}

fn seats_of(alloc: Global, items: &[Value], seats: u8) -> Result<List<Seat>, RowNo> {
    let mut list = List::new(alloc);
    for item in items {
        match item.as_u64() {
            Some(seat) if seat < u64::from(seats) => list.push(seat as u8)?,
            _ => return Err(RowNo::Fault(RowFault::BadContext)),
        }
    }
    Ok(list)
}

/// The context with a map of active players in which the seat may act or not, and has the moves, as the row says.
///
/// Where the row doesn't say whether the seat may act, the context stays. Where the seat has the moves in several stages, it is put into
/// none or into the first of them.
pub(crate) fn with_active(
    alloc: Global,
    sheet: &Sheet,
    ctx: Ctx,
    seat: Seat,
    row: &Value,
) -> Result<Ctx, RowNo>
    requires { length sheet.now.stages ≤ 16 }
{
    match row.get("may") {
        None => Ok(ctx),
        Some(Value::Bool(false)) => Ok(with_map(ctx, List::new(alloc))),
        Some(Value::Bool(true)) => with_moves(alloc, sheet, ctx, seat, row),
        Some(_) => {
            drop(ctx);
            Err(RowNo::Fault(RowFault::BadContext))
        }
    }
}

/// The context with another map of active players.
fn with_map(ctx: Ctx, active: List<(Seat, Option<StageId>)>) -> Ctx {
    let mut ctx = ctx;
    ctx.active = Some(active);
    ctx
}

/// The context in which the seat may act and has the moves of the row.
fn with_moves(alloc: Global, sheet: &Sheet, ctx: Ctx, seat: Seat, row: &Value) -> Result<Ctx, RowNo>
    requires { length sheet.now.stages ≤ 16 }
{
    let Ok(said) = list_of(row, "moves") else {
        drop(ctx);
        return Err(RowNo::Fault(RowFault::OtherMoves));
    };
    if is_active(&ctx, seat) && are_said(sheet, said, moves_of(sheet, &ctx, seat)) {
        return Ok(ctx);
    }
    in_stage(alloc, sheet, ctx, seat, said)
}

/// The context in which the seat stands in a stage, or in none, where it has these moves.
fn in_stage(
    alloc: Global,
    sheet: &Sheet,
    ctx: Ctx,
    seat: Seat,
    said: &[Value],
) -> Result<Ctx, RowNo>
    requires { length sheet.now.stages ≤ 16 }
{
    let mut ctx = ctx;
    for next in 0..sheet.stages.len() + 1 {
        ctx = with_map(ctx, one_row(alloc, seat, stage_before(next))?);
        if are_said(sheet, said, moves_of(sheet, &ctx, seat)) {
            return Ok(ctx);
        }
    }
    drop(ctx);
    Err(RowNo::Fault(RowFault::OtherMoves))
}

/// No stage for 0, and else the stage before a place.
fn stage_before(next: usize) -> Option<StageId>
    requires { next ≤ 16 }
{
    if next == 0 {
        None
    } else {
        Some(StageId::at((next - 1) as u8))
    }
}

fn one_row(
    alloc: Global,
    seat: Seat,
    stage: Option<StageId>,
) -> Result<List<(Seat, Option<StageId>)>, NoMemory> {
    let mut list = List::new(alloc);
    list.push((seat, stage))?;
    Ok(list)
}

/// Whether a row says just these moves, in any order.
fn are_said(sheet: &Sheet, said: &[Value], moves: &[MoveId]) -> bool {
    for id in moves {
        if !is_said(sheet, said, *id) {
            return false;
        }
    }
    for item in said {
        if !is_among(sheet, item, moves) {
            return false;
        }
    }
    true
}

fn is_said(sheet: &Sheet, said: &[Value], id: MoveId) -> bool {
    for item in said {
        if says(sheet, item, id) {
            return true;
        }
    }
    false
}

fn is_among(sheet: &Sheet, item: &Value, moves: &[MoveId]) -> bool {
    for id in moves {
        if says(sheet, item, *id) {
            return true;
        }
    }
    false
}

/// Whether an item names a move, or gives its place.
fn says(sheet: &Sheet, item: &Value, id: MoveId) -> bool {
    match item {
        Value::String(text) => match sheet.moves.get(id.place() as usize) {
            Some(row) => row.name.is(text.as_str()),
            None => false,
        },
        _ => match item.as_u64() {
            Some(place) => place == u64::from(id.place()),
            None => false,
        },
    }
}
