//! Who may act in a context, and with which moves.

ghost use Rattle.std.specs.Prelude.{◌≡◌, option_map, option_copied, slice_get, ◌==◌, IsTrue, Option};
ghost use Rattle.std.specs.Map.{lookup};
ghost use Rattle.stage_map.specs.Moves.{may, moves, place_of, phase_moves, stage_moves, moves_at};

use game_sheet::{Ctx, MoveId, PhaseId, Seat, Sheet, StageId};

/// Whether a seat may act: the current seat where no map stands, else each seat that the map lists.
pub fn is_active(ctx: &Ctx, seat: Seat) -> bool
    ensures { result ≡ may ctx.now seat }
{
    match &ctx.active {
        None => seat == ctx.current,
        Some(rows) => place_in(rows.as_slice(), seat).is_some(),
    }
}

/// The moves that a seat has: its stage's where the stage has a list, else the phase's where that has one, else the
/// game's. A seat that may not act has none.
pub fn moves_of<'a>(sheet: &'a Sheet, ctx: &Ctx, seat: Seat) -> &'a [MoveId]
    ensures { result.now ≡ moves sheet.now ctx.now seat }
{
    match &ctx.active {
        None => {
            if seat == ctx.current {
                moves_in(sheet, ctx.phase, None)
            } else {
                &[]
            }
        }
        Some(rows) => match place_in(rows.as_slice(), seat) {
            None => &[],
            Some(stage) => moves_in(sheet, ctx.phase, stage),
        },
    }
}

/// Where the rows of a map put a seat, if they list it.
fn place_in(rows: &[(Seat, Option<StageId>)], seat: Seat) -> Option<Option<StageId>>
    ensures { result ≡ place_of rows.now seat }
{
    for row in rows {
        if row.0 == seat {
            return Some(row.1);
        }
    }
    None
}

/// The moves of an active seat in this phase and stage.
fn moves_in<'a>(sheet: &'a Sheet, phase: Option<PhaseId>, stage: Option<StageId>) -> &'a [MoveId]
    ensures { result.now ≡ moves_at sheet.now phase stage }
{
    match in_stage(sheet, stage) {
        Some(moves) => moves,
        None => match in_phase(sheet, phase) {
            Some(moves) => moves,
            None => sheet.base.as_slice(),
        },
    }
}

/// The moves that a stage lists, if there is a stage that does.
fn in_stage<'a>(sheet: &'a Sheet, stage: Option<StageId>) -> Option<&'a [MoveId]>
    ensures { option_map (λ moves. moves.now) result ≡ stage_moves sheet.now stage }
{
    let Some(id) = stage else {
        return None;
    };
    match sheet.stages.get(id.place() as usize) {
        None => None,
        Some(row) => match &row.moves {
            None => None,
            Some(moves) => Some(moves.as_slice()),
        },
    }
}

/// The moves that a phase lists, if there is a phase that does.
fn in_phase<'a>(sheet: &'a Sheet, phase: Option<PhaseId>) -> Option<&'a [MoveId]>
    ensures { option_map (λ moves. moves.now) result ≡ phase_moves sheet.now phase }
{
    let Some(id) = phase else {
        return None;
    };
    match sheet.phases.get(id.place() as usize) {
        None => None,
        Some(row) => match &row.moves {
            None => None,
            Some(moves) => Some(moves.as_slice()),
        },
    }
}
