//! The small parts of the values: names of the sheet, and lists of numbers.

ghost use Rattle.std.specs.Prelude.{◌≡◌, IfOk};
ghost use Rattle.serde_json.specs.View.{view};
ghost use Rattle.player_sight.specs.Parts.{naturals, move_name, phase_or_null, stage_or_null};

use game_sheet::{MoveId, NoMemory, PhaseId, Seat, Sheet, StageId};
use serde_json::Value;
use std::alloc::Global;

/// The numbers of seats, in order.
pub fn seats_value(alloc: Global, seats: &[Seat]) -> Result<Value, NoMemory>
    ensures { IfOk result (λ v. view v ≡ naturals seats.now) }
{
    let mut list = Vec::new(alloc);
    for seat in seats {
        list.push(Value::from(*seat))?;
    }
    Ok(Value::Array(list))
}

/// The name of a move, or null where the sheet has no such move.
pub fn move_value(alloc: Global, sheet: &Sheet, id: MoveId) -> Result<Value, NoMemory>
    ensures { IfOk result (λ v. view v ≡ move_name sheet.now id) }
{
    match sheet.moves.get(id.place() as usize) {
        Some(row) => Ok(Value::try_from_str(alloc, row.name.as_str())?),
        None => Ok(Value::Null),
    }
}

/// The name of a phase, or null where there is none.
pub fn phase_value(alloc: Global, sheet: &Sheet, phase: Option<PhaseId>) -> Result<Value, NoMemory>
    ensures { IfOk result (λ v. view v ≡ phase_or_null sheet.now phase) }
{
    let Some(phase) = phase else {
        return Ok(Value::Null);
    };
    match sheet.phases.get(phase.place() as usize) {
        Some(row) => Ok(Value::try_from_str(alloc, row.name.as_str())?),
        None => Ok(Value::Null),
    }
}

/// The name of a stage, or null where there is none.
pub fn stage_value(alloc: Global, sheet: &Sheet, stage: Option<StageId>) -> Result<Value, NoMemory>
    ensures { IfOk result (λ v. view v ≡ stage_or_null sheet.now stage) }
{
    let Some(stage) = stage else {
        return Ok(Value::Null);
    };
    match sheet.stages.get(stage.place() as usize) {
        Some(row) => Ok(Value::try_from_str(alloc, row.name.as_str())?),
        None => Ok(Value::Null),
    }
}
