//! Names of the sheet, appended to bytes.

ghost use Rattle.std.specs.Prelude.{◌≡◌, ◌++◌, OnOk};
ghost use Rattle.serde_json.specs.Data.{string};
ghost use Rattle.serde_json.specs.Written.{compact_text};
ghost use Rattle.player_sight.specs.Parts.{move_name, phase_or_null, stage_or_null};

use game_sheet::{MoveId, NoMemory, PhaseId, Sheet, StageId};
use json_text::{put_null, put_string};
use std::alloc::Global;

/// Appends the name of a move, or null where the sheet has no such move.
pub fn put_move(alloc: Global, out: &mut Vec<u8>, sheet: &Sheet, id: MoveId) -> Result<(), NoMemory>
    ensures { OnOk result (out.new.items ≡ out.old.items ++ compact_text (move_name sheet.now id)) }
{
    match sheet.moves.get(id.place() as usize) {
        Some(row) => put_name(alloc, out, row.name.as_str()),
        None => Ok(put_null(out)?),
    }
}

/// Appends the name of a phase, or null where there is none.
pub fn put_phase(
    alloc: Global,
    out: &mut Vec<u8>,
    sheet: &Sheet,
    phase: Option<PhaseId>,
) -> Result<(), NoMemory>
    ensures { OnOk result (out.new.items ≡ out.old.items ++ compact_text (phase_or_null sheet.now phase)) }
{
    let Some(phase) = phase else {
        return Ok(put_null(out)?);
    };
    match sheet.phases.get(phase.place() as usize) {
        Some(row) => put_name(alloc, out, row.name.as_str()),
        None => Ok(put_null(out)?),
    }
}

/// Appends the name of a stage, or null where there is none.
pub fn put_stage(
    alloc: Global,
    out: &mut Vec<u8>,
    sheet: &Sheet,
    stage: Option<StageId>,
) -> Result<(), NoMemory>
    ensures { OnOk result (out.new.items ≡ out.old.items ++ compact_text (stage_or_null sheet.now stage)) }
{
    let Some(stage) = stage else {
        return Ok(put_null(out)?);
    };
    match sheet.stages.get(stage.place() as usize) {
        Some(row) => put_name(alloc, out, row.name.as_str()),
        None => Ok(put_null(out)?),
    }
}

/// Appends a text in quotation marks.
pub fn put_name(alloc: Global, out: &mut Vec<u8>, text: &str) -> Result<(), NoMemory>
    ensures { OnOk result (out.new.items ≡ out.old.items ++ compact_text (string text.now)) }
{
    Ok(put_string(alloc, out, text)?)
}
