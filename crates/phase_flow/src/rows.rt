//! The rows of a sheet that are in force.

ghost use Rattle.std.specs.Prelude.{◌≡◌, Some, position};
ghost use Rattle.phase_flow.specs.Rows.{phase_after, start_phase, turn_of_phase, turn_row};
ghost use Rattle.game_sheet.specs.declared.sheet.PhaseRow.{PhaseRow};
ghost use Rattle.game_sheet.specs.SheetFits.{SheetFits};

use game_sheet::{Ctx, PhaseId, PhaseRow, Sheet, TurnRow};

/// The turn row in force: the phase's own, else the sheet's.
pub(crate) fn turn_row<'a>(sheet: &'a Sheet, ctx: &Ctx) -> &'a TurnRow
    ensures { result.now ≡ turn_row sheet.now ctx.now }
{
    let Some(id) = ctx.phase else {
        return &sheet.turn;
    };
    match sheet.phases.get(id.place() as usize) {
        None => &sheet.turn,
        Some(row) => turn_of(sheet, row),
    }
}

/// The turn row of a phase: its own, else the sheet's.
fn turn_of<'a>(sheet: &'a Sheet, row: &'a PhaseRow) -> &'a TurnRow
    ensures { result.now ≡ turn_of_phase sheet.now.turn (Some row.now) }
{
    match &row.turn {
        None => &sheet.turn,
        Some(turn) => turn,
    }
}

/// The phase that follows a phase, if one does.
pub(crate) fn phase_after(sheet: &Sheet, phase: PhaseId) -> Option<PhaseId>
    ensures { result ≡ phase_after sheet.now phase }
{
    match sheet.phases.get(phase.place() as usize) {
        None => None,
        Some(row) => row.next,
    }
}

/// The phase in which a match begins, if there is one.
pub(crate) fn start_phase(sheet: &Sheet) -> Option<PhaseId>
    requires { SheetFits sheet.now }
    ensures { result ≡ start_phase sheet.now }
{
    match start_place(sheet.phases.as_slice()) {
        None => None,
        Some(place) => Some(PhaseId::at(place as u8)),
    }
}

/// The place of the first phase in which a match begins.
fn start_place(rows: &[PhaseRow]) -> Option<usize>
    ensures { result ≡ position (λ (row : PhaseRow). row.start) rows.now }
{
    rows.iter().position(|row| row.start)
}
