//! What becomes of a seat when its stage ends.

ghost use Rattle.std.specs.Prelude.{◌≡◌, IfOk, option_and_then, option_map, slice_get};
ghost use Rattle.stage_map.specs.Rows.{unlimited};
ghost use Rattle.stage_map.specs.Stages.{is_reached, rows_after, stage_after};

use crate::rows::{Row, put, without};
use game_sheet::{List, NoMemory, Seat, Sheet, StageId};
use std::alloc::Global;

/// The rows after the stage of a row's seat ends: the seat goes to the stage that follows, or leaves.
pub fn rows_after(
    alloc: Global,
    sheet: &Sheet,
    row: Row,
    rows: &[Row],
) -> Result<List<Row>, NoMemory>
    ensures { IfOk result (λ list. list ≡ rows_after (stage_after sheet.now row.stage) row.seat rows.now) }
{
    let seat = row.seat;
    match stage_after(sheet, row.stage) {
        None => without(alloc, seat, rows),
        Some(next) => put(alloc, unlimited(seat, next), rows),
    }
}

/// The stage that follows a stage, if any; none where there is no stage.
fn stage_after(sheet: &Sheet, stage: Option<StageId>) -> Option<StageId>
    ensures { result ≡ stage_after sheet.now stage }
{
    let Some(id) = stage else {
        return None;
    };
    match sheet.stages.get(id.place() as usize) {
        None => None,
        Some(row) => row.next,
    }
}

/// A seat in a stage, with no move counted and no limits.
pub fn unlimited(seat: Seat, stage: StageId) -> Row
    ensures { result ≡ unlimited seat stage }
{
    Row {
        seat,
        stage: Some(stage),
        count: 0,
        least: 0,
        most: None,
    }
}

/// Whether a count has come to the greatest, if there is one.
pub fn is_reached(most: Option<u32>, count: u32) -> bool
    ensures { result ≡ is_reached most count }
{
    match most {
        None => false,
        Some(most) => most <= count,
    }
}
