//! Reads the small parts of the values back: names of the sheet, and lists of numbers.

ghost use Rattle.std.specs.Prelude.{◌≡◌, IfOk, Some, codes};
ghost use Rattle.serde_json.specs.Find.{get};
ghost use Rattle.serde_json.specs.View.{view, items_view};
ghost use Rattle.game_sheet.specs.SheetFits.{SheetFits};
ghost use Rattle.game_sheet.specs.SheetNames.{stage_of};
ghost use Rattle.sight_reading.specs.CtxReading.{order_in, phase_in};
ghost use Rattle.sight_reading.specs.Reading.{natural_at, naturals_from, id_or_null};

use game_sheet::{List, NoMemory, PhaseId, Seat, Sheet, StageId};
use json_tree::{list_of, natural_of};
use serde_json::Value;
use std::alloc::Global;

/// The seat of the member, from 0 to 255.
pub fn seat_of(value: &Value, name: &str) -> Option<Seat>
    ensures { result ≡ natural_at 255 (get name.now (view value.now)) }
{
    match natural_of(value, name, 255) {
        Ok(seat) => Some(seat as u8),
        Err(_) => None,
    }
}

/// The number of 32 bits that the member holds.
pub fn number_of(value: &Value, name: &str) -> Option<u32>
    ensures { result ≡ natural_at 4294967295 (get name.now (view value.now)) }
{
    match natural_of(value, name, 4294967295) {
        Ok(number) => Some(number as u32),
        Err(_) => None,
    }
}

/// The seats of the member's list, in order.
pub fn order_of(alloc: Global, value: &Value) -> Result<Option<List<Seat>>, NoMemory>
    ensures { IfOk result (λ order. order ≡ order_in (get (codes "playOrder") (view value.now))) }
{
    match list_of(value, "playOrder") {
        Ok(items) => seats_of(alloc, items),
        Err(_) => Ok(None),
    }
}

fn seats_of(alloc: Global, items: &[Value]) -> Result<Option<List<Seat>>, NoMemory>
    ensures { IfOk result (λ seats. seats ≡ naturals_from (items_view items.now)) }
{
    let mut seats = List::new(alloc);
    for item in items {
        let Some(seat) = seat_in(item) else {
            return Ok(None);
        };
        seats.push(seat)?;
    }
    Ok(Some(seats))
}

fn seat_in(item: &Value) -> Option<Seat>
    ensures { result ≡ natural_at 255 (Some (view item.now)) }
{
    match item.as_u64() {
        Some(seat) if seat <= 255 => Some(seat as u8),
        _ => None,
    }
}

/// The phase that the member names, or none where it is null.
pub fn phase_member_of(sheet: &Sheet, value: &Value) -> Option<Option<PhaseId>>
    requires { SheetFits sheet.now }
    ensures { result ≡ phase_in sheet.now (get (codes "phase") (view value.now)) }
{
    let Some(phase) = value.get("phase") else {
        return None;
    };
    if phase.is_null() {
        return Some(None);
    }
    let Some(name) = phase.as_str() else {
        return None;
    };
    match sheet.phase_named(name) {
        Some(phase) => Some(Some(phase)),
        None => None,
    }
}

/// The stage that a value names, or none where it is null.
pub fn stage_or_null_of(sheet: &Sheet, stage: &Value) -> Option<Option<StageId>>
    requires { SheetFits sheet.now }
    ensures { result ≡ id_or_null (stage_of sheet.now) (view stage.now) }
{
    if stage.is_null() {
        return Some(None);
    }
    let Some(name) = stage.as_str() else {
        return None;
    };
    match sheet.stage_named(name) {
        Some(stage) => Some(Some(stage)),
        None => None,
    }
}
