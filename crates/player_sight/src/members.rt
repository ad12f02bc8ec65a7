//! Members of objects that several values have.

ghost use Rattle.std.specs.Prelude.{◌≡◌, OnOk, codes};
ghost use Rattle.serde_json.specs.Data.{string, put};
ghost use Rattle.serde_json.specs.View.{members_view};
ghost use Rattle.sheet_json.specs.Seats.{natural};
ghost use Rattle.player_sight.specs.Parts.{phase_or_null};

use crate::parts::phase_value;
use game_sheet::{NoMemory, PhaseId, Sheet};
use serde_json::{Map, Value};
use std::alloc::Global;

pub fn put_number(
    alloc: Global,
    map: &mut Map<String, Value>,
    name: &str,
    number: u32,
) -> Result<(), NoMemory>
    ensures { OnOk result (members_view map.new.entries ≡ put name.now (natural number) (members_view map.old.entries)) }
{
    serde_json::put(map, alloc, name, Value::from(number))?;
    Ok(())
}

pub fn put_text(
    alloc: Global,
    map: &mut Map<String, Value>,
    name: &str,
    text: &str,
) -> Result<(), NoMemory>
    ensures { OnOk result (members_view map.new.entries ≡ put name.now (string text.now) (members_view map.old.entries)) }
{
    let value = Value::try_from_str(alloc, text)?;
    serde_json::put(map, alloc, name, value)?;
    Ok(())
}

pub fn put_phase(
    alloc: Global,
    sheet: &Sheet,
    map: &mut Map<String, Value>,
    phase: Option<PhaseId>,
) -> Result<(), NoMemory>
    ensures { OnOk result (members_view map.new.entries
        ≡ put (codes "phase") (phase_or_null sheet.now phase) (members_view map.old.entries)) }
{
    let value = phase_value(alloc, sheet, phase)?;
    serde_json::put(map, alloc, "phase", value)?;
    Ok(())
}
