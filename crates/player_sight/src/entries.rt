//! The values of entries of the log, and of the log.

ghost use Rattle.std.specs.Prelude.{◌≡◌, ◌≤◌, IfOk, OnOk, false, codes};
ghost use Rattle.serde_json.specs.Data.{object, no_members, put, depth};
ghost use Rattle.serde_json.specs.View.{view, members_view};
ghost use Rattle.serde_json.specs.Written.{has_float};
ghost use Rattle.player_sight.specs.EntryData.{act_data, entry_data, log_data};

use crate::acts::act_value;
use crate::members::{put_number, put_phase};
use game_sheet::{NoMemory, Sheet};
use move_log::Entry;
use serde_json::{Map, Value};
use std::alloc::Global;

/// The value of an entry of the log; hidden arguments are null.
///
/// A move, phase or stage that isn't on the sheet has null for its name.
pub fn entry_value(alloc: Global, sheet: &Sheet, entry: &Entry) -> Result<Value, NoMemory>
    ensures value { IfOk result (λ v. view v ≡ entry_data sheet.now entry.now) }
    ensures no_float { IfOk result (λ v. has_float (view v) ≡ false) }
    ensures shallow { IfOk result (λ v. depth (view v) ≤ 3) }
{
    let value = entry_object(alloc, sheet, entry)?;
    Ok(value)
}

fn entry_object(alloc: Global, sheet: &Sheet, entry: &Entry) -> Result<Value, NoMemory>
    ensures { IfOk result (λ v. view v ≡ entry_data sheet.now entry.now) }
{
    let mut map = Map::new(alloc);
    match fill_entry(alloc, sheet, entry, &mut map) {
        Ok(()) => Ok(Value::Object(map)),
        Err(no) => {
            drop(map);
            Err(no)
        }
    }
}

// Puts the members of an entry into an empty map.
#[tactic(auto, using(crate::proofs::MemberPut::entry_put))]
fn fill_entry(
    alloc: Global,
    sheet: &Sheet,
    entry: &Entry,
    map: &mut Map<String, Value>,
) -> Result<(), NoMemory>
    requires { members_view map.old.entries ≡ no_members }
    ensures { OnOk result (object (members_view map.new.entries) ≡ entry_data sheet.now entry.now) }
{
    put_act(alloc, sheet, map, entry)?;
    put_number(alloc, map, "number", entry.number)?;
    put_phase(alloc, sheet, map, entry.phase)?;
    put_number(alloc, map, "seat", entry.seat as u32)?;
    put_number(alloc, map, "turn", entry.turn)
}

fn put_act(
    alloc: Global,
    sheet: &Sheet,
    map: &mut Map<String, Value>,
    entry: &Entry,
) -> Result<(), NoMemory>
    ensures { OnOk result (members_view map.new.entries
        ≡ put (codes "act") (act_data sheet.now entry.now.hidden entry.now.act) (members_view map.old.entries)) }
{
    let act = act_value(alloc, sheet, &entry.act, entry.hidden)?;
    serde_json::put(map, alloc, "act", act)?;
    Ok(())
}

/// The values of a log's entries, in order.
pub fn log_value(alloc: Global, sheet: &Sheet, log: &[Entry]) -> Result<Value, NoMemory>
    ensures value { IfOk result (λ v. view v ≡ log_data sheet.now log.now) }
    ensures no_float { IfOk result (λ v. has_float (view v) ≡ false) }
    ensures shallow { IfOk result (λ v. depth (view v) ≤ 4) }
{
    let value = list_value(alloc, sheet, log)?;
    Ok(value)
}

fn list_value(alloc: Global, sheet: &Sheet, log: &[Entry]) -> Result<Value, NoMemory>
    ensures { IfOk result (λ v. view v ≡ log_data sheet.now log.now) }
{
    let mut list = Vec::new(alloc);
    for entry in log {
        list.push(entry_value(alloc, sheet, entry)?)?;
    }
    Ok(Value::Array(list))
}
