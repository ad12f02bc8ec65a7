//! States as JSON trees.

ghost use Rattle.std.specs.Prelude.{◌≡◌, IfOk, OnOk, codes, false, true};
ghost use Rattle.open_game.specs.Forms.{list_value};
ghost use Rattle.serde_json.specs.Data.{no_members};
ghost use Rattle.serde_json.specs.View.{members_view, view};
ghost use Rattle.serde_json.specs.Written.{has_float};
ghost use Rattle.slot_json.specs.PartText.{put_where};
ghost use Rattle.slot_json.specs.SlotForms.{first_item, members_value, rows_fit, slot_value, slots_value, value_json};
ghost use Rattle.slot_json.specs.TableForms.{common_form, entry_value, has_slots, layout_fits, parts_value, players_form, secret_form, table_value};

use crate::layout::Layout;
use crate::rows::{has_slots, rest_of};
use game_sheet::{Arg, NoMemory, Text};
use game_slots::{Items, SlotRow, Slots, Table};
use serde_json::{Map, Value as Json};
use slot_values::Value;
use std::alloc::{AllocError, Global};

/// A state as JSON, without a float.
pub fn table_to_json(alloc: Global, layout: &Layout, table: &Table) -> Result<Json, NoMemory>
    requires { layout_fits layout.now ≡ true }
    ensures value { IfOk result (λ v. view v ≡ table_value layout.now table.now) }
    ensures float_free { IfOk result (λ v. has_float (view v) ≡ false) }
{
    let value = parts_to_json(alloc, layout, table)?;
    Ok(value)
}

fn parts_to_json(alloc: Global, layout: &Layout, table: &Table) -> Result<Json, AllocError>
    requires { layout_fits layout.now ≡ true }
    ensures { IfOk result (λ v. view v ≡ table_value layout.now table.now) }
{
    let mut members = Map::new(alloc);
    match put_parts(alloc, &mut members, layout, table) {
        Ok(()) => Ok(Json::Object(members)),
        Err(error) => {
            drop(members);
            Err(error)
        }
    }
}

/// Puts the parts that have slots into an empty object.
fn put_parts(
    alloc: Global,
    members: &mut Map<String, Json>,
    layout: &Layout,
    table: &Table,
) -> Result<(), AllocError>
    requires fits { layout_fits layout.now ≡ true }
    requires none { members_view members.old.entries ≡ no_members }
    ensures { OnOk result (members_view members.new.entries ≡ parts_value (has_slots layout.now.rows.common) (has_slots layout.now.rows.players) (has_slots layout.now.rows.secret)
        ((common_form layout.now).value table.now.common) ((players_form layout.now).value table.now.players) ((secret_form layout.now).value table.now.secret)) }
{
    put_common(alloc, members, layout, table)?;
    put_players(alloc, members, layout, table)?;
    put_secret(alloc, members, layout, table)
}

fn put_common(
    alloc: Global,
    members: &mut Map<String, Json>,
    layout: &Layout,
    table: &Table,
) -> Result<(), AllocError>
    requires { layout_fits layout.now ≡ true }
    ensures { OnOk result (members_view members.new.entries
        ≡ put_where (has_slots layout.now.rows.common) (codes "common") ((common_form layout.now).value table.now.common) (members_view members.old.entries)) }
{
    if has_slots(layout.rows.common.as_slice()) {
        let common = slots_to_json(
            alloc,
            layout.common.as_slice(),
            layout.rows.common.as_slice(),
            table.common.as_slice(),
        )?;
        serde_json::put(members, alloc, "common", common)
    } else {
        Ok(())
    }
}

fn put_players(
    alloc: Global,
    members: &mut Map<String, Json>,
    layout: &Layout,
    table: &Table,
) -> Result<(), AllocError>
    requires { layout_fits layout.now ≡ true }
    ensures { OnOk result (members_view members.new.entries
        ≡ put_where (has_slots layout.now.rows.players) (codes "players") ((players_form layout.now).value table.now.players) (members_view members.old.entries)) }
{
    if has_slots(layout.rows.players.as_slice()) {
        let players = entries_to_json(
            alloc,
            layout.players.as_slice(),
            layout.rows.players.as_slice(),
            table.players.as_slice(),
        )?;
        serde_json::put(members, alloc, "players", players)
    } else {
        Ok(())
    }
}

fn put_secret(
    alloc: Global,
    members: &mut Map<String, Json>,
    layout: &Layout,
    table: &Table,
) -> Result<(), AllocError>
    requires { layout_fits layout.now ≡ true }
    ensures { OnOk result (members_view members.new.entries
        ≡ put_where (has_slots layout.now.rows.secret) (codes "secret") ((secret_form layout.now).value table.now.secret) (members_view members.old.entries)) }
{
    if has_slots(layout.rows.secret.as_slice()) {
        let secret = entry_to_json(
            alloc,
            layout.secret.as_slice(),
            layout.rows.secret.as_slice(),
            &table.secret,
        )?;
        serde_json::put(members, alloc, "secret", secret)
    } else {
        Ok(())
    }
}

/// What is held for each seat, as an array.
fn entries_to_json(
    alloc: Global,
    names: &[Text],
    rows: &[SlotRow],
    entries: &[Option<Slots>],
) -> Result<Json, AllocError>
    requires { rows_fit names.now rows.now ≡ true }
    ensures { IfOk result (λ v. view v ≡ list_value (entry_value names.now rows.now) entries.now) }
{
    let mut values = Vec::new(alloc);
    for entry in entries {
        values.push(entry_to_json(alloc, names, rows, entry)?)?;
    }
    Ok(Json::Array(values))
}

fn entry_to_json(
    alloc: Global,
    names: &[Text],
    rows: &[SlotRow],
    entry: &Option<Slots>,
) -> Result<Json, AllocError>
    requires { rows_fit names.now rows.now ≡ true }
    ensures { IfOk result (λ v. view v ≡ entry_value names.now rows.now entry.now) }
{
    match entry {
        Some(slots) => slots_to_json(alloc, names, rows, slots.as_slice()),
        None => Ok(Json::Null),
    }
}

fn slots_to_json(
    alloc: Global,
    names: &[Text],
    rows: &[SlotRow],
    slots: &[Items],
) -> Result<Json, AllocError>
    requires { rows_fit names.now rows.now ≡ true }
    ensures { IfOk result (λ v. view v ≡ slots_value names.now rows.now slots.now) }
{
    let mut members = Map::new(alloc);
    match put_slots(alloc, &mut members, names, rows, slots) {
        Ok(()) => Ok(Json::Object(members)),
        Err(error) => {
            drop(members);
            Err(error)
        }
    }
}

/// Puts the slots into an empty object, from the last to the first, under their names, which rise.
#[tactic(auto, using(crate::proofs::PartLaws::no_rows, crate::proofs::PartLaws::no_slots))]
fn put_slots(
    alloc: Global,
    members: &mut Map<String, Json>,
    names: &[Text],
    rows: &[SlotRow],
    slots: &[Items],
) -> Result<(), AllocError>
    requires names { rows_fit names.now rows.now ≡ true }
    requires none { members_view members.old.entries ≡ no_members }
    ensures { OnOk result (members_view members.new.entries ≡ members_value names.now rows.now slots.now) }
{
    match (names, rows, slots) {
        ([name, ..], [row, ..], [items, ..]) => {
            put_slots(
                alloc,
                members,
                rest_of(names),
                rest_of(rows),
                rest_of(slots),
            )?;
            let value = slot_to_json(alloc, row, items)?;
            serde_json::put(members, alloc, name.as_str(), value)
        }
        _ => Ok(()),
    }
}

fn slot_to_json(alloc: Global, row: &SlotRow, items: &Items) -> Result<Json, AllocError>
    ensures { IfOk result (λ v. view v ≡ slot_value row.now items.now) }
{
    if row.lone {
        value_to_json(alloc, &first_item(items))
    } else {
        items_to_json(alloc, items)
    }
}

/// The first item; null where there is none.
pub(crate) fn first_item(items: &Items) -> Value
    ensures { result ≡ first_item items.now }
{
    if items.len() == 0 {
        None
    } else {
        items.item(0)
    }
}

fn items_to_json(alloc: Global, items: &Items) -> Result<Json, AllocError>
    ensures { IfOk result (λ v. view v ≡ list_value value_json items.now) }
{
    let mut values = Vec::new(alloc);
    for place in 0..items.len() {
        values.push(value_to_json(alloc, &items.item(place))?)?;
    }
    Ok(Json::Array(values))
}

fn value_to_json(alloc: Global, value: &Value) -> Result<Json, AllocError>
    ensures { IfOk result (λ v. view v ≡ value_json value.now) }
{
    match value {
        Some(Arg::Whole(number)) => Ok(Json::from(*number)),
        Some(Arg::Text(text)) => Ok(Json::String(String::from_str(alloc, text.as_str())?)),
        None => Ok(Json::Null),
    }
}
