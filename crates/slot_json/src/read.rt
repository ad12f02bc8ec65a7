//! States read from JSON trees.

ghost use Rattle.std.specs.Prelude.{◌≡◌, ◌≤◌, ◌==◌, ◌&&◌, ◌∷◌, [], IfOk, IfSome, None, Some, codes, if◌then◌else◌, length, option_map};
ghost use Rattle.json_tree.specs.Fields.{read_each};
ghost use Rattle.open_game.specs.Forms.{list_read};
ghost use Rattle.serde_json.specs.Find.{get};
ghost use Rattle.serde_json.specs.View.{items_view, members_view, view};
ghost use Rattle.slot_json.specs.PartText.{member_slot};
ghost use Rattle.slot_json.specs.SlotForms.{fitting, members_read, slot_read, slots_read, value_read};
ghost use Rattle.slot_json.specs.TableForms.{common_form, entry_read, has_parts_alone, has_slots, part_read, players_form, secret_form, table_read, three};

use crate::layout::Layout;
use crate::rows::{has_slots, rest_of};
use game_sheet::{Arg, NoMemory, Short, Text};
use game_slots::{ItemKind, Items, Players, SlotRow, Slots, Table};
use json_tree::extra_field;
use serde_json::{Map, Value as Json};
use slot_values::Value;
use std::alloc::Global;

/// The own state that is written so; none where no own state is.
pub fn table_from_json(alloc: Global, layout: &Layout, v: &Json) -> Result<Option<Table>, NoMemory>
    ensures { IfOk result (λ read. read ≡ table_read layout.now (view v.now)) }
{
    if !has_parts_alone(v) {
        return Ok(None);
    }
    let common = common_from_json(alloc, layout, v)?;
    let players = players_from_json(alloc, layout, v)?;
    let secret = secret_from_json(alloc, layout, v)?;
    Ok(three(common, players, secret))
}

/// Whether it is an object that has no members but parts.
fn has_parts_alone(v: &Json) -> bool
    ensures { result ≡ has_parts_alone (view v.now) }
{
    v.is_object() && !extra_field(v, &["common", "players", "secret"])
}

fn three(
    common: Option<Slots>,
    players: Option<Players>,
    secret: Option<Option<Slots>>,
) -> Option<Table>
    ensures { result ≡ three common players secret }
{
    match (common, players, secret) {
        (Some(common), Some(players), Some(secret)) => Some(Table {
            common,
            players,
            secret,
        }),
        _ => None,
    }
}

fn common_from_json(alloc: Global, layout: &Layout, v: &Json) -> Result<Option<Slots>, NoMemory>
    ensures { IfOk result (λ read. read ≡ part_read (has_slots layout.now.rows.common) (common_form layout.now).read [] (get (codes "common") (view v.now))) }
{
    let rows = layout.rows.common.as_slice();
    match (has_slots(rows), v.get("common")) {
        (true, Some(found)) => slots_from_json(alloc, layout.common.as_slice(), rows, found),
        (false, None) => Ok(Some(Slots::from_vec(Vec::new(alloc)))),
        _ => Ok(None),
    }
}

fn players_from_json(alloc: Global, layout: &Layout, v: &Json) -> Result<Option<Players>, NoMemory>
    ensures { IfOk result (λ read. read ≡ part_read (has_slots layout.now.rows.players) (players_form layout.now).read [] (get (codes "players") (view v.now))) }
{
    let rows = layout.rows.players.as_slice();
    match (has_slots(rows), v.get("players")) {
        (true, Some(found)) => entries_from_json(
            alloc,
            layout.players.as_slice(),
            rows,
            layout.rows.most_seats,
            found,
        ),
        (false, None) => Ok(Some(Players::from_vec(Vec::new(alloc)))),
        _ => Ok(None),
    }
}

fn secret_from_json(
    alloc: Global,
    layout: &Layout,
    v: &Json,
) -> Result<Option<Option<Slots>>, NoMemory>
    ensures { IfOk result (λ read. read ≡ part_read (has_slots layout.now.rows.secret) (secret_form layout.now).read None (get (codes "secret") (view v.now))) }
{
    let rows = layout.rows.secret.as_slice();
    match (has_slots(rows), v.get("secret")) {
        (true, Some(found)) => entry_from_json(alloc, layout.secret.as_slice(), rows, found),
        (false, None) => Ok(Some(None)),
        _ => Ok(None),
    }
}

/// What is held for 1 to so many seats.
fn entries_from_json(
    alloc: Global,
    names: &[Text],
    rows: &[SlotRow],
    most: u8,
    v: &Json,
) -> Result<Option<Players>, NoMemory>
    ensures { IfOk result (λ read. read ≡ list_read 1 most (entry_read names.now rows.now) (view v.now)) }
{
    let Some(values) = v.as_array() else {
        return Ok(None);
    };
    match each_entry(alloc, names, rows, values.as_slice())? {
        Some(entries) => {
            if 1 <= entries.len() && entries.len() <= usize::from(most) {
                Ok(Some(Players::from_vec(entries)))
            } else {
                Ok(None)
            }
        }
        None => Ok(None),
    }
}

fn each_entry(
    alloc: Global,
    names: &[Text],
    rows: &[SlotRow],
    values: &[Json],
) -> Result<Option<Vec<Option<Slots>>>, NoMemory>
    ensures { IfOk result (λ read. option_map (λ entries. entries.items) read ≡ read_each (entry_read names.now rows.now) (items_view values.now)) }
{
    let mut entries = Vec::new(alloc);
    for value in values {
        let Some(entry) = entry_from_json(alloc, names, rows, value)? else {
            return Ok(None);
        };
        entries.push(entry)?;
    }
    Ok(Some(entries))
}

fn entry_from_json(
    alloc: Global,
    names: &[Text],
    rows: &[SlotRow],
    v: &Json,
) -> Result<Option<Option<Slots>>, NoMemory>
    ensures { IfOk result (λ read. read ≡ entry_read names.now rows.now (view v.now)) }
{
    match v {
        Json::Null => Ok(Some(None)),
        Json::Object(members) => Ok(shown(members_from_json(alloc, names, rows, members)?)),
        Json::Bool(_) | Json::Number(_) | Json::String(_) | Json::Array(_) => Ok(None),
    }
}

/// Slots that aren't hidden.
fn shown(slots: Option<Slots>) -> Option<Option<Slots>>
    ensures { result ≡ option_map (λ slots. Some slots) slots }
{
    match slots {
        Some(slots) => Some(Some(slots)),
        None => None,
    }
}

fn slots_from_json(
    alloc: Global,
    names: &[Text],
    rows: &[SlotRow],
    v: &Json,
) -> Result<Option<Slots>, NoMemory>
    ensures { IfOk result (λ read. read ≡ slots_read names.now rows.now (view v.now)) }
{
    match v {
        Json::Object(members) => members_from_json(alloc, names, rows, members),
        Json::Null | Json::Bool(_) | Json::Number(_) | Json::String(_) | Json::Array(_) => Ok(None),
    }
}

/// The slots that the members of an object hold, which have these names in order and no others; none where they don't.
fn members_from_json(
    alloc: Global,
    names: &[Text],
    rows: &[SlotRow],
    members: &Map<String, Json>,
) -> Result<Option<Slots>, NoMemory>
    ensures { IfOk result (λ read. read ≡ members_read names.now rows.now (members_view members.now.entries)) }
{
    let mut slots = Vec::new(alloc);
    let mut names_left = names;
    let mut rows_left = rows;
    for (name, value) in members.iter() {
        match member_slot(alloc, names_left, rows_left, name.as_str(), value)? {
            Some(items) => {
                slots.push(items)?;
                names_left = rest_of(names_left);
                rows_left = rest_of(rows_left);
            }
            None => return Ok(None),
        }
    }
    Ok(ended(slots, names_left.len(), rows_left.len()))
}

/// The slots, where no name and no row is left.
fn ended(slots: Vec<Items>, names: usize, rows: usize) -> Option<Slots>
    ensures { result ≡ (if names == 0 && rows == 0 then Some slots.items else None) }
{
    if names == 0 && rows == 0 {
        Some(Slots::from_vec(slots))
    } else {
        drop(slots);
        None
    }
}

/// The slot of the first name and row that a member is.
fn member_slot(
    alloc: Global,
    names: &[Text],
    rows: &[SlotRow],
    name: &str,
    value: &Json,
) -> Result<Option<Items>, NoMemory>
    ensures value { IfOk result (λ read. read ≡ member_slot names.now rows.now name.now (view value.now)) }
    ensures some { IfOk result (λ read. IfSome read (λ _. (1 ≤ length names.now) × (1 ≤ length rows.now))) }
{
    match (names, rows) {
        ([first, ..], [row, ..]) => {
            if name == first.as_str() {
                slot_from_json(alloc, row, value)
            } else {
                Ok(None)
            }
        }
        _ => Ok(None),
    }
}

fn slot_from_json(alloc: Global, row: &SlotRow, v: &Json) -> Result<Option<Items>, NoMemory>
    ensures { IfOk result (λ read. read ≡ slot_read row.now (view v.now)) }
{
    if row.lone {
        lone_from_json(alloc, row, v)
    } else {
        list_from_json(alloc, row, v)
    }
}

/// One item.
fn lone_from_json(alloc: Global, row: &SlotRow, v: &Json) -> Result<Option<Items>, NoMemory>
    ensures { IfOk result (λ read. read ≡ option_map (λ value. value ∷ []) (value_read row.now (view v.now))) }
{
    let Some(value) = value_from_json(row, v) else {
        return Ok(None);
    };
    let mut items = Items::new(alloc);
    items.push(&value)?;
    Ok(Some(items))
}

fn list_from_json(alloc: Global, row: &SlotRow, v: &Json) -> Result<Option<Items>, NoMemory>
    ensures { IfOk result (λ read. read ≡ list_read 0 row.now.most (value_read row.now) (view v.now)) }
{
    let Some(values) = v.as_array() else {
        return Ok(None);
    };
    match each_value(alloc, row, values.as_slice())? {
        Some(items) => {
            if items.len() <= usize::from(row.most) {
                Ok(Some(items))
            } else {
                Ok(None)
            }
        }
        None => Ok(None),
    }
}

fn each_value(alloc: Global, row: &SlotRow, values: &[Json]) -> Result<Option<Items>, NoMemory>
    ensures { IfOk result (λ read. read ≡ read_each (value_read row.now) (items_view values.now)) }
{
    let mut items = Items::new(alloc);
    for value in values {
        let Some(item) = value_from_json(row, value) else {
            return Ok(None);
        };
        items.push(&item)?;
    }
    Ok(Some(items))
}

/// The value that stands there, where the slot may hold it.
fn value_from_json(row: &SlotRow, v: &Json) -> Option<Value>
    ensures { result ≡ value_read row.now (view v.now) }
{
    match v {
        Json::Null => if row.null { Some(None) } else { None },
        Json::Number(number) => match number.as_i64() {
            Some(n) => number_fitting(row, n),
            None => None,
        },
        Json::String(text) => text_fitting(row, text.as_str()),
        Json::Bool(_) | Json::Array(_) | Json::Object(_) => None,
    }
}

fn number_fitting(row: &SlotRow, n: i64) -> Option<Value>
    ensures { result ≡ fitting row.now (Some (Arg.Whole n)) }
{
    match &row.kind {
        ItemKind::Number { least, greatest } => {
            if i64::from(*least) <= n && n <= i64::from(*greatest) {
                Some(Some(Arg::Whole(n as i32)))
            } else {
                None
            }
        }
        ItemKind::Text => None,
    }
}

fn text_fitting(row: &SlotRow, text: &str) -> Option<Value>
    ensures { result ≡ fitting row.now (Some (Arg.Text text.now)) }
{
    match (&row.kind, Short::of(text.as_bytes())) {
        (ItemKind::Text, Some(short)) => Some(Some(Arg::Text(short))),
        _ => None,
    }
}
