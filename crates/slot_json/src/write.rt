//! The texts of states, straight into bytes.

ghost use Rattle.std.specs.Prelude.{◌≡◌, ◌++◌, ◌||◌, OnOk, codes, false};
ghost use Rattle.open_game.specs.Forms.{list_value};
ghost use Rattle.serde_json.specs.Written.{compact_text, members_text};
ghost use Rattle.slot_json.specs.PartText.{name_text, part_text};
ghost use Rattle.slot_json.specs.SlotForms.{members_value, slot_value, slots_value, value_json};
ghost use Rattle.slot_json.specs.TableForms.{common_form, entry_value, has_slots, players_form, secret_form, table_value};

use crate::layout::Layout;
use crate::rows::{has_slots, rest_of};
use crate::values::first_item;
use game_sheet::{Arg, NoMemory, Text};
use game_slots::{Items, Players, SlotRow, Slots, Table};
use json_text::{put_comma, put_integer, put_null, put_string};
use slot_values::Value;
use std::alloc::{AllocError, Global};

/// Appends a state's text, which is that of its value. After a want of memory some first part of it may stand there.
pub fn write_table(
    alloc: Global,
    out: &mut Vec<u8>,
    layout: &Layout,
    table: &Table,
) -> Result<(), NoMemory>
    ensures { OnOk result (out.new.items ≡ out.old.items ++ compact_text (table_value layout.now table.now)) }
{
    out.push(b'{')?;
    write_common(alloc, out, layout, &table.common)?;
    write_players(alloc, out, layout, &table.players)?;
    write_secret(alloc, out, layout, &table.secret)?;
    out.push(b'}')?;
    Ok(())
}

fn write_common(
    alloc: Global,
    out: &mut Vec<u8>,
    layout: &Layout,
    common: &Slots,
) -> Result<(), AllocError>
    ensures { OnOk result (out.new.items ≡ out.old.items ++ part_text false (has_slots layout.now.rows.common) (codes "common") ((common_form layout.now).value common.now)) }
{
    let rows = layout.rows.common.as_slice();
    if has_slots(rows) {
        put_name(alloc, out, false, "common")?;
        write_slots(
            alloc,
            out,
            layout.common.as_slice(),
            rows,
            common.as_slice(),
        )
    } else {
        Ok(())
    }
}

fn write_players(
    alloc: Global,
    out: &mut Vec<u8>,
    layout: &Layout,
    players: &Players,
) -> Result<(), AllocError>
    ensures { OnOk result (out.new.items
        ≡ out.old.items ++ part_text (has_slots layout.now.rows.common) (has_slots layout.now.rows.players) (codes "players") ((players_form layout.now).value players.now)) }
{
    let rows = layout.rows.players.as_slice();
    if has_slots(rows) {
        put_name(
            alloc,
            out,
            has_slots(layout.rows.common.as_slice()),
            "players",
        )?;
        write_entries(
            alloc,
            out,
            layout.players.as_slice(),
            rows,
            players.as_slice(),
        )
    } else {
        Ok(())
    }
}

fn write_secret(
    alloc: Global,
    out: &mut Vec<u8>,
    layout: &Layout,
    secret: &Option<Slots>,
) -> Result<(), AllocError>
    ensures { OnOk result (out.new.items
        ≡ out.old.items ++ part_text (has_slots layout.now.rows.common || has_slots layout.now.rows.players) (has_slots layout.now.rows.secret) (codes "secret") ((secret_form layout.now).value secret.now)) }
{
    let rows = layout.rows.secret.as_slice();
    if has_slots(rows) {
        let later = has_slots(layout.rows.common.as_slice())
            || has_slots(layout.rows.players.as_slice());
        put_name(alloc, out, later, "secret")?;
        write_entry(alloc, out, layout.secret.as_slice(), rows, secret)
    } else {
        Ok(())
    }
}

/// Appends the comma before it if it isn't the first, a name in quotation marks and a colon.
fn put_name(alloc: Global, out: &mut Vec<u8>, later: bool, name: &str) -> Result<(), AllocError>
    ensures { OnOk result (out.new.items ≡ out.old.items ++ name_text later name.now) }
{
    put_comma(out, later)?;
    put_string(alloc, out, name)?;
    out.push(b':')?;
    Ok(())
}

fn write_entries(
    alloc: Global,
    out: &mut Vec<u8>,
    names: &[Text],
    rows: &[SlotRow],
    entries: &[Option<Slots>],
) -> Result<(), AllocError>
    ensures { OnOk result (out.new.items ≡ out.old.items ++ compact_text (list_value (entry_value names.now rows.now) entries.now)) }
{
    out.push(b'[')?;
    let mut later = false;
    for entry in entries {
        put_comma(out, later)?;
        write_entry(alloc, out, names, rows, entry)?;
        later = true;
    }
    out.push(b']')?;
    Ok(())
}

fn write_entry(
    alloc: Global,
    out: &mut Vec<u8>,
    names: &[Text],
    rows: &[SlotRow],
    entry: &Option<Slots>,
) -> Result<(), AllocError>
    ensures { OnOk result (out.new.items ≡ out.old.items ++ compact_text (entry_value names.now rows.now entry.now)) }
{
    match entry {
        Some(slots) => write_slots(alloc, out, names, rows, slots.as_slice()),
        None => put_null(out),
    }
}

fn write_slots(
    alloc: Global,
    out: &mut Vec<u8>,
    names: &[Text],
    rows: &[SlotRow],
    slots: &[Items],
) -> Result<(), AllocError>
    ensures { OnOk result (out.new.items ≡ out.old.items ++ compact_text (slots_value names.now rows.now slots.now)) }
{
    out.push(b'{')?;
    write_members(alloc, out, false, names, rows, slots)
}

/// Appends the members of the slots, and the closing bracket.
fn write_members(
    alloc: Global,
    out: &mut Vec<u8>,
    later: bool,
    names: &[Text],
    rows: &[SlotRow],
    slots: &[Items],
) -> Result<(), AllocError>
    ensures { OnOk result (out.new.items ≡ out.old.items ++ members_text later (members_value names.now rows.now slots.now)) }
{
    match (names, rows, slots) {
        ([name, ..], [row, ..], [items, ..]) => {
            put_name(alloc, out, later, name.as_str())?;
            write_slot(alloc, out, row, items)?;
            write_members(
                alloc,
                out,
                true,
                rest_of(names),
                rest_of(rows),
                rest_of(slots),
            )
        }
        _ => {
            out.push(b'}')?;
            Ok(())
        }
    }
}

fn write_slot(
    alloc: Global,
    out: &mut Vec<u8>,
    row: &SlotRow,
    items: &Items,
) -> Result<(), AllocError>
    ensures { OnOk result (out.new.items ≡ out.old.items ++ compact_text (slot_value row.now items.now)) }
{
    if row.lone {
        write_value(alloc, out, &first_item(items))
    } else {
        write_items(alloc, out, items)
    }
}

fn write_items(alloc: Global, out: &mut Vec<u8>, items: &Items) -> Result<(), AllocError>
    ensures { OnOk result (out.new.items ≡ out.old.items ++ compact_text (list_value value_json items.now)) }
{
    out.push(b'[')?;
    let mut later = false;
    for place in 0..items.len() {
        put_comma(out, later)?;
        write_value(alloc, out, &items.item(place))?;
        later = true;
    }
    out.push(b']')?;
    Ok(())
}

fn write_value(alloc: Global, out: &mut Vec<u8>, value: &Value) -> Result<(), AllocError>
    ensures { OnOk result (out.new.items ≡ out.old.items ++ compact_text (value_json value.now)) }
{
    match value {
        Some(Arg::Whole(number)) => put_integer(out, i64::from(*number)),
        Some(Arg::Text(text)) => put_string(alloc, out, text.as_str()),
        None => put_null(out),
    }
}
