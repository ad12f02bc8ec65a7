//! The text of the active players, appended to bytes.

ghost use Rattle.std.specs.Prelude.{◌≡◌, ◌++◌, ◌∷◌, OnOk, true, decimal};
ghost use Rattle.serde_json.specs.Data.{object};
ghost use Rattle.serde_json.specs.Written.{compact_text, comma_if};
ghost use Rattle.json.specs.Print.{quoted};
ghost use Rattle.player_sight.specs.CtxData.{active_data, rows_members};
ghost use Rattle.player_sight.specs.Parts.{stage_or_null};
ghost use Rattle.player_sight.specs.RowList.{rises_from, row_list};

use crate::context::rows_value;
use crate::text_parts::put_stage;
use game_sheet::{Ctx, NoMemory, Seat, Sheet, StageId};
use itoa::Buffer;
use json_text::{put_comma, put_null, put_string};
use std::alloc::Global;

/// Appends the active players of a context: null, or an object from each seat to its stage.
pub fn put_active(
    alloc: Global,
    out: &mut Vec<u8>,
    sheet: &Sheet,
    ctx: &Ctx,
) -> Result<(), NoMemory>
    ensures { OnOk result (out.new.items ≡ out.old.items ++ compact_text (active_data sheet.now (ctx.now).active)) }
{
    match &ctx.active {
        None => Ok(put_null(out)?),
        Some(rows) => put_rows(alloc, out, sheet, rows.as_slice()),
    }
}

// The members stand in the order of their names, which isn't that of the seats from ten seats on.
#[tactic(auto, using(crate::proofs::RisingRows::rows_rise))]
fn put_rows(
    alloc: Global,
    out: &mut Vec<u8>,
    sheet: &Sheet,
    rows: &[(Seat, Option<StageId>)],
) -> Result<(), NoMemory>
    ensures { OnOk result (out.new.items ≡ out.old.items ++ compact_text (object (rows_members sheet.now rows.now))) }
{
    if names_rise(rows) {
        put_in_order(alloc, out, sheet, rows)
    } else {
        put_sorted(alloc, out, sheet, rows)
    }
}

fn put_sorted(
    alloc: Global,
    out: &mut Vec<u8>,
    sheet: &Sheet,
    rows: &[(Seat, Option<StageId>)],
) -> Result<(), NoMemory>
    ensures { OnOk result (out.new.items ≡ out.old.items ++ compact_text (object (rows_members sheet.now rows.now))) }
{
    let value = rows_value(alloc, sheet, rows)?;
    let text = value.to_string(alloc);
    drop(value);
    out.extend_from_slice(text?.as_bytes())?;
    Ok(())
}

fn put_in_order(
    alloc: Global,
    out: &mut Vec<u8>,
    sheet: &Sheet,
    rows: &[(Seat, Option<StageId>)],
) -> Result<(), NoMemory>
    ensures { OnOk result (out.new.items ≡ out.old.items ++ compact_text (object (row_list sheet.now rows.now))) }
{
    out.push(b'{')?;
    let mut later = false;
    for row in rows {
        put_row(alloc, out, sheet, *row, later)?;
        later = true;
    }
    out.push(b'}')?;
    Ok(())
}

fn put_row(
    alloc: Global,
    out: &mut Vec<u8>,
    sheet: &Sheet,
    row: (Seat, Option<StageId>),
    later: bool,
) -> Result<(), NoMemory>
    ensures { OnOk result (out.new.items ≡ out.old.items
        ++ (comma_if later ++ (quoted (decimal row.0) ++ 58 ∷ compact_text (stage_or_null sheet.now row.1)))) }
{
    put_comma(out, later)?;
    let mut buffer = Buffer::new();
    put_string(alloc, out, buffer.format(row.0))?;
    out.push(b':')?;
    put_stage(alloc, out, sheet, row.1)
}

// Whether the seats rise and are below ten, so that their names rise too.
fn names_rise(rows: &[(Seat, Option<StageId>)]) -> bool
    ensures { result ≡ rises_from 0 rows.now }
{
    let mut least = 0;
    for row in rows {
        if row.0 < least || 9 < row.0 {
            return false;
        }
        least = row.0 + 1;
    }
    true
}
