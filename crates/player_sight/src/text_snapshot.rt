//! The texts of a log and of a snapshot, appended to bytes.

ghost use Rattle.std.specs.Prelude.{◌≡◌, ◌++◌, OnOk, map, true};
ghost use Rattle.serde_json.specs.Data.{Data};
ghost use Rattle.serde_json.specs.Written.{compact_text, comma_if, members_text};
ghost use Rattle.move_log.specs.Redact.{redact};
ghost use Rattle.player_sight.specs.EntryData.{entry_data, log_data};
ghost use Rattle.player_sight.specs.SnapshotData.{snapshot_data};
ghost use Rattle.player_sight.specs.Tails.{from_log};

use crate::text_context::put_ctx;
use crate::text_entry::put_kept;
use game_sheet::{Ctx, NoMemory, Number, Seat, Sheet};
use json_text::{put_comma, put_natural};
use move_log::KeptEntry;
use std::alloc::Global;

/// Appends the text of the log's value, with what the viewer may not see left out. Where memory is wanting, some first
/// part may have been appended.
pub fn put_log(
    alloc: Global,
    out: &mut Vec<u8>,
    sheet: &Sheet,
    log: &[KeptEntry],
    viewer: Option<Seat>,
) -> Result<(), NoMemory>
    ensures { OnOk result (out.new.items ≡ out.old.items
        ++ compact_text (log_data sheet.now (map (redact sheet.now viewer) log.now))) }
{
    out.push(b'[')?;
    let mut later = false;
    for entry in log {
        put_next(alloc, out, sheet, entry, viewer, later)?;
        later = true;
    }
    out.push(b']')?;
    Ok(())
}

fn put_next(
    alloc: Global,
    out: &mut Vec<u8>,
    sheet: &Sheet,
    entry: &KeptEntry,
    viewer: Option<Seat>,
    later: bool,
) -> Result<(), NoMemory>
    ensures { OnOk result (out.new.items ≡ out.old.items
        ++ (comma_if later ++ compact_text (entry_data sheet.now (redact sheet.now viewer entry.now)))) }
{
    put_comma(out, later)?;
    put_kept(alloc, out, sheet, entry, viewer)
}

/// Appends the text of what a viewer is shown of a match: the state number, the context, the viewer's part of the
/// game's state, whose text is given, and the log with what the viewer may not see left out. Where memory is wanting,
/// some first part may have been appended.
#[tactic(auto, unfolding(json::specs::Print::escape_byte))]
pub fn put_snapshot(
    alloc: Global,
    out: &mut Vec<u8>,
    sheet: &Sheet,
    number: Number,
    ctx: &Ctx,
    g: &[u8],
    log: &[KeptEntry],
    viewer: Option<Seat>,
) -> Result<(), NoMemory>
    ensures { (state : Data) → g.now ≡ compact_text state → OnOk result (out.new.items ≡ out.old.items
        ++ compact_text (snapshot_data sheet.now
        (record { number = number; ctx = ctx.now; g = state; log = map (redact sheet.now viewer) log.now }))) }
{
    out.extend_from_slice(b"{\"ctx\":")?;
    put_ctx(alloc, out, sheet, ctx)?;
    out.extend_from_slice(b",\"g\":")?;
    out.extend_from_slice(g)?;
    put_from_log(alloc, out, sheet, number, log, viewer)
}

#[tactic(auto, unfolding(json::specs::Print::escape_byte))]
fn put_from_log(
    alloc: Global,
    out: &mut Vec<u8>,
    sheet: &Sheet,
    number: Number,
    log: &[KeptEntry],
    viewer: Option<Seat>,
) -> Result<(), NoMemory>
    ensures { OnOk result (out.new.items ≡ out.old.items
        ++ members_text true (from_log (log_data sheet.now (map (redact sheet.now viewer) log.now)) number)) }
{
    out.extend_from_slice(b",\"log\":")?;
    put_log(alloc, out, sheet, log, viewer)?;
    out.extend_from_slice(b",\"number\":")?;
    put_natural(out, number as u64)?;
    out.extend_from_slice(b"}")?;
    Ok(())
}
