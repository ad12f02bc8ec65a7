//! The text of an entry of the log, appended to bytes.

ghost use Rattle.std.specs.Prelude.{◌≡◌, ◌++◌, [], OnOk, true, if◌then◌else◌};
ghost use Rattle.serde_json.specs.Data.{null, array};
ghost use Rattle.serde_json.specs.Written.{compact_text, members_text};
ghost use Rattle.move_log.specs.Outline.{entry_with, with_args};
ghost use Rattle.move_log.specs.Redact.{redact};
ghost use Rattle.sheet_json.specs.Arguments.{arguments};
ghost use Rattle.player_sight.specs.EntryData.{event_aim, event_data, move_data, act_data, entry_data};
ghost use Rattle.player_sight.specs.Parts.{move_name};
ghost use Rattle.player_sight.specs.Tails.{from_seat, from_number, from_kind};

use crate::acts::event_word;
use crate::text_args::put_args;
use crate::text_parts::{put_move, put_name, put_phase, put_stage};
use game_sheet::{Arg, Event, MoveId, NoMemory, Seat, Sheet};
use json_text::{put_natural, put_null};
use move_log::{Entry, KeptEntry, Outline, Seen};
use sheet_json::put_seat;
use std::alloc::Global;

/// Appends the text of the value of an entry as a viewer sees it; hidden arguments are null. Where memory is wanting, some
/// first part may have been appended.
#[tactic(auto, using(crate::proofs::SeenText::text_seen))]
pub fn put_entry(
    alloc: Global,
    out: &mut Vec<u8>,
    sheet: &Sheet,
    entry: &Entry,
    viewer: Option<Seat>,
) -> Result<(), NoMemory>
    ensures { OnOk result (out.new.items ≡ out.old.items ++ compact_text (entry_data sheet.now (redact sheet.now viewer entry.now))) }
{
    put_seen(alloc, out, sheet, &entry.seen(sheet, viewer), entry.args())
}

/// The same of an entry that is kept.
#[tactic(auto, using(crate::proofs::SeenText::text_seen))]
pub fn put_kept(
    alloc: Global,
    out: &mut Vec<u8>,
    sheet: &Sheet,
    entry: &KeptEntry,
    viewer: Option<Seat>,
) -> Result<(), NoMemory>
    ensures { OnOk result (out.new.items ≡ out.old.items ++ compact_text (entry_data sheet.now (redact sheet.now viewer entry.now))) }
{
    put_seen(alloc, out, sheet, &entry.seen(sheet, viewer), entry.args())
}

#[tactic(auto, unfolding(json::specs::Print::escape_byte))]
fn put_seen(
    alloc: Global,
    out: &mut Vec<u8>,
    sheet: &Sheet,
    entry: &Seen,
    args: &[Arg],
) -> Result<(), NoMemory>
    ensures { OnOk result (out.new.items ≡ out.old.items ++ compact_text (entry_data sheet.now (entry_with entry.now args.now))) }
{
    out.extend_from_slice(b"{\"act\":")?;
    put_act(alloc, out, sheet, entry.act, args, entry.hidden)?;
    put_from_number(alloc, out, sheet, entry)
}

#[tactic(auto, unfolding(json::specs::Print::escape_byte))]
fn put_from_number(
    alloc: Global,
    out: &mut Vec<u8>,
    sheet: &Sheet,
    entry: &Seen,
) -> Result<(), NoMemory>
    ensures { OnOk result (out.new.items ≡ out.old.items ++ members_text true (from_number sheet.now (entry_with entry.now []))) }
{
    out.extend_from_slice(b",\"number\":")?;
    put_natural(out, entry.number as u64)?;
    out.extend_from_slice(b",\"phase\":")?;
    put_phase(alloc, out, sheet, entry.phase)?;
    put_from_seat(out, entry)
}

#[tactic(auto, unfolding(json::specs::Print::escape_byte))]
fn put_from_seat(out: &mut Vec<u8>, entry: &Seen) -> Result<(), NoMemory>
    ensures { OnOk result (out.new.items ≡ out.old.items ++ members_text true (from_seat (entry_with entry.now []))) }
{
    out.extend_from_slice(b",\"seat\":")?;
    put_natural(out, entry.seat as u64)?;
    out.extend_from_slice(b",\"turn\":")?;
    put_natural(out, entry.turn as u64)?;
    out.extend_from_slice(b"}")?;
    Ok(())
}

#[tactic(auto, unfolding(json::specs::Print::escape_byte))]
fn put_act(
    alloc: Global,
    out: &mut Vec<u8>,
    sheet: &Sheet,
    act: Outline,
    args: &[Arg],
    hidden: bool,
) -> Result<(), NoMemory>
    ensures { OnOk result (out.new.items ≡ out.old.items ++ compact_text (act_data sheet.now hidden (with_args act args.now))) }
{
    match act {
        Outline::Move(id) => put_move_act(alloc, out, sheet, id, args, hidden),
        Outline::Event(event) => put_event(alloc, out, sheet, &event),
        Outline::Undo => Ok(out.extend_from_slice(b"{\"kind\":\"undo\"}")?),
        Outline::Redo => Ok(out.extend_from_slice(b"{\"kind\":\"redo\"}")?),
    }
}

#[tactic(auto, unfolding(json::specs::Print::escape_byte))]
fn put_move_act(
    alloc: Global,
    out: &mut Vec<u8>,
    sheet: &Sheet,
    id: MoveId,
    args: &[Arg],
    hidden: bool,
) -> Result<(), NoMemory>
    ensures { OnOk result (out.new.items ≡ out.old.items
        ++ compact_text (move_data (move_name sheet.now id) (if hidden then null else array (arguments args.now)))) }
{
    out.extend_from_slice(b"{\"args\":")?;
    put_shown_args(alloc, out, args, hidden)?;
    put_from_kind(alloc, out, sheet, id)
}

#[tactic(auto, unfolding(json::specs::Print::escape_byte))]
fn put_from_kind(
    alloc: Global,
    out: &mut Vec<u8>,
    sheet: &Sheet,
    id: MoveId,
) -> Result<(), NoMemory>
    ensures { OnOk result (out.new.items ≡ out.old.items ++ members_text true (from_kind (move_name sheet.now id))) }
{
    out.extend_from_slice(b",\"kind\":\"move\",\"move\":")?;
    put_move(alloc, out, sheet, id)?;
    out.extend_from_slice(b"}")?;
    Ok(())
}

fn put_shown_args(
    alloc: Global,
    out: &mut Vec<u8>,
    args: &[Arg],
    hidden: bool,
) -> Result<(), NoMemory>
    ensures { OnOk result (out.new.items ≡ out.old.items ++ compact_text (if hidden then null else array (arguments args.now))) }
{
    if hidden {
        Ok(put_null(out)?)
    } else {
        put_args(alloc, out, args)
    }
}

#[tactic(auto, unfolding(json::specs::Print::escape_byte))]
fn put_event(alloc: Global, out: &mut Vec<u8>, sheet: &Sheet, event: &Event) -> Result<(), NoMemory>
    ensures { OnOk result (out.new.items ≡ out.old.items ++ compact_text (event_data sheet.now event.now)) }
{
    out.extend_from_slice(b"{\"event\":")?;
    put_name(alloc, out, event_word(event))?;
    out.extend_from_slice(b",\"kind\":\"event\",\"to\":")?;
    put_aim(alloc, out, sheet, event)?;
    out.extend_from_slice(b"}")?;
    Ok(())
}

fn put_aim(alloc: Global, out: &mut Vec<u8>, sheet: &Sheet, event: &Event) -> Result<(), NoMemory>
    ensures { OnOk result (out.new.items ≡ out.old.items ++ compact_text (event_aim sheet.now event.now)) }
{
    match event {
        Event::EndTurn { to } => put_seat(out, *to),
        Event::SetPhase { to } => put_phase(alloc, out, sheet, Some(*to)),
        Event::SetStage { to } => put_stage(alloc, out, sheet, Some(*to)),
        Event::EndPhase | Event::EndStage => Ok(put_null(out)?),
        Event::SetActive { .. } | Event::EndGame { .. } => Ok(put_null(out)?),
    }
}
