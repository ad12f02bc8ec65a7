//! Reads the value of an entry of the log back.

ghost use Rattle.std.specs.Prelude.{◌≡◌, codes, option_and_then, IfOk, IfSome, Some};
ghost use Rattle.serde_json.specs.Find.{get};
ghost use Rattle.serde_json.specs.View.{view};
ghost use Rattle.game_sheet.specs.SheetFits.{SheetFits};
ghost use Rattle.json_tree.specs.Canonical.{IsCanonical};
ghost use Rattle.move_log.specs.declared.entry.Entry.{Entry as Shown};
ghost use Rattle.player_sight.specs.EntryData.{entry_data};
ghost use Rattle.player_sight.specs.Plain.{IsPlainEntry};
ghost use Rattle.sight_reading.specs.EntryReading.{args_in, move_in, aimless as aimless_in, event_by, event_of as event_of_kind, event_in, alone_in, deed_in, entry_in};
ghost use Rattle.game_sheet.specs.SheetNames.{move_of, phase_of, stage_of};
ghost use Rattle.sight_reading.specs.Reading.{text_at};

use crate::part_read::{number_of, phase_member_of, seat_of};
use game_sheet::{Act, Args, Event, EventKind, MoveId, NoMemory, Outcome, PhaseId, Sheet, StageId};
use json_tree::{extra_field, text_of};
use move_log::Entry;
use serde_json::Value;
use sheet_json::{args_of, is_null, seat_or_null_of};
use std::alloc::Global;

// An action as it is shown.
#[derive(Drop)]
struct Deed {
    act: Act,
    hidden: bool,
}

/// The entry that has this value; none exactly where no entry of a plain snapshot has it.
#[tactic(auto, using(crate::proofs::Readers::entry_only, crate::proofs::Readers::entry_found))]
pub fn entry_of(_alloc: Global, sheet: &Sheet, value: &Value) -> Result<Option<Entry>, NoMemory>
    requires { SheetFits sheet.now }
    ensures exact { IfOk result (λ entry. entry ≡ entry_in sheet.now (view value.now)) }
    ensures found { IfOk result (λ read. IsCanonical (view value.now) → IfSome read (λ entry. IsPlainEntry sheet.now entry × (entry_data sheet.now entry ≡ view value.now))) }
    ensures only { IfOk result (λ read. (entry : Shown) → IsPlainEntry sheet.now entry → entry_data sheet.now entry ≡ view value.now → read ≡ Some entry) }
{
    Ok(read_entry(sheet, value))
}

#[tactic(auto, unfolding(crate::specs::EntryReading::entry_in))]
fn read_entry(sheet: &Sheet, value: &Value) -> Option<Entry>
    requires { SheetFits sheet.now }
    ensures { result ≡ entry_in sheet.now (view value.now) }
{
    if extra_field(value, &["act", "number", "phase", "seat", "turn"]) {
        return None;
    }
    let number = number_of(value, "number")?;
    let phase = phase_member_of(sheet, value)?;
    let seat = seat_of(value, "seat")?;
    let turn = number_of(value, "turn")?;
    let deed = deed_member_of(sheet, value)?;
    Some(Entry {
        seat,
        act: deed.act,
        hidden: deed.hidden,
        number,
        turn,
        phase,
        words: 0,
    })
}

fn deed_member_of(sheet: &Sheet, value: &Value) -> Option<Deed>
    requires { SheetFits sheet.now }
    ensures { result ≡ option_and_then (deed_in sheet.now) (get (codes "act") (view value.now)) }
{
    match value.get("act") {
        Some(act) => deed_of(sheet, act),
        None => None,
    }
}

#[tactic(auto, unfolding(crate::specs::EntryReading::deed_in))]
fn deed_of(sheet: &Sheet, act: &Value) -> Option<Deed>
    requires { SheetFits sheet.now }
    ensures { result ≡ deed_in sheet.now (view act.now) }
{
    let Ok(kind) = text_of(act, "kind") else {
        return None;
    };
    match kind {
        "move" => move_of_value(sheet, act),
        "event" => match event_of(sheet, act) {
            Some(event) => Some(Deed {
                act: Act::Event(event),
                hidden: false,
            }),
            None => None,
        },
        "undo" => alone(Act::Undo, act),
        "redo" => alone(Act::Redo, act),
        _ => None,
    }
}

fn alone(act: Act, value: &Value) -> Option<Deed>
    ensures { result ≡ alone_in act (view value.now) }
{
    if extra_field(value, &["kind"]) {
        None
    } else {
        Some(Deed { act, hidden: false })
    }
}

#[tactic(auto, unfolding(crate::specs::EntryReading::move_in))]
fn move_of_value(sheet: &Sheet, act: &Value) -> Option<Deed>
    requires { SheetFits sheet.now }
    ensures { result ≡ move_in sheet.now (view act.now) }
{
    if extra_field(act, &["args", "kind", "move"]) {
        return None;
    }
    let args = shown_args_of(act)?;
    let id = move_id_of(sheet, act)?;
    match args {
        Some(args) => Some(Deed {
            act: Act::Move { id, args },
            hidden: false,
        }),
        None => Some(Deed {
            act: Act::Move {
                id,
                args: Args::new(),
            },
            hidden: true,
        }),
    }
}

fn move_id_of(sheet: &Sheet, act: &Value) -> Option<MoveId>
    requires { SheetFits sheet.now }
    ensures { result ≡ option_and_then (move_of sheet.now) (text_at (get (codes "move") (view act.now))) }
{
    match text_of(act, "move") {
        Ok(name) => sheet.move_named(name),
        Err(_) => None,
    }
}

// The arguments, or none where they are null.
fn shown_args_of(act: &Value) -> Option<Option<Args>>
    ensures { result ≡ args_in (get (codes "args") (view act.now)) }
{
    let Some(args) = act.get("args") else {
        return None;
    };
    if args.is_null() {
        return Some(None);
    }
    let Some(items) = args.as_array() else {
        return None;
    };
    match args_of(items.as_slice()) {
        Some(args) => Some(Some(args)),
        None => None,
    }
}

#[tactic(auto, unfolding(crate::specs::EntryReading::event_in))]
fn event_of(sheet: &Sheet, act: &Value) -> Option<Event>
    requires { SheetFits sheet.now }
    ensures { result ≡ event_in sheet.now (view act.now) }
{
    if extra_field(act, &["event", "kind", "to"]) {
        return None;
    }
    match text_of(act, "event") {
        Ok(name) => event_named(sheet, name, act),
        Err(_) => None,
    }
}

fn event_named(sheet: &Sheet, name: &str, act: &Value) -> Option<Event>
    requires { SheetFits sheet.now }
    ensures { result ≡ event_by sheet.now name.now (get (codes "to") (view act.now)) }
{
    match EventKind::named(name) {
        Some(kind) => event_of_kind(sheet, kind, act),
        None => None,
    }
}

fn event_of_kind(sheet: &Sheet, kind: EventKind, act: &Value) -> Option<Event>
    requires { SheetFits sheet.now }
    ensures { result ≡ event_of_kind sheet.now kind (get (codes "to") (view act.now)) }
{
    match kind {
        EventKind::EndTurn => match seat_or_null_of(act, "to") {
            Ok(to) => Some(Event::EndTurn { to }),
            Err(_) => None,
        },
        EventKind::EndPhase => aimless(Event::EndPhase, act),
        EventKind::SetPhase => match phase_aim_of(sheet, act) {
            Some(to) => Some(Event::SetPhase { to }),
            None => None,
        },
        EventKind::EndStage => aimless(Event::EndStage, act),
        EventKind::SetStage => match stage_aim_of(sheet, act) {
            Some(to) => Some(Event::SetStage { to }),
            None => None,
        },
        EventKind::EndGame => {
            let outcome = Outcome::Ended;
            aimless(Event::EndGame { outcome }, act)
        }
    }
}

fn aimless(event: Event, act: &Value) -> Option<Event>
    ensures { result ≡ aimless_in event (get (codes "to") (view act.now)) }
{
    if is_null(act, "to") {
        Some(event)
    } else {
        None
    }
}

fn phase_aim_of(sheet: &Sheet, act: &Value) -> Option<PhaseId>
    requires { SheetFits sheet.now }
    ensures { result ≡ option_and_then (phase_of sheet.now) (text_at (get (codes "to") (view act.now))) }
{
    match text_of(act, "to") {
        Ok(name) => sheet.phase_named(name),
        Err(_) => None,
    }
}

fn stage_aim_of(sheet: &Sheet, act: &Value) -> Option<StageId>
    requires { SheetFits sheet.now }
    ensures { result ≡ option_and_then (stage_of sheet.now) (text_at (get (codes "to") (view act.now))) }
{
    match text_of(act, "to") {
        Ok(name) => sheet.stage_named(name),
        Err(_) => None,
    }
}
