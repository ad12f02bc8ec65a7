//! The values of actions.

ghost use Rattle.std.specs.Prelude.{◌≡◌, IfOk, OnOk, codes, if◌then◌else◌};
ghost use Rattle.serde_json.specs.Data.{null, string, array, object, member, no_members, put};
ghost use Rattle.serde_json.specs.View.{view, members_view};
ghost use Rattle.sheet_json.specs.Arguments.{arguments};
ghost use Rattle.player_sight.specs.EntryData.{event_name, event_aim, event_data, move_data, act_data};
ghost use Rattle.player_sight.specs.Parts.{move_name};

use crate::members::put_text;
use crate::parts::{move_value, phase_value, stage_value};
use game_sheet::{Act, Args, Event, EventKind, MoveId, NoMemory, Sheet};
use serde_json::{Map, Value, json};
use sheet_json::{args_value, seat_value};
use std::alloc::Global;

/// The value of an action; hidden arguments are null.
pub fn act_value(alloc: Global, sheet: &Sheet, act: &Act, hidden: bool) -> Result<Value, NoMemory>
    ensures { IfOk result (λ v. view v ≡ act_data sheet.now hidden act.now) }
{
    match act {
        Act::Move { id, args } => move_act(alloc, sheet, *id, args, hidden),
        Act::Event(event) => event_value(alloc, sheet, event),
        Act::Undo => alone(alloc, "undo"),
        Act::Redo => alone(alloc, "redo"),
    }
}

fn alone(alloc: Global, kind: &str) -> Result<Value, NoMemory>
    ensures { IfOk result (λ v. view v ≡ object (member (codes "kind") (string kind.now) no_members)) }
{
    Ok(json!(in alloc; {"kind": kind})?)
}

fn move_act(
    alloc: Global,
    sheet: &Sheet,
    id: MoveId,
    args: &Args,
    hidden: bool,
) -> Result<Value, NoMemory>
    ensures { IfOk result (λ v. view v
        ≡ move_data (move_name sheet.now id) (if hidden then null else array (arguments args.now))) }
{
    let mut map = Map::new(alloc);
    match fill_move(alloc, sheet, id, args, hidden, &mut map) {
        Ok(()) => Ok(Value::Object(map)),
        Err(no) => {
            drop(map);
            Err(no)
        }
    }
}

fn fill_move(
    alloc: Global,
    sheet: &Sheet,
    id: MoveId,
    args: &Args,
    hidden: bool,
    map: &mut Map<String, Value>,
) -> Result<(), NoMemory>
    requires { members_view map.old.entries ≡ no_members }
    ensures { OnOk result (object (members_view map.new.entries)
        ≡ move_data (move_name sheet.now id) (if hidden then null else array (arguments args.now))) }
{
    put_args(alloc, map, args, hidden)?;
    put_text(alloc, map, "kind", "move")?;
    put_move(alloc, sheet, map, id)
}

fn put_args(
    alloc: Global,
    map: &mut Map<String, Value>,
    args: &Args,
    hidden: bool,
) -> Result<(), NoMemory>
    ensures { OnOk result (members_view map.new.entries
        ≡ put (codes "args") (if hidden then null else array (arguments args.now)) (members_view map.old.entries)) }
{
    let value = shown_args(alloc, args, hidden)?;
    serde_json::put(map, alloc, "args", value)?;
    Ok(())
}

fn shown_args(alloc: Global, args: &Args, hidden: bool) -> Result<Value, NoMemory>
    ensures { IfOk result (λ v. view v ≡ (if hidden then null else array (arguments args.now))) }
{
    if hidden {
        Ok(Value::Null)
    } else {
        args_value(alloc, args)
    }
}

fn put_move(
    alloc: Global,
    sheet: &Sheet,
    map: &mut Map<String, Value>,
    id: MoveId,
) -> Result<(), NoMemory>
    ensures { OnOk result (members_view map.new.entries ≡ put (codes "move") (move_name sheet.now id) (members_view map.old.entries)) }
{
    let name = move_value(alloc, sheet, id)?;
    serde_json::put(map, alloc, "move", name)?;
    Ok(())
}

fn event_value(alloc: Global, sheet: &Sheet, event: &Event) -> Result<Value, NoMemory>
    ensures { IfOk result (λ v. view v ≡ event_data sheet.now event.now) }
{
    let mut map = Map::new(alloc);
    match fill_event(alloc, sheet, event, &mut map) {
        Ok(()) => Ok(Value::Object(map)),
        Err(no) => {
            drop(map);
            Err(no)
        }
    }
}

fn fill_event(
    alloc: Global,
    sheet: &Sheet,
    event: &Event,
    map: &mut Map<String, Value>,
) -> Result<(), NoMemory>
    requires { members_view map.old.entries ≡ no_members }
    ensures { OnOk result (object (members_view map.new.entries) ≡ event_data sheet.now event.now) }
{
    put_text(alloc, map, "event", event_word(event))?;
    put_text(alloc, map, "kind", "event")?;
    put_aim(alloc, sheet, map, event)
}

/// The name of an event.
pub fn event_word(event: &Event) -> &'static str
    ensures { result.now ≡ event_name event.now }
{
    match event {
        Event::EndTurn { .. } => EventKind::EndTurn.name(),
        Event::EndPhase => EventKind::EndPhase.name(),
        Event::SetPhase { .. } => EventKind::SetPhase.name(),
        Event::EndStage => EventKind::EndStage.name(),
        Event::SetStage { .. } => EventKind::SetStage.name(),
        Event::SetActive { .. } => "setActive",
        Event::EndGame { .. } => EventKind::EndGame.name(),
    }
}

fn put_aim(
    alloc: Global,
    sheet: &Sheet,
    map: &mut Map<String, Value>,
    event: &Event,
) -> Result<(), NoMemory>
    ensures { OnOk result (members_view map.new.entries ≡ put (codes "to") (event_aim sheet.now event.now) (members_view map.old.entries)) }
{
    let to = aim_value(alloc, sheet, event)?;
    serde_json::put(map, alloc, "to", to)?;
    Ok(())
}

fn aim_value(alloc: Global, sheet: &Sheet, event: &Event) -> Result<Value, NoMemory>
    ensures { IfOk result (λ v. view v ≡ event_aim sheet.now event.now) }
{
    match event {
        Event::EndTurn { to } => Ok(seat_value(*to)),
        Event::SetPhase { to } => phase_value(alloc, sheet, Some(*to)),
        Event::SetStage { to } => stage_value(alloc, sheet, Some(*to)),
        Event::EndPhase | Event::EndStage => Ok(Value::Null),
        Event::SetActive { .. } | Event::EndGame { .. } => Ok(Value::Null),
    }
}
