//! The texts of what a game gives.

ghost use Rattle.std.specs.Prelude.{◌≡◌, ◌++◌, OnOk};
ghost use Rattle.serde_json.specs.Written.{compact_text};

use game_sheet::{Args, Event, List, MoveId, NoMemory, Outcome, Sheet};
use game_trait::Game;
use json_text::{put_comma, put_natural, put_null, put_string};
use sheet_json::{put_args, put_seat};
use std::alloc::Global;

/// Appends a fixed text.
pub(crate) fn put_text(out: &mut Vec<u8>, text: &str) -> Result<(), NoMemory>
    ensures { OnOk result (out.new.items ≡ out.old.items ++ text.now) }
{
    Ok(out.extend_from_slice(text.as_bytes())?)
}

/// Appends how a match ends.
pub(crate) fn put_outcome(out: &mut Vec<u8>, outcome: Outcome) -> Result<(), NoMemory> {
    match outcome {
        Outcome::Winner(seat) => put_named(out, "winner", u64::from(seat)),
        Outcome::Draw => put_text(out, "[\"draw\"]"),
        Outcome::Ended => put_text(out, "[\"ended\"]"),
    }
}

/// Appends how a match ends, if it does.
pub(crate) fn put_over(out: &mut Vec<u8>, over: Option<Outcome>) -> Result<(), NoMemory> {
    match over {
        Some(outcome) => put_outcome(out, outcome),
        None => Ok(put_null(out)?),
    }
}

/// Appends a list of a name and a number.
fn put_named(out: &mut Vec<u8>, name: &str, number: u64) -> Result<(), NoMemory> {
    put_text(out, "[\"")?;
    put_text(out, name)?;
    put_text(out, "\",")?;
    put_natural(out, number)?;
    Ok(out.push(b']')?)
}

/// Appends an event.
fn put_event(out: &mut Vec<u8>, event: Event) -> Result<(), NoMemory> {
    match event {
        Event::EndTurn { to } => put_end_turn(out, to),
        Event::EndPhase => put_text(out, "[\"endPhase\",null]"),
        Event::SetPhase { to } => put_named(out, "setPhase", u64::from(to.place())),
        Event::EndStage => put_text(out, "[\"endStage\",null]"),
        Event::SetStage { to } => put_named(out, "setStage", u64::from(to.place())),
        Event::SetActive { spec } => put_named(out, "setActive", u64::from(spec.place())),
        Event::EndGame { outcome } => put_end_game(out, outcome),
    }
}

fn put_end_turn(out: &mut Vec<u8>, to: Option<u8>) -> Result<(), NoMemory> {
    put_text(out, "[\"endTurn\",")?;
    put_seat(out, to)?;
    Ok(out.push(b']')?)
}

fn put_end_game(out: &mut Vec<u8>, outcome: Outcome) -> Result<(), NoMemory> {
    put_text(out, "[\"endGame\",")?;
    put_outcome(out, outcome)?;
    Ok(out.push(b']')?)
}

/// Appends a list of events.
fn put_events(out: &mut Vec<u8>, events: &[Event]) -> Result<(), NoMemory> {
    out.push(b'[')?;
    let mut later = false;
    for event in events {
        put_comma(out, later)?;
        put_event(out, *event)?;
        later = true;
    }
    Ok(out.push(b']')?)
}

/// Appends a state.
pub(crate) fn put_state<X: Game>(
    alloc: Global,
    out: &mut Vec<u8>,
    game: &X,
    g: &X::G,
) -> Result<(), NoMemory>
    ensures { OnOk result (out.new.items ≡ out.old.items ++ compact_text ((X.rules game.now).value g.now)) }
{
    game.write(alloc, out, g)
}

/// Appends the state that game code has made, and the events that it has queued.
pub(crate) fn put_made<X: Game>(
    alloc: Global,
    out: &mut Vec<u8>,
    game: &X,
    g: &X::G,
    events: &[Event],
) -> Result<(), NoMemory> {
    put_text(out, "{\"events\":")?;
    put_events(out, events)?;
    put_text(out, ",\"g\":")?;
    game.write(alloc, out, g)?;
    Ok(out.push(b'}')?)
}

/// Appends a list of offers.
pub(crate) fn put_offers(
    alloc: Global,
    out: &mut Vec<u8>,
    sheet: &Sheet,
    offers: &List<(MoveId, Args)>,
) -> Result<(), NoMemory> {
    out.push(b'[')?;
    let mut later = false;
    for offer in offers.as_slice() {
        put_comma(out, later)?;
        put_offer(alloc, out, sheet, offer.0, &offer.1)?;
        later = true;
    }
    Ok(out.push(b']')?)
}

/// Appends an offer: the name of the move and its arguments.
fn put_offer(
    alloc: Global,
    out: &mut Vec<u8>,
    sheet: &Sheet,
    id: MoveId,
    args: &Args,
) -> Result<(), NoMemory> {
    out.push(b'[')?;
    match sheet.moves.get(id.place() as usize) {
        Some(row) => put_string(alloc, out, row.name.as_str())?,
        None => put_null(out)?,
    }
    out.push(b',')?;
    put_args(alloc, out, args)?;
    Ok(out.push(b']')?)
}
