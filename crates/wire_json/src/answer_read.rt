//! Reads the answers to what a session asks of the lobby, one function for each row.

ghost use Rattle.std.specs.Prelude.{◌≡◌, IfOk, Some};
ghost use Rattle.serde_json.specs.Find.{get};
ghost use Rattle.serde_json.specs.View.{view, items_view};
ghost use Rattle.wire_json.specs.Acts.{word_in};
ghost use Rattle.wire_json.specs.Refusals.{Gives, at_field};
ghost use Rattle.wire_json.specs.ServerReading.{answer_as, names_from, names_in, games_in, matches_in, match_row_in, created_in, joined_in, place_in, placed};
ghost use Rattle.wire_json.specs.declared.server.ServerMsg.TheVariants as Message;

use crate::members::{at, key_at, match_at};
use crate::row_read::{row_at, rows_at};
use crate::server::ServerMsg;
use crate::wire_no::WireNo;
use game_sheet::{List, MatchName, NoMemory, Seat, Text};
use json_tree::{FieldFault, extra_field, list_of, natural_of};
use serde_json::Value;
use std::alloc::Global;

/// The answer of this type that the object is, or its first fault.
pub fn answer_of(alloc: Global, value: &Value, kind: &str) -> Result<ServerMsg, WireNo>
    ensures { Gives result (answer_as kind.now (view value.now)) }
{
    match kind {
        "asked" => asked(value),
        "created" => created(value),
        "games" => games(alloc, value),
        "joined" => joined(value),
        "left" => left(value),
        "match" => match_row(alloc, value),
        "matches" => matches(alloc, value),
        "renamed" => renamed(value),
        _ => Err(WireNo::UnknownMessage),
    }
}

#[tactic(auto, unfolding(crate::specs::ServerReading::games_in))]
fn games(alloc: Global, value: &Value) -> Result<ServerMsg, WireNo>
    ensures { Gives result (games_in (view value.now)) }
{
    if extra_field(value, &["games", "type"]) {
        return Err(WireNo::ExtraField);
    }
    match names_at(alloc, value, "games") {
        Ok(names) => Ok(ServerMsg::Games(names)),
        Err(no) => Err(no),
    }
}

// The names of the array that the member holds, or the member's fault.
fn names_at(alloc: Global, value: &Value, name: &'static str) -> Result<List<Text>, WireNo>
    ensures { Gives result (at_field name.now (names_in (get name.now (view value.now)))) }
{
    let items = match list_of(value, name) {
        Ok(items) => items,
        Err(fault) => return Err(WireNo::Field { name, fault }),
    };
    match names_of(alloc, items) {
        Ok(Some(names)) => Ok(names),
        Ok(None) => Err(WireNo::Field {
            name,
            fault: FieldFault::OutOfRange,
        }),
        Err(_) => Err(WireNo::NoMemory),
    }
}

fn names_of(alloc: Global, items: &[Value]) -> Result<Option<List<Text>>, NoMemory>
    ensures { IfOk result (λ names. names ≡ names_from (items_view items.now)) }
{
    let mut names = List::new(alloc);
    for item in items {
        let Some(name) = name_of(alloc, item)? else {
            return Ok(None);
        };
        names.push(name)?;
    }
    Ok(Some(names))
}

// The text of 1 to 32 bytes that the value is.
fn name_of(alloc: Global, value: &Value) -> Result<Option<Text>, NoMemory>
    ensures { IfOk result (λ name. name ≡ word_in (Some (view value.now))) }
{
    match value.as_str() {
        Some(text) if 1 <= text.len() && text.len() <= 32 => {
            Ok(Some(Text::from_str(alloc, text)?))
        }
        _ => Ok(None),
    }
}

#[tactic(auto, unfolding(crate::specs::ServerReading::matches_in))]
fn matches(alloc: Global, value: &Value) -> Result<ServerMsg, WireNo>
    ensures { Gives result (matches_in (view value.now)) }
{
    if extra_field(value, &["matches", "type"]) {
        return Err(WireNo::ExtraField);
    }
    match rows_at(alloc, value, "matches") {
        Ok(rows) => Ok(ServerMsg::Matches(rows)),
        Err(no) => Err(no),
    }
}

#[tactic(auto, unfolding(crate::specs::ServerReading::match_row_in))]
fn match_row(alloc: Global, value: &Value) -> Result<ServerMsg, WireNo>
    ensures { Gives result (match_row_in (view value.now)) }
{
    if extra_field(value, &["row", "type"]) {
        return Err(WireNo::ExtraField);
    }
    match row_at(alloc, value, "row") {
        Ok(row) => Ok(ServerMsg::Match(row)),
        Err(no) => Err(no),
    }
}

#[tactic(auto, unfolding(crate::specs::ServerReading::created_in))]
fn created(value: &Value) -> Result<ServerMsg, WireNo>
    ensures { Gives result (created_in (view value.now)) }
{
    if extra_field(value, &["match", "type"]) {
        return Err(WireNo::ExtraField);
    }
    match match_at(value, "match") {
        Ok(name) => Ok(ServerMsg::Created { name }),
        Err(no) => Err(no),
    }
}

#[tactic(auto, unfolding(crate::specs::ServerReading::joined_in))]
fn joined(value: &Value) -> Result<ServerMsg, WireNo>
    ensures { Gives result (joined_in (view value.now)) }
{
    if extra_field(value, &["key", "match", "seat", "type"]) {
        return Err(WireNo::ExtraField);
    }
    let key = match key_at(value, "key") {
        Ok(key) => key,
        Err(no) => return Err(no),
    };
    let name = match match_at(value, "match") {
        Ok(name) => name,
        Err(no) => return Err(no),
    };
    let seat = at("seat", natural_of(value, "seat", 255))?;
    Ok(ServerMsg::Joined {
        key,
        name,
        seat: seat as u8,
    })
}

fn renamed(value: &Value) -> Result<ServerMsg, WireNo>
    ensures { Gives result (placed Message.Renamed (view value.now)) }
{
    match place_of(value) {
        Ok((name, seat)) => Ok(ServerMsg::Renamed { name, seat }),
        Err(no) => Err(no),
    }
}

fn left(value: &Value) -> Result<ServerMsg, WireNo>
    ensures { Gives result (placed Message.Left (view value.now)) }
{
    match place_of(value) {
        Ok((name, seat)) => Ok(ServerMsg::Left { name, seat }),
        Err(no) => Err(no),
    }
}

fn asked(value: &Value) -> Result<ServerMsg, WireNo>
    ensures { Gives result (placed Message.Asked (view value.now)) }
{
    match place_of(value) {
        Ok((name, seat)) => Ok(ServerMsg::Asked { name, seat }),
        Err(no) => Err(no),
    }
}

// The match and the seat that an answer names.
#[tactic(auto, unfolding(crate::specs::ServerReading::place_in))]
fn place_of(value: &Value) -> Result<(MatchName, Seat), WireNo>
    ensures { Gives result (place_in (view value.now)) }
{
    if extra_field(value, &["match", "seat", "type"]) {
        return Err(WireNo::ExtraField);
    }
    let name = match match_at(value, "match") {
        Ok(name) => name,
        Err(no) => return Err(no),
    };
    let seat = at("seat", natural_of(value, "seat", 255))?;
    Ok((name, seat as u8))
}
