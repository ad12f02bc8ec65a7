//! Reads the messages from clients, one function for each row; `lobby_read` has the rows of the lobby.

ghost use Rattle.std.specs.Prelude.{◌≡◌, codes, IfOk, IfErr, Ok};
ghost use Rattle.serde_json.specs.Find.{get};
ghost use Rattle.serde_json.specs.View.{view};
ghost use Rattle.wire_json.specs.ClientReading.{key_of_seat_in, claim_in, protocol_in, count_in, stamp_in, sync_in, client_act_in, takeover_in, client_in, client_read, viewer_of as viewer_from};
ghost use Rattle.wire_json.specs.ClientText.{IsForm};
ghost use Rattle.wire_json.specs.RefusalText.{IsAnswerable};
ghost use Rattle.wire_json.specs.Refusals.{Gives};
ghost use Rattle.wire_json.specs.declared.client.ClientMsg.{ClientMsg as Message};

use crate::acts::act_member_of;
use crate::client::ClientMsg;
use crate::guess::guessed;
use crate::lobby_read::{lobby_request_of, place_of};
use crate::members::{at, key_at, key_or_null_of, match_at, number_member_of};
use crate::protocol::Protocol;
use crate::submission::Submission;
use crate::wire_no::WireNo;
use game_sheet::{Key, MatchName, Number, Seat, Viewer};
use json_tree::{FieldFault, LineFault, extra_field, natural_of, read_line, text_of};
use serde_json::Value;
use sheet_json::seat_or_null_of;
use std::alloc::Global;

/// The greatest length of a client's line in bytes, its newline not counted.
pub const CLIENT_LINE: u64 = 65_536;

/// The message that a client's line is, or its first fault.
///
/// The line comes without its newline; one at its end counts among the bytes, and is a blank. Each fault but want of
/// memory is one that `Refusal::of_fault` gives a refusal for.
#[tactic(auto, using(crate::proofs::ClientLaws::read_is, crate::proofs::Answerable::is_answerable))]
pub fn read_client(alloc: Global, line: &[u8]) -> Result<ClientMsg, WireNo>
    ensures found { IfOk result (λ m. IsForm line.now m) }
    ensures only { (m : Message) → IsForm line.now m → Gives result (Ok m) }
    ensures exact { Gives result (client_read line.now) }
    ensures answerable { IfErr result IsAnswerable }
{
    read_any(alloc, line)
}

fn read_any(alloc: Global, line: &[u8]) -> Result<ClientMsg, WireNo>
    ensures { Gives result (client_read line.now) }
{
    match guessed(alloc, line) {
        Some(message) => Ok(message),
        None => read_tree(alloc, line),
    }
}

#[tactic(auto, unfolding(crate::specs::ClientReading::client_read))]
fn read_tree(alloc: Global, line: &[u8]) -> Result<ClientMsg, WireNo>
    ensures { Gives result (client_read line.now) }
{
    match read_line(alloc, line, CLIENT_LINE) {
        Ok(value) => message_of(alloc, &value),
        Err(LineFault::NoMemory) => Err(WireNo::NoMemory),
        Err(fault) => Err(WireNo::Line(fault)),
    }
}

#[tactic(auto, unfolding(crate::specs::ClientReading::client_in))]
fn message_of(alloc: Global, value: &Value) -> Result<ClientMsg, WireNo>
    ensures { Gives result (client_in (view value.now)) }
{
    let Ok(kind) = text_of(value, "type") else {
        return Err(WireNo::UnknownMessage);
    };
    match kind {
        "act" => act(alloc, value),
        "sync" => sync(value),
        "takeover" => takeover(value),
        _ => lobby_request_of(alloc, value, kind),
    }
}

#[tactic(auto, unfolding(crate::specs::ClientReading::client_act_in))]
fn act(alloc: Global, value: &Value) -> Result<ClientMsg, WireNo>
    ensures { Gives result (client_act_in (view value.now)) }
{
    if extra_field(value, &["act", "key", "match", "number", "ticket", "type"]) {
        return Err(WireNo::ExtraField);
    }
    let stamp = stamp_of(value);
    let asked = act_member_of(alloc, value, "act")?;
    match stamp {
        Ok((key, name, number, ticket)) => Ok(ClientMsg::Act(Submission {
            name,
            key,
            number,
            ticket,
            asked,
        })),
        Err(no) => {
            drop(asked);
            Err(no)
        }
    }
}

// The key, the match, the number and the ticket that the object holds, or the first fault of the four members.
fn stamp_of(value: &Value) -> Result<(Key, MatchName, Number, u32), WireNo>
    ensures { Gives result (stamp_in (view value.now)) }
{
    let key = match key_at(value, "key") {
        Ok(key) => key,
        Err(no) => return Err(no),
    };
    let name = match match_at(value, "match") {
        Ok(name) => name,
        Err(no) => return Err(no),
    };
    let (number, ticket) = count_of(value)?;
    Ok((key, name, number, ticket))
}

// The state number and the ticket that the object holds, or the first fault of the two members.
fn count_of(value: &Value) -> Result<(Number, u32), WireNo>
    ensures { Gives result (count_in (view value.now)) }
{
    let number = at("number", number_member_of(value, "number"))?;
    let ticket = at("ticket", number_member_of(value, "ticket"))?;
    Ok((number, ticket))
}

#[tactic(auto, unfolding(crate::specs::ClientReading::sync_in))]
fn sync(value: &Value) -> Result<ClientMsg, WireNo>
    ensures { Gives result (sync_in (view value.now)) }
{
    if extra_field(value, &["key", "match", "protocol", "seat", "type"]) {
        return Err(WireNo::ExtraField);
    }
    let seat = seat_or_null_of(value, "seat");
    let (key, name) = match claim_of(value, seat) {
        Ok(claim) => claim,
        Err(no) => return Err(no),
    };
    let protocol = at("protocol", protocol_of(value, "protocol"))?;
    let seat = at("seat", seat)?;
    Ok(ClientMsg::Sync {
        name,
        viewer: viewer_of(key, seat),
        protocol,
    })
}

#[tactic(auto, unfolding(crate::specs::ClientReading::takeover_in))]
fn takeover(value: &Value) -> Result<ClientMsg, WireNo>
    ensures { Gives result (takeover_in (view value.now)) }
{
    if extra_field(value, &["match", "seat", "type"]) {
        return Err(WireNo::ExtraField);
    }
    match place_of(value) {
        Ok((name, seat)) => Ok(ClientMsg::Takeover { name, seat }),
        Err(no) => Err(no),
    }
}

// The protocol that the member asks for, 1 or 2; the first where there is no such member.
fn protocol_of(value: &Value, name: &str) -> Result<Protocol, FieldFault>
    ensures { result ≡ protocol_in (get name.now (view value.now)) }
{
    if value.get(name).is_none() {
        return Ok(Protocol::One);
    }
    match natural_of(value, name, 2)? {
        1 => Ok(Protocol::One),
        2 => Ok(Protocol::Two),
        _ => Err(FieldFault::OutOfRange),
    }
}

// The key, which has to fit the seat, and the match, or the first fault of the two members.
fn claim_of(
    value: &Value,
    seat: Result<Option<Seat>, FieldFault>,
) -> Result<(Option<Key>, MatchName), WireNo>
    ensures { Gives result (claim_in seat (view value.now)) }
{
    let key = match key_of_seat(value, seat) {
        Ok(key) => key,
        Err(fault) => return Err(WireNo::Field { name: "key", fault }),
    };
    match match_at(value, "match") {
        Ok(name) => Ok((key, name)),
        Err(no) => Err(no),
    }
}

// The key or null, which has to fit the seat or null where that is in form.
fn key_of_seat(
    value: &Value,
    seat: Result<Option<Seat>, FieldFault>,
) -> Result<Option<Key>, FieldFault>
    ensures { result ≡ key_of_seat_in seat (get (codes "key") (view value.now)) }
{
    let key = key_or_null_of(value, "key")?;
    match seat {
        Ok(seat) if key.is_some() != seat.is_some() => Err(FieldFault::OutOfRange),
        _ => Ok(key),
    }
}

fn viewer_of(key: Option<Key>, seat: Option<Seat>) -> Viewer
    ensures { result ≡ viewer_from key seat }
{
    match (key, seat) {
        (Some(key), Some(seat)) => Some((seat, key)),
        _ => None,
    }
}
