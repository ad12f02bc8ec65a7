//! Writes the messages from clients straight into bytes, one function for each row.

ghost use Rattle.std.specs.Prelude.{◌≡◌, ◌≤◌, ◌∷◌, ◌++◌, codes, true, Some, None, IfOk, OnOk, IsUtf8, length};
ghost use Rattle.hex.specs.Hex.{encode_lower};
ghost use Rattle.json.specs.Print.{quoted};
ghost use Rattle.serde_json.specs.Data.{object, string};
ghost use Rattle.serde_json.specs.Written.{compact_text, members_text};
ghost use Rattle.wire_json.specs.ClientText.{client_text, client_members, of_type, from_seat, from_seats, from_player, place_members, player_members, from_viewer, after_match, from_number, from_key, ClientFits, ClientIsUtf8, IsSendable, IsForm};
ghost use Rattle.wire_json.specs.KeyText.{IsKey};
ghost use Rattle.wire_json.specs.MatchText.{IsName};
ghost use Rattle.wire_json.specs.declared.client.ClientMsg.TheVariants as message;

use crate::client::ClientMsg;
use crate::protocol::Protocol;
use crate::put_act::put_asked;
use crate::put_member::{put_key, put_match, put_number, put_text};
use crate::submission::Submission;
use game_sheet::{Key, MatchName, NoMemory, Number, Seat, Text, Viewer};
use json_text::{put_comma, put_natural};
use sheet_json::put_seat;
use std::alloc::Global;

/// The line of a message, with its newline.
#[tactic(auto, unfolding(crate::specs::ClientText::client_text), using(crate::proofs::ClientWriting::is_form, crate::proofs::ClientWriting::is_line_form))]
pub fn write_client(alloc: Global, message: &ClientMsg) -> Result<Vec<u8>, NoMemory>
    requires { IsSendable message.now }
    ensures text { IfOk result (λ line. line.items ≡ client_text message.now) }
    ensures form { OnOk result (length (compact_text (object (client_members message.now))) ≤ 65536
        → IsForm (compact_text (object (client_members message.now))) message.now) }
    ensures line_form { IfOk result (λ line. length line.items ≤ 65536
        → IsForm line.items message.now) }
{
    let mut line = Vec::new(alloc);
    put_message(alloc, &mut line, message)?;
    line.push(b'\n')?;
    Ok(line)
}

/// Appends the object of a message.
pub fn put_message(alloc: Global, out: &mut Vec<u8>, message: &ClientMsg) -> Result<(), NoMemory>
    requires { IsSendable message.now }
    ensures text { OnOk result (out.new.items ≡ out.old.items ++ compact_text (object (client_members message.now))) }
    ensures fits { OnOk result (ClientFits message.now) }
    ensures utf8 { OnOk result (ClientIsUtf8 message.now) }
{
    match message {
        ClientMsg::Sync {
            name,
            viewer,
            protocol,
        } => put_sync(alloc, out, name, viewer, *protocol),
        ClientMsg::Act(submission) => put_act(alloc, out, submission),
        ClientMsg::Takeover { name, seat } => put_takeover(alloc, out, name, *seat),
        ClientMsg::Games => put_games(out),
        ClientMsg::Matches { game } => put_matches(alloc, out, game),
        ClientMsg::Look { name } => put_look(alloc, out, name),
        ClientMsg::Create { game, seats } => put_create(alloc, out, game, *seats),
        ClientMsg::Join { name, player, seat } => put_join(alloc, out, name, player, *seat),
        ClientMsg::Rename {
            key,
            name,
            player,
            seat,
        } => put_rename(alloc, out, key, name, player, *seat),
        ClientMsg::Leave { key, name, seat } => put_leave(alloc, out, key, name, *seat),
    }
}

#[tactic(auto, unfolding(json::specs::Print::escape_byte))]
fn put_games(out: &mut Vec<u8>) -> Result<(), NoMemory>
    ensures { OnOk result (out.new.items ≡ out.old.items ++ compact_text (object (client_members message.Games))) }
{
    Ok(out.extend_from_slice(b"{\"type\":\"games\"}")?)
}

#[tactic(auto, unfolding(json::specs::Print::escape_byte))]
fn put_matches(alloc: Global, out: &mut Vec<u8>, game: &Text) -> Result<(), NoMemory>
    ensures text { OnOk result (out.new.items ≡ out.old.items ++ compact_text (object (client_members (message.Matches game.now)))) }
    ensures utf8 { OnOk result (ClientIsUtf8 (message.Matches game.now)) }
{
    out.extend_from_slice(b"{\"game\":")?;
    put_text(alloc, out, game.as_str())?;
    put_type(alloc, out, "matches")
}

#[tactic(auto, unfolding(json::specs::Print::escape_byte))]
fn put_look(alloc: Global, out: &mut Vec<u8>, name: &MatchName) -> Result<(), NoMemory>
    ensures text { OnOk result (out.new.items ≡ out.old.items ++ compact_text (object (client_members (message.Look name.now)))) }
    ensures fits { OnOk result (ClientFits (message.Look name.now)) }
{
    out.extend_from_slice(b"{\"match\":")?;
    put_match(alloc, out, name)?;
    put_type(alloc, out, "look")
}

fn put_create(alloc: Global, out: &mut Vec<u8>, game: &Text, seats: u8) -> Result<(), NoMemory>
    ensures text { OnOk result (out.new.items ≡ out.old.items ++ compact_text (object (client_members (message.Create game.now seats)))) }
    ensures utf8 { OnOk result (ClientIsUtf8 (message.Create game.now seats)) }
{
    put_game(alloc, out, game)?;
    put_from_seats(alloc, out, seats, "create")
}

// The beginning of an object whose first member is the name of a game.
#[tactic(auto, unfolding(json::specs::Print::escape_byte))]
fn put_game(alloc: Global, out: &mut Vec<u8>, game: &Text) -> Result<(), NoMemory>
    ensures text { OnOk result (out.new.items ≡ out.old.items ++ 123 ∷ (quoted (codes "game") ++ 58 ∷ compact_text (string game.now))) }
    ensures utf8 { OnOk result (IsUtf8 game.now) }
{
    out.extend_from_slice(b"{\"game\":")?;
    put_text(alloc, out, game.as_str())
}

#[tactic(auto, unfolding(json::specs::Print::escape_byte))]
fn put_from_seats(alloc: Global, out: &mut Vec<u8>, seats: u8, kind: &str) -> Result<(), NoMemory>
    ensures { OnOk result (out.new.items ≡ out.old.items ++ members_text true (from_seats seats kind.now)) }
{
    out.extend_from_slice(b",\"seats\":")?;
    put_natural(out, u64::from(seats))?;
    put_type(alloc, out, kind)
}

fn put_join(
    alloc: Global,
    out: &mut Vec<u8>,
    name: &MatchName,
    player: &Text,
    seat: Seat,
) -> Result<(), NoMemory>
    ensures text { OnOk result (out.new.items ≡ out.old.items ++ compact_text (object (client_members (message.Join name.now player.now seat)))) }
    ensures named { OnOk result (IsName name.now) }
    ensures utf8 { OnOk result (ClientIsUtf8 (message.Join name.now player.now seat)) }
{
    out.push(b'{')?;
    put_player_members(alloc, out, false, name, player, seat, "join")
}

fn put_rename(
    alloc: Global,
    out: &mut Vec<u8>,
    key: &Key,
    name: &MatchName,
    player: &Text,
    seat: Seat,
) -> Result<(), NoMemory>
    ensures text { OnOk result (out.new.items ≡ out.old.items ++ compact_text (object (client_members (message.Rename key.now name.now player.now seat)))) }
    ensures keyed { OnOk result (IsKey key.now) }
    ensures named { OnOk result (IsName name.now) }
    ensures utf8 { OnOk result (ClientIsUtf8 (message.Rename key.now name.now player.now seat)) }
{
    put_owner(alloc, out, key)?;
    put_player_members(alloc, out, true, name, player, seat, "rename")
}

fn put_leave(
    alloc: Global,
    out: &mut Vec<u8>,
    key: &Key,
    name: &MatchName,
    seat: Seat,
) -> Result<(), NoMemory>
    ensures text { OnOk result (out.new.items ≡ out.old.items ++ compact_text (object (client_members (message.Leave key.now name.now seat)))) }
    ensures fits { OnOk result (ClientFits (message.Leave key.now name.now seat)) }
{
    put_owner(alloc, out, key)?;
    put_place_members(alloc, out, true, name, seat, "leave")
}

fn put_takeover(
    alloc: Global,
    out: &mut Vec<u8>,
    name: &MatchName,
    seat: Seat,
) -> Result<(), NoMemory>
    ensures text { OnOk result (out.new.items ≡ out.old.items ++ compact_text (object (client_members (message.Takeover name.now seat)))) }
    ensures fits { OnOk result (ClientFits (message.Takeover name.now seat)) }
{
    out.push(b'{')?;
    put_place_members(alloc, out, false, name, seat, "takeover")
}

// The beginning of an object whose first member is a key.
#[tactic(auto, unfolding(json::specs::Print::escape_byte))]
fn put_owner(alloc: Global, out: &mut Vec<u8>, key: &Key) -> Result<(), NoMemory>
    ensures text { OnOk result (out.new.items ≡ out.old.items ++ 123 ∷ (quoted (codes "key") ++ 58 ∷ compact_text (string (encode_lower key.now)))) }
    ensures keyed { OnOk result (IsKey key.now) }
{
    out.extend_from_slice(b"{\"key\":")?;
    put_key(alloc, out, key)
}

#[tactic(auto, unfolding(json::specs::Print::escape_byte))]
fn put_place_members(
    alloc: Global,
    out: &mut Vec<u8>,
    later: bool,
    name: &MatchName,
    seat: Seat,
    kind: &str,
) -> Result<(), NoMemory>
    ensures text { OnOk result (out.new.items ≡ out.old.items ++ members_text later (place_members name.now seat kind.now)) }
    ensures named { OnOk result (IsName name.now) }
{
    put_comma(out, later)?;
    out.extend_from_slice(b"\"match\":")?;
    put_match(alloc, out, name)?;
    put_from_seat(alloc, out, seat, kind)
}

#[tactic(auto, unfolding(json::specs::Print::escape_byte))]
fn put_player_members(
    alloc: Global,
    out: &mut Vec<u8>,
    later: bool,
    name: &MatchName,
    player: &Text,
    seat: Seat,
    kind: &str,
) -> Result<(), NoMemory>
    ensures text { OnOk result (out.new.items ≡ out.old.items ++ members_text later (player_members name.now player.now seat kind.now)) }
    ensures named { OnOk result (IsName name.now) }
    ensures utf8 { OnOk result (IsUtf8 player.now) }
{
    put_comma(out, later)?;
    out.extend_from_slice(b"\"match\":")?;
    put_match(alloc, out, name)?;
    put_from_player(alloc, out, player, seat, kind)
}

#[tactic(auto, unfolding(json::specs::Print::escape_byte))]
fn put_from_player(
    alloc: Global,
    out: &mut Vec<u8>,
    player: &Text,
    seat: Seat,
    kind: &str,
) -> Result<(), NoMemory>
    ensures text { OnOk result (out.new.items ≡ out.old.items ++ members_text true (from_player player.now seat kind.now)) }
    ensures utf8 { OnOk result (IsUtf8 player.now) }
{
    out.extend_from_slice(b",\"name\":")?;
    put_text(alloc, out, player.as_str())?;
    put_from_seat(alloc, out, seat, kind)
}

#[tactic(auto, unfolding(json::specs::Print::escape_byte))]
fn put_from_seat(alloc: Global, out: &mut Vec<u8>, seat: Seat, kind: &str) -> Result<(), NoMemory>
    ensures { OnOk result (out.new.items ≡ out.old.items ++ members_text true (from_seat seat kind.now)) }
{
    out.extend_from_slice(b",\"seat\":")?;
    put_natural(out, u64::from(seat))?;
    put_type(alloc, out, kind)
}

fn put_sync(
    alloc: Global,
    out: &mut Vec<u8>,
    name: &MatchName,
    viewer: &Viewer,
    protocol: Protocol,
) -> Result<(), NoMemory>
    ensures text { OnOk result (out.new.items ≡ out.old.items ++ compact_text (object (client_members (message.Sync name.now viewer.now protocol)))) }
    ensures fits { OnOk result (ClientFits (message.Sync name.now viewer.now protocol)) }
{
    match viewer {
        None => put_spectator(alloc, out, name, protocol),
        Some((seat, key)) => put_player(alloc, out, key, name, *seat, protocol),
    }
}

#[tactic(auto, unfolding(json::specs::Print::escape_byte))]
fn put_spectator(
    alloc: Global,
    out: &mut Vec<u8>,
    name: &MatchName,
    protocol: Protocol,
) -> Result<(), NoMemory>
    ensures text { OnOk result (out.new.items ≡ out.old.items ++ compact_text (object (client_members (message.Sync name.now None protocol)))) }
    ensures fits { OnOk result (ClientFits (message.Sync name.now None protocol)) }
{
    out.extend_from_slice(b"{\"key\":null,\"match\":")?;
    put_match(alloc, out, name)?;
    put_after_match(alloc, out, protocol, None)
}

#[tactic(auto, unfolding(json::specs::Print::escape_byte))]
fn put_player(
    alloc: Global,
    out: &mut Vec<u8>,
    key: &Key,
    name: &MatchName,
    seat: Seat,
    protocol: Protocol,
) -> Result<(), NoMemory>
    ensures text { OnOk result (out.new.items ≡ out.old.items ++ compact_text (object (client_members (message.Sync name.now (Some (seat, key.now)) protocol)))) }
    ensures fits { OnOk result (ClientFits (message.Sync name.now (Some (seat, key.now)) protocol)) }
{
    out.extend_from_slice(b"{\"key\":")?;
    put_key(alloc, out, key)?;
    out.extend_from_slice(b",\"match\":")?;
    put_match(alloc, out, name)?;
    put_after_match(alloc, out, protocol, Some(seat))
}

#[tactic(auto, unfolding(json::specs::Print::escape_byte))]
fn put_after_match(
    alloc: Global,
    out: &mut Vec<u8>,
    protocol: Protocol,
    seat: Option<Seat>,
) -> Result<(), NoMemory>
    ensures { OnOk result (out.new.items ≡ out.old.items ++ members_text true (after_match protocol seat)) }
{
    match protocol {
        Protocol::One => put_from_viewer(alloc, out, seat),
        Protocol::Two => {
            out.extend_from_slice(b",\"protocol\":")?;
            put_number(out, 2)?;
            put_from_viewer(alloc, out, seat)
        }
    }
}

#[tactic(auto, unfolding(json::specs::Print::escape_byte))]
fn put_from_viewer(alloc: Global, out: &mut Vec<u8>, seat: Option<Seat>) -> Result<(), NoMemory>
    ensures { OnOk result (out.new.items ≡ out.old.items ++ members_text true (from_viewer seat)) }
{
    out.extend_from_slice(b",\"seat\":")?;
    put_seat(out, seat)?;
    put_type(alloc, out, "sync")
}

#[tactic(auto, unfolding(json::specs::Print::escape_byte))]
fn put_act(alloc: Global, out: &mut Vec<u8>, submission: &Submission) -> Result<(), NoMemory>
    requires { IsSendable (message.Act submission.now) }
    ensures text { OnOk result (out.new.items ≡ out.old.items ++ compact_text (object (client_members (message.Act submission.now)))) }
    ensures fits { OnOk result (ClientFits (message.Act submission.now)) }
    ensures utf8 { OnOk result (ClientIsUtf8 (message.Act submission.now)) }
{
    let number = submission.number;
    let ticket = submission.ticket;
    out.extend_from_slice(b"{\"act\":")?;
    put_asked(alloc, out, &submission.asked)?;
    put_from_key(
        alloc,
        out,
        &submission.key,
        &submission.name,
        number,
        ticket,
    )
}

#[tactic(auto, unfolding(json::specs::Print::escape_byte))]
fn put_from_key(
    alloc: Global,
    out: &mut Vec<u8>,
    key: &Key,
    name: &MatchName,
    number: Number,
    ticket: u32,
) -> Result<(), NoMemory>
    ensures text { OnOk result (out.new.items ≡ out.old.items ++ members_text true (from_key key.now name.now number ticket)) }
    ensures keyed { OnOk result (IsKey key.now) }
    ensures named { OnOk result (IsName name.now) }
{
    out.extend_from_slice(b",\"key\":")?;
    put_key(alloc, out, key)?;
    out.extend_from_slice(b",\"match\":")?;
    put_match(alloc, out, name)?;
    put_from_number(alloc, out, number, ticket)
}

#[tactic(auto, unfolding(json::specs::Print::escape_byte))]
fn put_from_number(
    alloc: Global,
    out: &mut Vec<u8>,
    number: Number,
    ticket: u32,
) -> Result<(), NoMemory>
    ensures { OnOk result (out.new.items ≡ out.old.items ++ members_text true (from_number number ticket)) }
{
    out.extend_from_slice(b",\"number\":")?;
    put_number(out, number)?;
    out.extend_from_slice(b",\"ticket\":")?;
    put_number(out, ticket)?;
    put_type(alloc, out, "act")
}

#[tactic(auto, unfolding(json::specs::Print::escape_byte))]
fn put_type(alloc: Global, out: &mut Vec<u8>, kind: &str) -> Result<(), NoMemory>
    ensures { OnOk result (out.new.items ≡ out.old.items ++ members_text true (of_type kind.now)) }
{
    out.extend_from_slice(b",\"type\":")?;
    put_text(alloc, out, kind)?;
    Ok(out.push(b'}')?)
}
