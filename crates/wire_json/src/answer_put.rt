//! Writes the answers to a session's requests into bytes.

ghost use Rattle.std.specs.Prelude.{◌≡◌, ◌++◌, true, codes, OnOk, IsUtf8};
ghost use Rattle.serde_json.specs.Data.{array, object, string};
ghost use Rattle.serde_json.specs.Written.{compact_text, members_text};
ghost use Rattle.json_tree.specs.Lines.{newline};
ghost use Rattle.json_tree.specs.Writable.{IsWritable, ItemsAreWritable};
ghost use Rattle.sheet_json.specs.Seats.{natural_or_null};
ghost use Rattle.wire_json.specs.KeyText.{IsKey};
ghost use Rattle.wire_json.specs.MatchText.{IsName};
ghost use Rattle.wire_json.specs.RefusalText.{refusal_text};
ghost use Rattle.wire_json.specs.RowText.{row_data, rows_data};
ghost use Rattle.wire_json.specs.ClientText.{from_seat as from_place, place_members};
ghost use Rattle.wire_json.specs.ServerText.{field_or_null, from_refusal, names_data, server_members, text as server_text};
ghost use Rattle.wire_json.specs.declared.server.ServerMsg.TheVariants as Message;

use crate::match_row::MatchRow;
use crate::put_member::{put_key, put_match, put_number, put_text};
use crate::refusal::{Member, Refusal};
use crate::row_put::{put_row, put_rows};
use game_sheet::{Bye, Key, MatchName, NoMemory, Seat, Text};
use json_text::{put_comma, put_null};
use std::alloc::Global;

/// Appends the line of the names of the games.
#[tactic(auto, unfolding(crate::specs::ServerText::text))]
pub fn put_games(alloc: Global, out: &mut Vec<u8>, names: &[Text]) -> Result<(), NoMemory>
    ensures text { OnOk result (out.new.items ≡ out.old.items ++ server_text (Message.Games names.now)) }
    ensures writable { OnOk result (ItemsAreWritable (names_data names.now)) }
{
    put_games_object(alloc, out, names)?;
    Ok(out.push(b'\n')?)
}

#[tactic(auto, unfolding(json::specs::Print::escape_byte))]
fn put_games_object(alloc: Global, out: &mut Vec<u8>, names: &[Text]) -> Result<(), NoMemory>
    ensures text { OnOk result (out.new.items ≡ out.old.items ++ compact_text (object (server_members (Message.Games names.now)))) }
    ensures writable { OnOk result (ItemsAreWritable (names_data names.now)) }
{
    out.extend_from_slice(b"{\"games\":")?;
    put_names(alloc, out, names)?;
    out.extend_from_slice(b",\"type\":\"games\"}")?;
    Ok(())
}

fn put_names(alloc: Global, out: &mut Vec<u8>, names: &[Text]) -> Result<(), NoMemory>
    ensures text { OnOk result (out.new.items ≡ out.old.items ++ compact_text (array (names_data names.now))) }
    ensures writable { OnOk result (ItemsAreWritable (names_data names.now)) }
{
    out.push(b'[')?;
    let mut later = false;
    for name in names {
        put_comma(out, later)?;
        put_text(alloc, out, name.as_str())?;
        later = true;
    }
    out.push(b']')?;
    Ok(())
}

/// The line that ends a session's stream. It takes no memory.
#[tactic(auto, using(crate::proofs::PlainWords::left_text, crate::proofs::PlainWords::lagging_text))]
pub fn bye_line(why: Bye) -> &'static [u8]
    ensures { result.now ≡ server_text (Message.Bye why) }
{
    match why {
        Bye::Left => b"{\"type\":\"bye\",\"why\":\"left\"}\n",
        Bye::Lagging => b"{\"type\":\"bye\",\"why\":\"lagging\"}\n",
    }
}

/// Appends the line of the matches of a game.
#[tactic(auto, unfolding(crate::specs::ServerText::text))]
pub fn put_matches(alloc: Global, out: &mut Vec<u8>, rows: &[MatchRow]) -> Result<(), NoMemory>
    ensures text { OnOk result (out.new.items ≡ out.old.items ++ server_text (Message.Matches rows.now)) }
    ensures writable { OnOk result (ItemsAreWritable (rows_data rows.now)) }
{
    put_matches_object(alloc, out, rows)?;
    Ok(out.push(b'\n')?)
}

#[tactic(auto, unfolding(json::specs::Print::escape_byte))]
fn put_matches_object(alloc: Global, out: &mut Vec<u8>, rows: &[MatchRow]) -> Result<(), NoMemory>
    ensures text { OnOk result (out.new.items ≡ out.old.items ++ compact_text (object (server_members (Message.Matches rows.now)))) }
    ensures writable { OnOk result (ItemsAreWritable (rows_data rows.now)) }
{
    out.extend_from_slice(b"{\"matches\":")?;
    put_rows(alloc, out, rows)?;
    out.extend_from_slice(b",\"type\":\"matches\"}")?;
    Ok(())
}

/// Appends the line of the match that was looked at.
#[tactic(auto, unfolding(crate::specs::ServerText::text))]
pub fn put_match_row(alloc: Global, out: &mut Vec<u8>, row: &MatchRow) -> Result<(), NoMemory>
    ensures text { OnOk result (out.new.items ≡ out.old.items ++ server_text (Message.Match row.now)) }
    ensures writable { OnOk result (IsWritable (row_data row.now)) }
{
    put_match_object(alloc, out, row)?;
    Ok(out.push(b'\n')?)
}

fn put_match_object(alloc: Global, out: &mut Vec<u8>, row: &MatchRow) -> Result<(), NoMemory>
    ensures text { OnOk result (out.new.items ≡ out.old.items ++ compact_text (object (server_members (Message.Match row.now)))) }
    ensures writable { OnOk result (IsWritable (row_data row.now)) }
{
    out.extend_from_slice(b"{\"row\":")?;
    put_row(alloc, out, row)?;
    out.extend_from_slice(b",\"type\":\"match\"}")?;
    Ok(())
}

/// Appends the line that tells that a match was made.
#[tactic(auto, unfolding(crate::specs::ServerText::text))]
pub fn put_created(alloc: Global, out: &mut Vec<u8>, name: &MatchName) -> Result<(), NoMemory>
    ensures text { OnOk result (out.new.items ≡ out.old.items ++ server_text (Message.Created name.now)) }
    ensures named { OnOk result (IsName name.now) }
{
    put_created_object(alloc, out, name)?;
    Ok(out.push(b'\n')?)
}

#[tactic(auto, unfolding(json::specs::Print::escape_byte))]
fn put_created_object(alloc: Global, out: &mut Vec<u8>, name: &MatchName) -> Result<(), NoMemory>
    ensures text { OnOk result (out.new.items ≡ out.old.items ++ compact_text (object (server_members (Message.Created name.now)))) }
    ensures named { OnOk result (IsName name.now) }
{
    out.extend_from_slice(b"{\"match\":")?;
    put_match(alloc, out, name)?;
    out.extend_from_slice(b",\"type\":\"created\"}")?;
    Ok(())
}

/// Appends the line that gives a player the key of its seat.
#[tactic(auto, unfolding(crate::specs::ServerText::text))]
pub fn put_joined(
    alloc: Global,
    out: &mut Vec<u8>,
    key: &Key,
    name: &MatchName,
    seat: Seat,
) -> Result<(), NoMemory>
    ensures text { OnOk result (out.new.items ≡ out.old.items ++ server_text (Message.Joined key.now name.now seat)) }
    ensures sixteen_bytes { OnOk result (IsKey key.now) }
    ensures named { OnOk result (IsName name.now) }
{
    put_joined_object(alloc, out, key, name, seat)?;
    Ok(out.push(b'\n')?)
}

#[tactic(auto, unfolding(json::specs::Print::escape_byte))]
fn put_joined_object(
    alloc: Global,
    out: &mut Vec<u8>,
    key: &Key,
    name: &MatchName,
    seat: Seat,
) -> Result<(), NoMemory>
    ensures text { OnOk result (out.new.items ≡ out.old.items ++ compact_text (object (server_members (Message.Joined key.now name.now seat)))) }
    ensures sixteen_bytes { OnOk result (IsKey key.now) }
    ensures named { OnOk result (IsName name.now) }
{
    out.extend_from_slice(b"{\"key\":")?;
    put_key(alloc, out, key)?;
    put_from_match(alloc, out, name, seat)
}

#[tactic(auto, using(crate::proofs::PlainWords::match_put))]
fn put_from_match(
    alloc: Global,
    out: &mut Vec<u8>,
    name: &MatchName,
    seat: Seat,
) -> Result<(), NoMemory>
    ensures text { OnOk result (out.new.items ≡ out.old.items ++ members_text true (place_members name.now seat (codes "joined"))) }
    ensures named { OnOk result (IsName name.now) }
{
    out.extend_from_slice(b",\"match\":")?;
    put_match(alloc, out, name)?;
    put_from_place(alloc, out, seat, "joined")
}

/// Appends the line of an answer of this type, which names a seat of a match.
pub fn put_place(
    alloc: Global,
    out: &mut Vec<u8>,
    name: &MatchName,
    seat: Seat,
    kind: &str,
) -> Result<(), NoMemory>
    ensures text { OnOk result (out.new.items ≡ out.old.items ++ (compact_text (object (place_members name.now seat kind.now)) ++ newline)) }
    ensures named { OnOk result (IsName name.now) }
    ensures utf8 { OnOk result (IsUtf8 kind.now) }
{
    put_place_object(alloc, out, name, seat, kind)?;
    Ok(out.push(b'\n')?)
}

#[tactic(auto, unfolding(json::specs::Print::escape_byte))]
fn put_place_object(
    alloc: Global,
    out: &mut Vec<u8>,
    name: &MatchName,
    seat: Seat,
    kind: &str,
) -> Result<(), NoMemory>
    ensures text { OnOk result (out.new.items ≡ out.old.items ++ compact_text (object (place_members name.now seat kind.now))) }
    ensures named { OnOk result (IsName name.now) }
    ensures utf8 { OnOk result (IsUtf8 kind.now) }
{
    out.extend_from_slice(b"{\"match\":")?;
    put_match(alloc, out, name)?;
    put_from_place(alloc, out, seat, kind)
}

#[tactic(auto, unfolding(json::specs::Print::escape_byte))]
fn put_from_place(alloc: Global, out: &mut Vec<u8>, seat: Seat, kind: &str) -> Result<(), NoMemory>
    ensures text { OnOk result (out.new.items ≡ out.old.items ++ members_text true (from_place seat kind.now)) }
    ensures utf8 { OnOk result (IsUtf8 kind.now) }
{
    out.extend_from_slice(b",\"seat\":")?;
    put_number(out, u32::from(seat))?;
    out.extend_from_slice(b",\"type\":")?;
    put_text(alloc, out, kind)?;
    out.push(b'}')?;
    Ok(())
}

/// Appends the line that a request may be made again.
#[tactic(auto, unfolding(crate::specs::ServerText::text))]
pub fn put_again(out: &mut Vec<u8>, ticket: Option<u32>) -> Result<(), NoMemory>
    ensures { OnOk result (out.new.items ≡ out.old.items ++ server_text (Message.Again ticket)) }
{
    put_again_object(out, ticket)?;
    Ok(out.push(b'\n')?)
}

#[tactic(auto, unfolding(json::specs::Print::escape_byte))]
fn put_again_object(out: &mut Vec<u8>, ticket: Option<u32>) -> Result<(), NoMemory>
    ensures { OnOk result (out.new.items ≡ out.old.items ++ compact_text (object (server_members (Message.Again ticket)))) }
{
    out.extend_from_slice(b"{\"ticket\":")?;
    put_ticket(out, ticket)?;
    out.extend_from_slice(b",\"type\":\"again\"}")?;
    Ok(())
}

fn put_ticket(out: &mut Vec<u8>, ticket: Option<u32>) -> Result<(), NoMemory>
    ensures { OnOk result (out.new.items ≡ out.old.items ++ compact_text (natural_or_null ticket)) }
{
    match ticket {
        Some(ticket) => put_number(out, ticket),
        None => Ok(put_null(out)?),
    }
}

/// Appends the line that a request is refused, and why.
#[tactic(auto, unfolding(crate::specs::ServerText::text))]
pub fn put_refused(alloc: Global, out: &mut Vec<u8>, refusal: Refusal) -> Result<(), NoMemory>
    ensures { OnOk result (out.new.items ≡ out.old.items ++ server_text (Message.Refused refusal)) }
{
    put_refused_object(alloc, out, refusal)?;
    Ok(out.push(b'\n')?)
}

#[tactic(auto, unfolding(json::specs::Print::escape_byte))]
fn put_refused_object(alloc: Global, out: &mut Vec<u8>, refusal: Refusal) -> Result<(), NoMemory>
    ensures { OnOk result (out.new.items ≡ out.old.items ++ compact_text (object (server_members (Message.Refused refusal)))) }
{
    out.extend_from_slice(b"{\"field\":")?;
    put_field(alloc, out, refusal.field())?;
    put_from_refusal(alloc, out, refusal)
}

fn put_from_refusal(alloc: Global, out: &mut Vec<u8>, refusal: Refusal) -> Result<(), NoMemory>
    ensures { OnOk result (out.new.items ≡ out.old.items ++ members_text true (from_refusal refusal)) }
{
    out.extend_from_slice(b",\"reason\":")?;
    put_word(alloc, out, refusal)?;
    out.extend_from_slice(b",\"type\":\"refused\"}")?;
    Ok(())
}

fn put_word(alloc: Global, out: &mut Vec<u8>, refusal: Refusal) -> Result<(), NoMemory>
    ensures { OnOk result (out.new.items ≡ out.old.items ++ compact_text (string (refusal_text refusal))) }
{
    put_text(alloc, out, refusal.name())
}

fn put_field(alloc: Global, out: &mut Vec<u8>, field: Option<Member>) -> Result<(), NoMemory>
    ensures { OnOk result (out.new.items ≡ out.old.items ++ compact_text (field_or_null field)) }
{
    match field {
        Some(member) => put_text(alloc, out, member.name()),
        None => Ok(put_null(out)?),
    }
}
