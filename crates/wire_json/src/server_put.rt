//! Writes the lines of a session's stream into bytes, from the texts of their parts.
//!
//! After a want of memory some first part of a line may stand there, so who writes a line throws the bytes away.

ghost use Rattle.std.specs.Prelude.{◌≡◌, ◌≤◌, ◌++◌, true, OnOk};
ghost use Rattle.serde_json.specs.Data.{Data, object, string};
ghost use Rattle.serde_json.specs.Written.{compact_text, members_text};
ghost use Rattle.wire_json.specs.MatchText.{IsName};
ghost use Rattle.wire_json.specs.ReasonText.{reason_text};
ghost use Rattle.wire_json.specs.ClientText.{with_protocol};
ghost use Rattle.wire_json.specs.ServerText.{from_change, from_g, from_number, from_parts, from_reason, from_seat, from_snapshot, parts_data, server_members, text as server_text};
ghost use Rattle.wire_json.specs.declared.server.ServerMsg.TheVariants as Message;

use crate::protocol::Protocol;
use crate::put_member::{put_match, put_number};
use crate::reason::Reason;
use game_sheet::{MatchName, NoMemory, Number, Seat};
use sheet_json::put_seat;
use std::alloc::Global;

/// Appends the line that begins a session.
#[tactic(auto, unfolding(crate::specs::ServerText::text))]
pub fn put_sync(
    alloc: Global,
    out: &mut Vec<u8>,
    name: &MatchName,
    seat: Option<Seat>,
    protocol: Protocol,
    snapshot: &[u8],
) -> Result<(), NoMemory>
    ensures text { (s : Data) → snapshot.now ≡ compact_text s
        → OnOk result (out.new.items ≡ out.old.items ++ server_text (Message.Sync name.now seat protocol s)) }
    ensures named { OnOk result (IsName name.now) }
{
    put_sync_object(alloc, out, name, seat, protocol, snapshot)?;
    Ok(out.push(b'\n')?)
}

#[tactic(auto, unfolding(json::specs::Print::escape_byte))]
fn put_sync_object(
    alloc: Global,
    out: &mut Vec<u8>,
    name: &MatchName,
    seat: Option<Seat>,
    protocol: Protocol,
    snapshot: &[u8],
) -> Result<(), NoMemory>
    ensures text { (s : Data) → snapshot.now ≡ compact_text s
        → OnOk result (out.new.items ≡ out.old.items ++ compact_text (object (server_members (Message.Sync name.now seat protocol s)))) }
    ensures named { OnOk result (IsName name.now) }
{
    out.extend_from_slice(b"{\"match\":")?;
    put_match(alloc, out, name)?;
    put_from_protocol(out, seat, protocol, snapshot)
}

#[tactic(auto, unfolding(json::specs::Print::escape_byte))]
fn put_from_protocol(
    out: &mut Vec<u8>,
    seat: Option<Seat>,
    protocol: Protocol,
    snapshot: &[u8],
) -> Result<(), NoMemory>
    ensures { (s : Data) → snapshot.now ≡ compact_text s
        → OnOk result (out.new.items ≡ out.old.items ++ members_text true (with_protocol protocol (from_seat seat s))) }
{
    match protocol {
        Protocol::One => put_from_seat(out, seat, snapshot),
        Protocol::Two => {
            out.extend_from_slice(b",\"protocol\":")?;
            put_number(out, 2)?;
            put_from_seat(out, seat, snapshot)
        }
    }
}

#[tactic(auto, unfolding(json::specs::Print::escape_byte))]
fn put_from_seat(out: &mut Vec<u8>, seat: Option<Seat>, snapshot: &[u8]) -> Result<(), NoMemory>
    ensures { (s : Data) → snapshot.now ≡ compact_text s
        → OnOk result (out.new.items ≡ out.old.items ++ members_text true (from_seat seat s)) }
{
    out.extend_from_slice(b",\"seat\":")?;
    put_seat(out, seat)?;
    put_from_snapshot(out, snapshot)
}

#[tactic(auto, unfolding(json::specs::Print::escape_byte))]
fn put_from_snapshot(out: &mut Vec<u8>, snapshot: &[u8]) -> Result<(), NoMemory>
    ensures { (s : Data) → snapshot.now ≡ compact_text s → OnOk result (out.new.items ≡ out.old.items ++ members_text true (from_snapshot s)) }
{
    out.extend_from_slice(b",\"snapshot\":")?;
    out.extend_from_slice(snapshot)?;
    out.extend_from_slice(b",\"type\":\"sync\"}")?;
    Ok(())
}

/// Appends the line of an accepted action for a session of protocol 1.
#[tactic(auto, unfolding(crate::specs::ServerText::text))]
pub fn put_update(
    out: &mut Vec<u8>,
    ctx: &[u8],
    entry: &[u8],
    g: &[u8],
    number: Number,
) -> Result<(), NoMemory>
    ensures { (c e s : Data) → ctx.now ≡ compact_text c → entry.now ≡ compact_text e → g.now ≡ compact_text s
        → OnOk result (out.new.items ≡ out.old.items ++ server_text (Message.Update c e s number)) }
{
    put_update_object(out, ctx, entry, g, number)?;
    Ok(out.push(b'\n')?)
}

#[tactic(auto, unfolding(json::specs::Print::escape_byte))]
fn put_update_object(
    out: &mut Vec<u8>,
    ctx: &[u8],
    entry: &[u8],
    g: &[u8],
    number: Number,
) -> Result<(), NoMemory>
    ensures { (c e s : Data) → ctx.now ≡ compact_text c → entry.now ≡ compact_text e → g.now ≡ compact_text s
        → OnOk result (out.new.items ≡ out.old.items ++ compact_text (object (server_members (Message.Update c e s number)))) }
{
    out.extend_from_slice(b"{\"ctx\":")?;
    out.extend_from_slice(ctx)?;
    out.extend_from_slice(b",\"entry\":")?;
    out.extend_from_slice(entry)?;
    put_from_g(out, g, number)
}

#[tactic(auto, unfolding(json::specs::Print::escape_byte))]
fn put_from_g(out: &mut Vec<u8>, g: &[u8], number: Number) -> Result<(), NoMemory>
    ensures { (s : Data) → g.now ≡ compact_text s → OnOk result (out.new.items ≡ out.old.items ++ members_text true (from_g s number)) }
{
    out.extend_from_slice(b",\"g\":")?;
    out.extend_from_slice(g)?;
    out.extend_from_slice(b",\"number\":")?;
    put_number(out, number)?;
    out.extend_from_slice(b",\"type\":\"update\"}")?;
    Ok(())
}

/// Appends the line of an accepted action for a session of protocol 2.
///
/// `gone` is the list of the names that the state has no more, `put` the object of what it has new or changed; `number`, from 1, is
/// the state number after the action, and the one before it is written too.
#[tactic(auto, unfolding(crate::specs::ServerText::text))]
pub fn put_change(
    out: &mut Vec<u8>,
    ctx: &[u8],
    entry: &[u8],
    gone: &[u8],
    put: &[u8],
    number: Number,
) -> Result<(), NoMemory>
    ensures { (c e n p : Data) → ctx.now ≡ compact_text c → entry.now ≡ compact_text e → gone.now ≡ compact_text n → put.now ≡ compact_text p
        → OnOk result (out.new.items ≡ out.old.items ++ server_text (Message.Change c e n p number)) }
{
    put_change_object(out, ctx, entry, gone, put, number)?;
    Ok(out.push(b'\n')?)
}

#[tactic(auto, unfolding(json::specs::Print::escape_byte))]
fn put_change_object(
    out: &mut Vec<u8>,
    ctx: &[u8],
    entry: &[u8],
    gone: &[u8],
    put: &[u8],
    number: Number,
) -> Result<(), NoMemory>
    ensures { (c e n p : Data) → ctx.now ≡ compact_text c → entry.now ≡ compact_text e → gone.now ≡ compact_text n → put.now ≡ compact_text p
        → OnOk result (out.new.items ≡ out.old.items ++ compact_text (object (server_members (Message.Change c e n p number)))) }
{
    out.extend_from_slice(b"{\"ctx\":")?;
    out.extend_from_slice(ctx)?;
    out.extend_from_slice(b",\"entry\":")?;
    out.extend_from_slice(entry)?;
    put_from_parts(out, gone, put, number)
}

#[tactic(auto, using(crate::proofs::PlainWords::parts_put))]
fn put_from_parts(
    out: &mut Vec<u8>,
    gone: &[u8],
    put: &[u8],
    number: Number,
) -> Result<(), NoMemory>
    ensures { (n p : Data) → gone.now ≡ compact_text n → put.now ≡ compact_text p
        → OnOk result (out.new.items ≡ out.old.items ++ members_text true (from_parts n p number)) }
{
    out.extend_from_slice(b",\"g\":")?;
    put_parts(out, gone, put)?;
    put_from_number(out, number)
}

#[tactic(auto, unfolding(json::specs::Print::escape_byte))]
fn put_parts(out: &mut Vec<u8>, gone: &[u8], put: &[u8]) -> Result<(), NoMemory>
    ensures { (n p : Data) → gone.now ≡ compact_text n → put.now ≡ compact_text p
        → OnOk result (out.new.items ≡ out.old.items ++ compact_text (parts_data n p)) }
{
    out.extend_from_slice(b"{\"gone\":")?;
    out.extend_from_slice(gone)?;
    out.extend_from_slice(b",\"put\":")?;
    out.extend_from_slice(put)?;
    out.extend_from_slice(b"}")?;
    Ok(())
}

#[tactic(auto, using(crate::proofs::PlainWords::number_put))]
fn put_from_number(out: &mut Vec<u8>, number: Number) -> Result<(), NoMemory>
    ensures { OnOk result (out.new.items ≡ out.old.items ++ members_text true (from_number number)) }
{
    out.extend_from_slice(b",\"number\":")?;
    put_number(out, number)?;
    put_from_change(out, number.saturating_sub(1))
}

#[tactic(auto, using(crate::proofs::PlainWords::change_put))]
fn put_from_change(out: &mut Vec<u8>, was: Number) -> Result<(), NoMemory>
    ensures { OnOk result (out.new.items ≡ out.old.items ++ members_text true (from_change was)) }
{
    out.extend_from_slice(b",\"type\":\"change\",\"was\":")?;
    put_number(out, was)?;
    out.extend_from_slice(b"}")?;
    Ok(())
}

/// Appends the line that tells a session that its action was accepted.
#[tactic(auto, unfolding(crate::specs::ServerText::text))]
pub fn put_ok(out: &mut Vec<u8>, number: Number, ticket: u32) -> Result<(), NoMemory>
    ensures { OnOk result (out.new.items ≡ out.old.items ++ server_text (Message.Ok number ticket)) }
{
    put_ok_object(out, number, ticket)?;
    Ok(out.push(b'\n')?)
}

#[tactic(auto, unfolding(json::specs::Print::escape_byte))]
fn put_ok_object(out: &mut Vec<u8>, number: Number, ticket: u32) -> Result<(), NoMemory>
    ensures { OnOk result (out.new.items ≡ out.old.items ++ compact_text (object (server_members (Message.Ok number ticket)))) }
{
    out.extend_from_slice(b"{\"number\":")?;
    put_number(out, number)?;
    out.extend_from_slice(b",\"ticket\":")?;
    put_number(out, ticket)?;
    out.extend_from_slice(b",\"type\":\"ok\"}")?;
    Ok(())
}

/// Appends the line that tells a session that its action was refused, and why.
#[tactic(auto, unfolding(crate::specs::ServerText::text))]
pub fn put_no(
    out: &mut Vec<u8>,
    number: Number,
    reason: Reason,
    ticket: u32,
) -> Result<(), NoMemory>
    ensures { OnOk result (out.new.items ≡ out.old.items ++ server_text (Message.No number reason ticket)) }
{
    put_no_object(out, number, reason, ticket)?;
    Ok(out.push(b'\n')?)
}

#[tactic(auto, unfolding(json::specs::Print::escape_byte))]
fn put_no_object(
    out: &mut Vec<u8>,
    number: Number,
    reason: Reason,
    ticket: u32,
) -> Result<(), NoMemory>
    ensures { OnOk result (out.new.items ≡ out.old.items ++ compact_text (object (server_members (Message.No number reason ticket)))) }
{
    out.extend_from_slice(b"{\"number\":")?;
    put_number(out, number)?;
    put_from_reason(out, reason, ticket)
}

#[tactic(auto, unfolding(json::specs::Print::escape_byte))]
fn put_from_reason(out: &mut Vec<u8>, reason: Reason, ticket: u32) -> Result<(), NoMemory>
    ensures { OnOk result (out.new.items ≡ out.old.items ++ members_text true (from_reason reason ticket)) }
{
    out.extend_from_slice(b",\"reason\":")?;
    put_reason(out, reason)?;
    out.extend_from_slice(b",\"ticket\":")?;
    put_number(out, ticket)?;
    out.extend_from_slice(b",\"type\":\"no\"}")?;
    Ok(())
}

// No reason's word has a byte to escape.
#[tactic(auto, using(crate::proofs::PlainWords::reason_put))]
fn put_reason(out: &mut Vec<u8>, reason: Reason) -> Result<(), NoMemory>
    ensures { OnOk result (out.new.items ≡ out.old.items ++ compact_text (string (reason_text reason))) }
{
    out.push(b'"')?;
    out.extend_from_slice(reason.name().as_bytes())?;
    out.push(b'"')?;
    Ok(())
}
