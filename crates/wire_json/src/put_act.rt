//! Appends the text of an act as a client asks for it.

ghost use Rattle.std.specs.Prelude.{◌≡◌, ◌++◌, true, OnOk, IsUtf8};
ghost use Rattle.serde_json.specs.Data.{object};
ghost use Rattle.serde_json.specs.Written.{compact_text, members_text};
ghost use Rattle.sheet_json.specs.Arguments.{AreArguments};
ghost use Rattle.wire_json.specs.Asking.{aim, from_kind, from_to, asked_members, AskedFits, IsAskable, AimIsUtf8, AskedIsUtf8};
ghost use Rattle.wire_json.specs.declared.asked.Asked.TheVariants as asked;

use crate::asked::{Asked, AskedTo};
use crate::put_member::put_text;
use game_sheet::{Args, EventKind, NoMemory};
use json_text::{put_natural, put_null};
use sheet_json::put_args;
use std::alloc::Global;

/// Appends the object of an act.
#[tactic(auto, unfolding(json::specs::Print::escape_byte))]
pub fn put_asked(alloc: Global, out: &mut Vec<u8>, act: &Asked) -> Result<(), NoMemory>
    requires { IsAskable act.now }
    ensures text { OnOk result (out.new.items ≡ out.old.items ++ compact_text (object (asked_members act.now))) }
    ensures fits { OnOk result (AskedFits act.now) }
    ensures utf8 { OnOk result (AskedIsUtf8 act.now) }
{
    match act {
        Asked::Move { name, args } => put_move(alloc, out, name.as_str(), args),
        Asked::Event { kind, to } => put_event(alloc, out, *kind, to),
        Asked::Undo => Ok(out.extend_from_slice(b"{\"kind\":\"undo\"}")?),
        Asked::Redo => Ok(out.extend_from_slice(b"{\"kind\":\"redo\"}")?),
    }
}

#[tactic(auto, unfolding(json::specs::Print::escape_byte))]
fn put_move(alloc: Global, out: &mut Vec<u8>, name: &str, args: &Args) -> Result<(), NoMemory>
    ensures text { OnOk result (out.new.items ≡ out.old.items ++ compact_text (object (asked_members (asked.Move name.now args.now)))) }
    ensures fits { OnOk result (AreArguments args.now) }
    ensures utf8 { OnOk result (IsUtf8 name.now) }
{
    out.extend_from_slice(b"{\"args\":")?;
    put_args(alloc, out, args)?;
    put_from_kind(alloc, out, name)
}

#[tactic(auto, unfolding(json::specs::Print::escape_byte))]
fn put_from_kind(alloc: Global, out: &mut Vec<u8>, name: &str) -> Result<(), NoMemory>
    ensures text { OnOk result (out.new.items ≡ out.old.items ++ members_text true (from_kind name.now)) }
    ensures utf8 { OnOk result (IsUtf8 name.now) }
{
    out.extend_from_slice(b",\"kind\":\"move\",\"move\":")?;
    put_text(alloc, out, name)?;
    Ok(out.push(b'}')?)
}

#[tactic(auto, unfolding(json::specs::Print::escape_byte))]
fn put_event(
    alloc: Global,
    out: &mut Vec<u8>,
    kind: EventKind,
    to: &AskedTo,
) -> Result<(), NoMemory>
    ensures text { OnOk result (out.new.items ≡ out.old.items ++ compact_text (object (asked_members (asked.Event kind to.now)))) }
    ensures utf8 { OnOk result (AimIsUtf8 to.now) }
{
    out.extend_from_slice(b"{\"event\":")?;
    put_text(alloc, out, kind.name())?;
    put_from_to(alloc, out, to)
}

#[tactic(auto, unfolding(json::specs::Print::escape_byte))]
fn put_from_to(alloc: Global, out: &mut Vec<u8>, to: &AskedTo) -> Result<(), NoMemory>
    ensures text { OnOk result (out.new.items ≡ out.old.items ++ members_text true (from_to to.now)) }
    ensures utf8 { OnOk result (AimIsUtf8 to.now) }
{
    out.extend_from_slice(b",\"kind\":\"event\",\"to\":")?;
    put_aim(alloc, out, to)?;
    Ok(out.push(b'}')?)
}

fn put_aim(alloc: Global, out: &mut Vec<u8>, to: &AskedTo) -> Result<(), NoMemory>
    ensures text { OnOk result (out.new.items ≡ out.old.items ++ compact_text (aim to.now)) }
    ensures utf8 { OnOk result (AimIsUtf8 to.now) }
{
    match to {
        AskedTo::Nothing => Ok(put_null(out)?),
        AskedTo::Seat(seat) => Ok(put_natural(out, u64::from(*seat))?),
        AskedTo::Name(name) => put_text(alloc, out, name.as_str()),
    }
}
