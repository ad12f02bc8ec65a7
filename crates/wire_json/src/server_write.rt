//! Writes any message to a client.

ghost use Rattle.std.specs.Prelude.{◌≡◌, ◌≤◌, ◌++◌, IfOk, OnOk};
ghost use Rattle.serde_json.specs.Data.{object, depth};
ghost use Rattle.serde_json.specs.Read.{max_depth};
ghost use Rattle.serde_json.specs.Written.{compact_text};
ghost use Rattle.json_back.specs.Told.{IsTold, AreTold};
ghost use Rattle.json_tree.specs.Lines.{newline};
ghost use Rattle.wire_json.specs.MatchText.{IsName};
ghost use Rattle.wire_json.specs.ServerReading.{IsServerForm, IsTellable, ServerFits};
ghost use Rattle.wire_json.specs.ClientText.{place_members};
ghost use Rattle.wire_json.specs.ServerText.{server_members, text as server_text};
ghost use Rattle.wire_json.specs.declared.server.ServerMsg.TheVariants as Message;

use crate::answer_put::{
    bye_line, put_again, put_created, put_games, put_joined, put_match_row, put_matches, put_place,
    put_refused,
};
use crate::match_row::MatchRow;
use crate::protocol::Protocol;
use crate::reason::Reason;
use crate::refusal::Refusal;
use crate::server::ServerMsg;
use crate::server_put::{put_change, put_no, put_ok, put_sync, put_update};
use game_sheet::{Bye, Key, List, MatchName, NoMemory, Number, Seat, Text};
use json_tree::Tree;
use std::alloc::Global;

/// The line of a message, with its newline.
#[tactic(auto, unfolding(crate::specs::ServerText::text), using(crate::proofs::ServerWriting::is_server_form, crate::proofs::ServerWriting::is_line_form))]
pub fn write_server(alloc: Global, message: &ServerMsg) -> Result<Vec<u8>, NoMemory>
    ensures text { IfOk result (λ line. line.items ≡ server_text message.now) }
    ensures form { OnOk result (IsTellable message.now → depth (object (server_members message.now)) ≤ max_depth
        → IsServerForm (compact_text (object (server_members message.now))) message.now) }
    ensures line_form { IfOk result (λ line. IsTellable message.now → depth (object (server_members message.now)) ≤ max_depth
        → IsServerForm line.items message.now) }
{
    let mut line = Vec::with_capacity(alloc, 128)?;
    put_message(alloc, &mut line, message)?;
    Ok(line)
}

fn put_message(alloc: Global, out: &mut Vec<u8>, message: &ServerMsg) -> Result<(), NoMemory>
    ensures text { OnOk result (out.new.items ≡ out.old.items ++ server_text message.now) }
    ensures told { OnOk result (AreTold (server_members message.now)) }
    ensures fits { OnOk result (IsTellable message.now → ServerFits message.now) }
{
    match message {
        ServerMsg::Games(names) => games(alloc, out, names),
        ServerMsg::Matches(rows) => matches(alloc, out, rows),
        ServerMsg::Match(row) => match_row(alloc, out, row),
        ServerMsg::Created { name } => created(alloc, out, name),
        ServerMsg::Joined { key, name, seat } => joined(alloc, out, key, name, *seat),
        ServerMsg::Renamed { name, seat } => renamed(alloc, out, name, *seat),
        ServerMsg::Left { name, seat } => left(alloc, out, name, *seat),
        ServerMsg::Asked { name, seat } => asked(alloc, out, name, *seat),
        ServerMsg::Sync {
            name,
            seat,
            protocol,
            snapshot,
        } => sync(alloc, out, name, *seat, *protocol, snapshot),
        ServerMsg::Update {
            ctx,
            entry,
            g,
            number,
        } => update(alloc, out, ctx, entry, g, *number),
        ServerMsg::Change {
            ctx,
            entry,
            gone,
            put,
            number,
        } => change(alloc, out, ctx, entry, gone, put, *number),
        ServerMsg::Ok { number, ticket } => ok(out, *number, *ticket),
        ServerMsg::No {
            number,
            reason,
            ticket,
        } => no(out, *number, *reason, *ticket),
        ServerMsg::Again { ticket } => again(out, *ticket),
        ServerMsg::Refused(refusal) => refused(alloc, out, *refusal),
        ServerMsg::Bye(why) => bye(out, *why),
    }
}

#[tactic(auto, using(crate::proofs::ServerTelling::games_told))]
fn games(alloc: Global, out: &mut Vec<u8>, names: &List<Text>) -> Result<(), NoMemory>
    ensures text { OnOk result (out.new.items ≡ out.old.items ++ server_text (Message.Games names.now)) }
    ensures told { OnOk result (AreTold (server_members (Message.Games names.now))) }
{
    put_games(alloc, out, names.as_slice())
}

#[tactic(auto, using(crate::proofs::ServerTelling::matches_told))]
fn matches(alloc: Global, out: &mut Vec<u8>, rows: &List<MatchRow>) -> Result<(), NoMemory>
    ensures text { OnOk result (out.new.items ≡ out.old.items ++ server_text (Message.Matches rows.now)) }
    ensures told { OnOk result (AreTold (server_members (Message.Matches rows.now))) }
{
    put_matches(alloc, out, rows.as_slice())
}

#[tactic(auto, using(crate::proofs::ServerTelling::match_told))]
fn match_row(alloc: Global, out: &mut Vec<u8>, row: &MatchRow) -> Result<(), NoMemory>
    ensures text { OnOk result (out.new.items ≡ out.old.items ++ server_text (Message.Match row.now)) }
    ensures told { OnOk result (AreTold (server_members (Message.Match row.now))) }
{
    put_match_row(alloc, out, row)
}

#[tactic(auto, using(crate::proofs::ServerTelling::created_told))]
fn created(alloc: Global, out: &mut Vec<u8>, name: &MatchName) -> Result<(), NoMemory>
    ensures text { OnOk result (out.new.items ≡ out.old.items ++ server_text (Message.Created name.now)) }
    ensures told { OnOk result (AreTold (server_members (Message.Created name.now))) }
    ensures fits { OnOk result (ServerFits (Message.Created name.now)) }
{
    put_created(alloc, out, name)
}

fn joined(
    alloc: Global,
    out: &mut Vec<u8>,
    key: &Key,
    name: &MatchName,
    seat: Seat,
) -> Result<(), NoMemory>
    ensures text { OnOk result (out.new.items ≡ out.old.items ++ server_text (Message.Joined key.now name.now seat)) }
    ensures told { OnOk result (AreTold (server_members (Message.Joined key.now name.now seat))) }
    ensures fits { OnOk result (ServerFits (Message.Joined key.now name.now seat)) }
{
    put_joined(alloc, out, key, name, seat)
}

#[tactic(auto, unfolding(crate::specs::ServerText::text))]
fn renamed(alloc: Global, out: &mut Vec<u8>, name: &MatchName, seat: Seat) -> Result<(), NoMemory>
    ensures text { OnOk result (out.new.items ≡ out.old.items ++ server_text (Message.Renamed name.now seat)) }
    ensures told { OnOk result (AreTold (server_members (Message.Renamed name.now seat))) }
    ensures fits { OnOk result (ServerFits (Message.Renamed name.now seat)) }
{
    place(alloc, out, name, seat, "renamed")
}

#[tactic(auto, unfolding(crate::specs::ServerText::text))]
fn left(alloc: Global, out: &mut Vec<u8>, name: &MatchName, seat: Seat) -> Result<(), NoMemory>
    ensures text { OnOk result (out.new.items ≡ out.old.items ++ server_text (Message.Left name.now seat)) }
    ensures told { OnOk result (AreTold (server_members (Message.Left name.now seat))) }
    ensures fits { OnOk result (ServerFits (Message.Left name.now seat)) }
{
    place(alloc, out, name, seat, "left")
}

#[tactic(auto, unfolding(crate::specs::ServerText::text))]
fn asked(alloc: Global, out: &mut Vec<u8>, name: &MatchName, seat: Seat) -> Result<(), NoMemory>
    ensures text { OnOk result (out.new.items ≡ out.old.items ++ server_text (Message.Asked name.now seat)) }
    ensures told { OnOk result (AreTold (server_members (Message.Asked name.now seat))) }
    ensures fits { OnOk result (ServerFits (Message.Asked name.now seat)) }
{
    place(alloc, out, name, seat, "asked")
}

fn place(
    alloc: Global,
    out: &mut Vec<u8>,
    name: &MatchName,
    seat: Seat,
    kind: &str,
) -> Result<(), NoMemory>
    ensures text { OnOk result (out.new.items ≡ out.old.items ++ (compact_text (object (place_members name.now seat kind.now)) ++ newline)) }
    ensures told { OnOk result (AreTold (place_members name.now seat kind.now)) }
    ensures named { OnOk result (IsName name.now) }
    ensures seat { OnOk result (seat ≤ 255) }
{
    put_place(alloc, out, name, seat, kind)
}

#[tactic(auto, using(crate::proofs::ServerTelling::sync_told))]
fn sync(
    alloc: Global,
    out: &mut Vec<u8>,
    name: &MatchName,
    seat: Option<Seat>,
    protocol: Protocol,
    snapshot: &Tree,
) -> Result<(), NoMemory>
    ensures text { OnOk result (out.new.items ≡ out.old.items ++ server_text (Message.Sync name.now seat protocol snapshot.now)) }
    ensures told { OnOk result (AreTold (server_members (Message.Sync name.now seat protocol snapshot.now))) }
    ensures fits { OnOk result (ServerFits (Message.Sync name.now seat protocol snapshot.now)) }
{
    let snapshot = text_of_tree(alloc, snapshot)?;
    put_sync(alloc, out, name, seat, protocol, snapshot.as_slice())
}

fn update(
    alloc: Global,
    out: &mut Vec<u8>,
    ctx: &Tree,
    entry: &Tree,
    g: &Tree,
    number: Number,
) -> Result<(), NoMemory>
    ensures text { OnOk result (out.new.items ≡ out.old.items ++ server_text (Message.Update ctx.now entry.now g.now number)) }
    ensures told { OnOk result (AreTold (server_members (Message.Update ctx.now entry.now g.now number))) }
    ensures fits { OnOk result (ServerFits (Message.Update ctx.now entry.now g.now number)) }
{
    let ctx = text_of_tree(alloc, ctx)?;
    let entry = text_of_tree(alloc, entry)?;
    let g = text_of_tree(alloc, g)?;
    put_update(out, ctx.as_slice(), entry.as_slice(), g.as_slice(), number)
}

fn change(
    alloc: Global,
    out: &mut Vec<u8>,
    ctx: &Tree,
    entry: &Tree,
    gone: &Tree,
    put: &Tree,
    number: Number,
) -> Result<(), NoMemory>
    ensures text { OnOk result (out.new.items ≡ out.old.items ++ server_text (Message.Change ctx.now entry.now gone.now put.now number)) }
    ensures told { OnOk result (AreTold (server_members (Message.Change ctx.now entry.now gone.now put.now number))) }
    ensures number { OnOk result (number ≤ 4294967295) }
{
    let ctx = text_of_tree(alloc, ctx)?;
    let entry = text_of_tree(alloc, entry)?;
    let gone = text_of_tree(alloc, gone)?;
    let put = text_of_tree(alloc, put)?;
    put_change(
        out,
        ctx.as_slice(),
        entry.as_slice(),
        gone.as_slice(),
        put.as_slice(),
        number,
    )
}

/// The text of a part, which reads back inside any text.
fn text_of_tree(alloc: Global, tree: &Tree) -> Result<Vec<u8>, NoMemory>
    ensures text { IfOk result (λ text. text.items ≡ compact_text tree.now) }
    ensures told { OnOk result (depth tree.now ≤ max_depth → IsTold tree.now) }
{
    let text = tree.value().to_vec(alloc)?;
    Ok(text)
}

#[tactic(auto, using(crate::proofs::ServerTelling::ok_told))]
fn ok(out: &mut Vec<u8>, number: Number, ticket: u32) -> Result<(), NoMemory>
    ensures text { OnOk result (out.new.items ≡ out.old.items ++ server_text (Message.Ok number ticket)) }
    ensures told { OnOk result (AreTold (server_members (Message.Ok number ticket))) }
    ensures fits { OnOk result (ServerFits (Message.Ok number ticket)) }
{
    put_ok(out, number, ticket)
}

fn no(out: &mut Vec<u8>, number: Number, reason: Reason, ticket: u32) -> Result<(), NoMemory>
    ensures text { OnOk result (out.new.items ≡ out.old.items ++ server_text (Message.No number reason ticket)) }
    ensures told { OnOk result (AreTold (server_members (Message.No number reason ticket))) }
    ensures fits { OnOk result (ServerFits (Message.No number reason ticket)) }
{
    put_no(out, number, reason, ticket)
}

#[tactic(auto, using(crate::proofs::ServerTelling::again_told))]
fn again(out: &mut Vec<u8>, ticket: Option<u32>) -> Result<(), NoMemory>
    ensures text { OnOk result (out.new.items ≡ out.old.items ++ server_text (Message.Again ticket)) }
    ensures told { OnOk result (AreTold (server_members (Message.Again ticket))) }
    ensures fits { OnOk result (ServerFits (Message.Again ticket)) }
{
    put_again(out, ticket)
}

#[tactic(auto, using(crate::proofs::ServerTelling::refused_told))]
fn refused(alloc: Global, out: &mut Vec<u8>, refusal: Refusal) -> Result<(), NoMemory>
    ensures text { OnOk result (out.new.items ≡ out.old.items ++ server_text (Message.Refused refusal)) }
    ensures told { OnOk result (AreTold (server_members (Message.Refused refusal))) }
{
    put_refused(alloc, out, refusal)
}

fn bye(out: &mut Vec<u8>, why: Bye) -> Result<(), NoMemory>
    ensures text { OnOk result (out.new.items ≡ out.old.items ++ server_text (Message.Bye why)) }
    ensures told { OnOk result (AreTold (server_members (Message.Bye why))) }
{
    out.extend_from_slice(bye_line(why))?;
    Ok(())
}
