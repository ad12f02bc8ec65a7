//! The lines of an attachment, made of the state of the match.

ghost use Rattle.std.specs.Prelude.{◌≡◌, ◌-◌, false, IfOk, Some};
ghost use Rattle.std.specs.Option.{ForSome};
ghost use Rattle.serde_json.specs.Data.{Data};
ghost use Rattle.serde_json.specs.View.{view};
ghost use Rattle.serde_json.specs.Written.{compact_text, has_float};
ghost use Rattle.move_log.specs.Redact.{redact};
ghost use Rattle.player_sight.specs.EntryData.{entry_data};
ghost use Rattle.player_sight.specs.CtxData.{ctx_data};
ghost use Rattle.player_sight.specs.SnapshotData.{snapshot_data};
ghost use Rattle.player_sight.specs.Change.{put_part, gone_part};
ghost use Rattle.wire_json.specs.declared.server.ServerMsg.TheVariants.{Change, No, Ok as Accepts, Sync, Update};
ghost use Rattle.wire_json.specs.ServerText.{text};
ghost use Rattle.match_master.specs.Does.{seen_at};
ghost use Rattle.match_master.specs.UpdateText.{action_line, value_seen};

use crate::action::{Action, SharedTexts};
use game_sheet::{Ctx, MatchName, NoMemory, Number, Seat, Sheet};
use game_trait::Game;
use move_log::{Entry, KeptEntry};
use player_sight::{changed, ctx_value, put_ctx, put_entry, put_snapshot};
use reducer::State;
use serde_json::Value;
use std::alloc::Global;
use wire_json::{Protocol, Reason, put_change, put_no, put_ok, put_sync, put_update};

/// What most parts of a line take, in bytes. Longer ones grow.
const PART: usize = 512;

/// What a line takes besides the texts of its parts, in bytes, at most.
const FRAME: usize = 96;

/// The line that begins a session: the whole state as its viewer sees it, and the log.
pub fn sync<X: Game>(
    alloc: Global,
    game: &X,
    name: MatchName,
    seat: Option<Seat>,
    protocol: Protocol,
    state: &State<X::G>,
    log: &[KeptEntry],
) -> Result<Vec<u8>, NoMemory>
    ensures { IfOk result (λ l. l.items ≡ text (Sync name seat protocol (snapshot_data (X.rules game.now).sheet (seen_at (X.rules game.now) state.now log.now seat)))) }
{
    let snapshot = snapshot_text(alloc, game, seat, state, log)?;
    sync_line(alloc, &name, seat, protocol, snapshot.as_slice())
}

/// The text of the whole state as a viewer sees it, with the log.
fn snapshot_text<X: Game>(
    alloc: Global,
    game: &X,
    seat: Option<Seat>,
    state: &State<X::G>,
    log: &[KeptEntry],
) -> Result<Vec<u8>, NoMemory>
    ensures { IfOk result (λ t. t.items ≡ compact_text (snapshot_data (X.rules game.now).sheet (seen_at (X.rules game.now) state.now log.now seat))) }
{
    let g = seen_text(alloc, game, state.g(), state.ctx(), seat)?;
    let mut text = Vec::with_capacity(alloc, PART)?;
    put_snapshot(
        alloc,
        &mut text,
        game.sheet(),
        state.number(),
        state.ctx(),
        g.as_slice(),
        log,
        seat,
    )?;
    Ok(text)
}

fn sync_line(
    alloc: Global,
    name: &MatchName,
    seat: Option<Seat>,
    protocol: Protocol,
    snapshot: &[u8],
) -> Result<Vec<u8>, NoMemory>
    ensures { (s : Data) → snapshot.now ≡ compact_text s → IfOk result (λ l. l.items ≡ text (Sync name.now seat protocol s)) }
{
    let mut line = Vec::with_capacity(alloc, FRAME.saturating_add(snapshot.len()))?;
    put_sync(alloc, &mut line, name, seat, protocol, snapshot)?;
    Ok(line)
}

/// The texts of an action that more than one viewer sees; that of what changed in the context only where it is wanted.
pub fn shared_texts(
    alloc: Global,
    sheet: &Sheet,
    before: &Ctx,
    ctx: &Ctx,
    entry: &Entry,
    changes: bool,
) -> Result<SharedTexts, NoMemory>
    ensures ctx { IfOk result (λ t. t.ctx.items ≡ compact_text (ctx_data sheet.now ctx.now)) }
    ensures entry { IfOk result (λ t. t.entry.items ≡ compact_text (entry_data sheet.now (redact sheet.now (Some entry.now.seat) entry.now))) }
    ensures changed { IfOk result (λ t. ForSome t.changed (λ c. c.items ≡ compact_text (put_part (ctx_data sheet.now before.now) (ctx_data sheet.now ctx.now)))) }
{
    let changed = if changes {
        Some(changed_ctx(alloc, sheet, before, ctx)?)
    } else {
        None
    };
    let ctx = ctx_text(alloc, sheet, ctx)?;
    let entry = entry_text(alloc, sheet, entry, Some(entry.seat))?;
    Ok(SharedTexts {
        ctx,
        entry,
        changed,
    })
}

/// The text of a context.
fn ctx_text(alloc: Global, sheet: &Sheet, ctx: &Ctx) -> Result<Vec<u8>, NoMemory>
    ensures { IfOk result (λ t. t.items ≡ compact_text (ctx_data sheet.now ctx.now)) }
{
    let mut text = Vec::with_capacity(alloc, PART)?;
    put_ctx(alloc, &mut text, sheet, ctx)?;
    Ok(text)
}

/// The line of an accepted action as a viewer sees it, whole or by what it changed.
pub fn update<X: Game>(
    alloc: Global,
    action: &Action<'_, X>,
    seat: Option<Seat>,
    protocol: Protocol,
) -> Result<Vec<u8>, NoMemory>
    ensures { IfOk result (λ l. l.items ≡ action_line (X.rules action.now.game.now) action.now.state.now action.now.prepared.now action.now.entry.now seat protocol) }
{
    let sheet = action.game.sheet();
    if !action.entry.seen(sheet, seat).hidden {
        return told(alloc, action, seat, protocol, action.texts.entry.as_slice());
    }
    let entry = entry_text(alloc, sheet, action.entry, seat)?;
    told(alloc, action, seat, protocol, entry.as_slice())
}

/// The line of an accepted action in a protocol.
fn told<X: Game>(
    alloc: Global,
    action: &Action<'_, X>,
    seat: Option<Seat>,
    protocol: Protocol,
    entry: &[u8],
) -> Result<Vec<u8>, NoMemory>
    ensures { entry.now ≡ compact_text (entry_data (X.rules action.now.game.now).sheet (redact (X.rules action.now.game.now).sheet seat action.now.entry.now))
        → IfOk result (λ l. l.items ≡ action_line (X.rules action.now.game.now) action.now.state.now action.now.prepared.now action.now.entry.now seat protocol) }
{
    match protocol {
        Protocol::One => whole(alloc, action, seat, entry),
        Protocol::Two => change(alloc, action, seat, entry),
    }
}

/// The line of an accepted action with all that it comes to.
fn whole<X: Game>(
    alloc: Global,
    action: &Action<'_, X>,
    seat: Option<Seat>,
    entry: &[u8],
) -> Result<Vec<u8>, NoMemory>
    ensures { (e : Data) → entry.now ≡ compact_text e → IfOk result (λ l. l.items ≡ text (Update (ctx_data (X.rules action.now.game.now).sheet action.now.prepared.now.table.ctx) e
        (value_seen (X.rules action.now.game.now) action.now.prepared.now.table seat) action.now.prepared.now.number)) }
{
    let g = seen_text(
        alloc,
        action.game,
        action.prepared.g(),
        action.prepared.ctx(),
        seat,
    )?;
    update_line(
        alloc,
        action.texts.ctx.as_slice(),
        entry,
        g.as_slice(),
        action.prepared.number(),
    )
}

fn update_line(
    alloc: Global,
    ctx: &[u8],
    entry: &[u8],
    g: &[u8],
    number: Number,
) -> Result<Vec<u8>, NoMemory>
    ensures { (c e s : Data) → ctx.now ≡ compact_text c → entry.now ≡ compact_text e → g.now ≡ compact_text s
        → IfOk result (λ l. l.items ≡ text (Update c e s number)) }
{
    let room = FRAME.saturating_add(ctx.len()).saturating_add(entry.len());
    let mut line = Vec::with_capacity(alloc, room.saturating_add(g.len()))?;
    put_update(&mut line, ctx, entry, g, number)?;
    Ok(line)
}

/// The line of what an accepted action changed for a viewer.
fn change<X: Game>(
    alloc: Global,
    action: &Action<'_, X>,
    seat: Option<Seat>,
    entry: &[u8],
) -> Result<Vec<u8>, NoMemory>
    ensures { (e : Data) → entry.now ≡ compact_text e → IfOk result (λ l. l.items ≡ text (Change
        (put_part (ctx_data (X.rules action.now.game.now).sheet action.now.state.now.table.ctx) (ctx_data (X.rules action.now.game.now).sheet action.now.prepared.now.table.ctx)) e
        (gone_part (value_seen (X.rules action.now.game.now) action.now.state.now.table seat) (value_seen (X.rules action.now.game.now) action.now.prepared.now.table seat))
        (put_part (value_seen (X.rules action.now.game.now) action.now.state.now.table seat) (value_seen (X.rules action.now.game.now) action.now.prepared.now.table seat))
        action.now.prepared.now.number)) }
{
    match &action.texts.changed {
        Some(ctx) => change_of(alloc, action, seat, ctx.as_slice(), entry),
        None => {
            let sheet = action.game.sheet();
            let ctx = changed_ctx(alloc, sheet, action.state.ctx(), action.prepared.ctx())?;
            change_of(alloc, action, seat, ctx.as_slice(), entry)
        }
    }
}

fn change_of<X: Game>(
    alloc: Global,
    action: &Action<'_, X>,
    seat: Option<Seat>,
    ctx: &[u8],
    entry: &[u8],
) -> Result<Vec<u8>, NoMemory>
    ensures { (c e : Data) → ctx.now ≡ compact_text c → entry.now ≡ compact_text e → IfOk result (λ l. l.items ≡ text (Change c e
        (gone_part (value_seen (X.rules action.now.game.now) action.now.state.now.table seat) (value_seen (X.rules action.now.game.now) action.now.prepared.now.table seat))
        (put_part (value_seen (X.rules action.now.game.now) action.now.state.now.table seat) (value_seen (X.rules action.now.game.now) action.now.prepared.now.table seat))
        action.now.prepared.now.number)) }
{
    let g = changed_state(alloc, action, seat)?;
    change_line(
        alloc,
        ctx,
        entry,
        g.gone.as_slice(),
        g.put.as_slice(),
        action.prepared.number(),
    )
}

fn change_line(
    alloc: Global,
    ctx: &[u8],
    entry: &[u8],
    gone: &[u8],
    put: &[u8],
    number: Number,
) -> Result<Vec<u8>, NoMemory>
    ensures { (c e n p : Data) → ctx.now ≡ compact_text c → entry.now ≡ compact_text e → gone.now ≡ compact_text n → put.now ≡ compact_text p
        → IfOk result (λ l. l.items ≡ text (Change c e n p number)) }
{
    let room = FRAME.saturating_add(ctx.len()).saturating_add(entry.len());
    let room = room.saturating_add(gone.len()).saturating_add(put.len());
    let mut line = Vec::with_capacity(alloc, room)?;
    put_change(&mut line, ctx, entry, gone, put, number)?;
    Ok(line)
}

/// The texts of what a value has that an older one had not or had otherwise, and of the names that it has no more.
#[derive(Drop)]
struct Changed {
    put: Vec<u8>,
    gone: Vec<u8>,
}

/// The text of what changed in the context.
fn changed_ctx(alloc: Global, sheet: &Sheet, before: &Ctx, after: &Ctx) -> Result<Vec<u8>, NoMemory>
    ensures { IfOk result (λ t. t.items ≡ compact_text (put_part (ctx_data sheet.now before.now) (ctx_data sheet.now after.now))) }
{
    let before = ctx_value(alloc, sheet, before)?;
    match ctx_value(alloc, sheet, after) {
        Ok(after) => {
            let Changed { put, gone } = changed_texts(alloc, before, after)?;
            drop(gone);
            Ok(put)
        }
        Err(no) => {
            drop(before);
            Err(no)
        }
    }
}

/// What an accepted action changed in what a viewer sees of the game's state.
fn changed_state<X: Game>(
    alloc: Global,
    action: &Action<'_, X>,
    seat: Option<Seat>,
) -> Result<Changed, NoMemory>
    ensures put { IfOk result (λ t. t.put.items ≡ compact_text (put_part (value_seen (X.rules action.now.game.now) action.now.state.now.table seat)
        (value_seen (X.rules action.now.game.now) action.now.prepared.now.table seat))) }
    ensures gone { IfOk result (λ t. t.gone.items ≡ compact_text (gone_part (value_seen (X.rules action.now.game.now) action.now.state.now.table seat)
        (value_seen (X.rules action.now.game.now) action.now.prepared.now.table seat))) }
{
    let game = action.game;
    let before = seen(alloc, game, action.state.g(), action.state.ctx(), seat)?;
    match seen(
        alloc,
        game,
        action.prepared.g(),
        action.prepared.ctx(),
        seat,
    ) {
        Ok(after) => changed_texts(alloc, before, after),
        Err(no) => {
            drop(before);
            Err(no)
        }
    }
}

fn changed_texts(alloc: Global, before: Value, after: Value) -> Result<Changed, NoMemory>
    requires before { has_float (view before) ≡ false }
    requires after { has_float (view after) ≡ false }
    ensures put { IfOk result (λ t. t.put.items ≡ compact_text (put_part (view before) (view after))) }
    ensures gone { IfOk result (λ t. t.gone.items ≡ compact_text (gone_part (view before) (view after))) }
{
    let parts = changed(alloc, &before, &after);
    drop(before);
    drop(after);
    let (put, gone) = parts?;
    let put = text_of(alloc, put);
    let gone = text_of(alloc, gone);
    Ok(Changed {
        put: put?,
        gone: gone?,
    })
}

/// The text of a value.
fn text_of(alloc: Global, value: Value) -> Result<Vec<u8>, NoMemory>
    requires { has_float (view value) ≡ false }
    ensures { IfOk result (λ t. t.items ≡ compact_text (view value)) }
{
    let text = value.to_vec(alloc);
    drop(value);
    Ok(text?)
}

/// The value of what a viewer sees of a state.
fn seen<X: Game>(
    alloc: Global,
    game: &X,
    g: &X::G,
    ctx: &Ctx,
    seat: Option<Seat>,
) -> Result<Value, NoMemory>
    ensures value { IfOk result (λ v. view v ≡ (X.rules game.now).value ((X.rules game.now).view g.now ctx.now seat)) }
    ensures no_float { IfOk result (λ v. has_float (view v) ≡ false) }
{
    let shown = game.view(alloc, g, ctx, seat)?;
    game.to_value(alloc, &shown)
}

/// The text of what a viewer sees of a state.
fn seen_text<X: Game>(
    alloc: Global,
    game: &X,
    g: &X::G,
    ctx: &Ctx,
    seat: Option<Seat>,
) -> Result<Vec<u8>, NoMemory>
    ensures { IfOk result (λ t. t.items ≡ compact_text ((X.rules game.now).value ((X.rules game.now).view g.now ctx.now seat))) }
{
    let shown = game.view(alloc, g, ctx, seat)?;
    let mut text = Vec::with_capacity(alloc, PART)?;
    game.write(alloc, &mut text, &shown)?;
    Ok(text)
}

/// The text of an entry of the log as a viewer sees it.
fn entry_text(
    alloc: Global,
    sheet: &Sheet,
    entry: &Entry,
    viewer: Option<Seat>,
) -> Result<Vec<u8>, NoMemory>
    ensures { IfOk result (λ t. t.items ≡ compact_text (entry_data sheet.now (redact sheet.now viewer entry.now))) }
{
    let mut text = Vec::with_capacity(alloc, PART)?;
    put_entry(alloc, &mut text, sheet, entry, viewer)?;
    Ok(text)
}

/// The line that tells a session that its action was accepted.
pub fn ok(alloc: Global, number: Number, ticket: u32) -> Result<Vec<u8>, NoMemory>
    ensures { IfOk result (λ l. l.items ≡ text (Accepts number ticket)) }
{
    let mut line = Vec::with_capacity(alloc, FRAME)?;
    put_ok(&mut line, number, ticket)?;
    Ok(line)
}

/// The line that tells a session that its action was refused, and why.
pub fn no(alloc: Global, number: Number, reason: Reason, ticket: u32) -> Result<Vec<u8>, NoMemory>
    ensures { IfOk result (λ l. l.items ≡ text (No number reason ticket)) }
{
    let mut line = Vec::with_capacity(alloc, FRAME)?;
    put_no(&mut line, number, reason, ticket)?;
    Ok(line)
}
