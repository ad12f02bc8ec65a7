//! The text of a match's context, appended to bytes.

ghost use Rattle.std.specs.Prelude.{◌≡◌, ◌++◌, OnOk, true, codes};
ghost use Rattle.serde_json.specs.Data.{object, member, no_members};
ghost use Rattle.serde_json.specs.Written.{compact_text, members_text};
ghost use Rattle.sheet_json.specs.Seats.{natural};
ghost use Rattle.player_sight.specs.CtxData.{over_data, ctx_data};
ghost use Rattle.player_sight.specs.Tails.{from_over, from_moves, from_phase, from_pos};

use crate::text_active::put_active;
use crate::text_parts::put_phase;
use game_sheet::{Ctx, NoMemory, Outcome, Seat, Sheet};
use json_text::{put_natural, put_naturals, put_null};
use std::alloc::Global;

/// Appends the text of a context's value. Where memory is wanting, some first part may have been appended.
#[tactic(auto, unfolding(json::specs::Print::escape_byte))]
pub fn put_ctx(alloc: Global, out: &mut Vec<u8>, sheet: &Sheet, ctx: &Ctx) -> Result<(), NoMemory>
    ensures { OnOk result (out.new.items ≡ out.old.items ++ compact_text (ctx_data sheet.now ctx.now)) }
{
    out.extend_from_slice(b"{\"activePlayers\":")?;
    put_active(alloc, out, sheet, ctx)?;
    out.extend_from_slice(b",\"currentPlayer\":")?;
    put_natural(out, ctx.current as u64)?;
    put_from_over(alloc, out, sheet, ctx)
}

#[tactic(auto, unfolding(json::specs::Print::escape_byte))]
fn put_from_over(alloc: Global, out: &mut Vec<u8>, sheet: &Sheet, ctx: &Ctx) -> Result<(), NoMemory>
    ensures { OnOk result (out.new.items ≡ out.old.items ++ members_text true (from_over sheet.now ctx.now)) }
{
    out.extend_from_slice(b",\"gameover\":")?;
    put_over(out, ctx.over)?;
    put_from_moves(alloc, out, sheet, ctx)
}

#[tactic(auto, unfolding(json::specs::Print::escape_byte))]
fn put_from_moves(
    alloc: Global,
    out: &mut Vec<u8>,
    sheet: &Sheet,
    ctx: &Ctx,
) -> Result<(), NoMemory>
    ensures { OnOk result (out.new.items ≡ out.old.items ++ members_text true (from_moves sheet.now ctx.now)) }
{
    out.extend_from_slice(b",\"numMoves\":")?;
    put_natural(out, ctx.moves as u64)?;
    out.extend_from_slice(b",\"numPlayers\":")?;
    put_natural(out, ctx.seats as u64)?;
    put_from_phase(alloc, out, sheet, ctx)
}

#[tactic(auto, unfolding(json::specs::Print::escape_byte))]
fn put_from_phase(
    alloc: Global,
    out: &mut Vec<u8>,
    sheet: &Sheet,
    ctx: &Ctx,
) -> Result<(), NoMemory>
    ensures { OnOk result (out.new.items ≡ out.old.items ++ members_text true (from_phase sheet.now ctx.now)) }
{
    out.extend_from_slice(b",\"phase\":")?;
    put_phase(alloc, out, sheet, ctx.phase)?;
    out.extend_from_slice(b",\"playOrder\":")?;
    put_naturals(out, ctx.order.as_slice())?;
    put_from_pos(out, ctx)
}

#[tactic(auto, unfolding(json::specs::Print::escape_byte))]
fn put_from_pos(out: &mut Vec<u8>, ctx: &Ctx) -> Result<(), NoMemory>
    ensures { OnOk result (out.new.items ≡ out.old.items ++ members_text true (from_pos ctx.now)) }
{
    out.extend_from_slice(b",\"playOrderPos\":")?;
    put_natural(out, ctx.pos as u64)?;
    out.extend_from_slice(b",\"turn\":")?;
    put_natural(out, ctx.turn as u64)?;
    out.extend_from_slice(b"}")?;
    Ok(())
}

#[tactic(auto, unfolding(json::specs::Print::escape_byte))]
fn put_over(out: &mut Vec<u8>, over: Option<Outcome>) -> Result<(), NoMemory>
    ensures { OnOk result (out.new.items ≡ out.old.items ++ compact_text (over_data over)) }
{
    match over {
        None => Ok(put_null(out)?),
        Some(Outcome::Winner(seat)) => put_winner(out, seat),
        Some(Outcome::Draw) => Ok(out.extend_from_slice(b"{\"draw\":true}")?),
        Some(Outcome::Ended) => Ok(out.extend_from_slice(b"{\"ended\":true}")?),
    }
}

#[tactic(auto, unfolding(json::specs::Print::escape_byte))]
fn put_winner(out: &mut Vec<u8>, seat: Seat) -> Result<(), NoMemory>
    ensures { OnOk result (out.new.items ≡ out.old.items ++ compact_text (object (member (codes "winner") (natural seat) no_members))) }
{
    out.extend_from_slice(b"{\"winner\":")?;
    put_natural(out, seat as u64)?;
    out.extend_from_slice(b"}")?;
    Ok(())
}
