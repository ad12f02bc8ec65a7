//! A snapshot as a drawing.

use crate::boards::{draw_game, number};
use game_sheet::NoMemory;
use json_text::put_natural;
use serde_json::Value;
use std::alloc::Global;

/// Adds what the text of a snapshot shows, as lines for a person: the board, and whose turn it is or how the match ended. It adds nothing for
/// a text that is no JSON.
pub fn draw(alloc: Global, snapshot: &str, out: &mut Vec<u8>) -> Result<(), NoMemory> {
    let Ok(snapshot) = Value::from_str(alloc, snapshot) else {
        return Ok(());
    };
    if let Some(g) = snapshot.get("g") {
        draw_game(out, g)?;
    }
    if let Some(ctx) = snapshot.get("ctx") {
        draw_turn(out, ctx)?;
    }
    Ok(())
}

/// Whose turn it is, or how the match ended.
fn draw_turn(out: &mut Vec<u8>, ctx: &Value) -> Result<(), NoMemory> {
    if let Some(over) = ctx.get("gameover")
        && !over.is_null()
    {
        match number(over, "winner") {
            Some(winner) => {
                out.extend_from_slice(b"  seat ")?;
                put_natural(out, winner)?;
                out.extend_from_slice(b" has won\n")?;
            }
            None => out.extend_from_slice(b"  a draw\n")?,
        }
        return Ok(());
    }
    if let Some(seat) = number(ctx, "currentPlayer") {
        out.extend_from_slice(b"  seat ")?;
        put_natural(out, seat)?;
        out.extend_from_slice(b" is to move\n")?;
    }
    Ok(())
}
