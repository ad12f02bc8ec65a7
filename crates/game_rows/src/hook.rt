//! Rows that ask a hook.

ghost use Rattle.std.specs.Prelude.{◌≡◌, []};

use crate::asking::Place;
use crate::fault::{RowFault, RowNo};
use crate::function::Function;
use crate::making::put_hooked;
use crate::reading::{phase_of, seat_of, tape_of};
use game_sheet::EventQueue;
use game_trait::Game;
use serde_json::Value;
use std::alloc::Global;

/// Appends what a seat's move is followed by.
pub(crate) fn put_on_move<X: Game>(
    alloc: Global,
    out: &mut Vec<u8>,
    game: &X,
    at: &Place<X::G>,
    row: &Value,
) -> Result<(), RowNo> {
    let seat = seat_of(row)?;
    let mut tape = tape_of(row)?;
    let mut events = EventQueue::new();
    let after = game.on_move(alloc, &at.g, &at.ctx, seat, &mut tape, &mut events);
    drop(tape);
    Ok(put_hooked(alloc, out, game, &at.g, after, events.list())?)
}

/// Appends what the beginning or the end of a turn, or the end of the match, is followed by.
pub(crate) fn put_turn_hook<X: Game>(
    alloc: Global,
    out: &mut Vec<u8>,
    game: &X,
    function: Function,
    at: &Place<X::G>,
    row: &Value,
) -> Result<(), RowNo> {
    let mut tape = tape_of(row)?;
    let mut events = EventQueue::new();
    let after = match function {
        Function::TurnBegin => game.turn_begin(alloc, &at.g, &at.ctx, &mut tape, &mut events),
        Function::TurnEnd => game.turn_end(alloc, &at.g, &at.ctx, &mut tape, &mut events),
        _ => game.game_end(alloc, &at.g, &at.ctx, &mut tape, &mut events),
    };
    drop(tape);
    Ok(put_hooked(alloc, out, game, &at.g, after, events.list())?)
}

/// Appends what the beginning or the end of a phase is followed by.
pub(crate) fn put_phase_hook<X: Game>(
    alloc: Global,
    out: &mut Vec<u8>,
    game: &X,
    function: Function,
    at: &Place<X::G>,
    row: &Value,
) -> Result<(), RowNo> {
    let Some(phase) = phase_of(game.sheet(), row, "of")? else {
        return Err(RowNo::Fault(RowFault::NoPhase));
    };
    let mut tape = tape_of(row)?;
    let mut events = EventQueue::new();
    let after = match function {
        Function::PhaseBegin => {
            game.phase_begin(alloc, &at.g, &at.ctx, phase, &mut tape, &mut events)
        }
        _ => game.phase_end(alloc, &at.g, &at.ctx, phase, &mut tape, &mut events),
    };
    drop(tape);
    Ok(put_hooked(alloc, out, game, &at.g, after, events.list())?)
}
