//! Rows that ask for a state that game code makes: the first one, and the one after a move.

ghost use Rattle.std.specs.Prelude.{◌≡◌, ◌≤◌, [], IfOk};

use crate::asking::Place;
use crate::fault::{RowFault, RowNo};
use crate::put::{put_made, put_text};
use crate::reading::{arguments_of, move_of, number_of, seat_of, tape_of};
use game_sheet::{Event, EventQueue, NoMemory, Sheet};
use game_trait::{Game, Halt, HookHalt};
use serde_json::Value;
use std::alloc::Global;

/// Appends the first state of a match, or why there is none.
pub(crate) fn put_setup<X: Game>(
    alloc: Global,
    out: &mut Vec<u8>,
    game: &X,
    row: &Value,
) -> Result<(), RowNo> {
    let seats = seats_of(game.sheet(), row)?;
    let mut tape = tape_of(row)?;
    let made = game.setup(alloc, seats, &mut tape);
    drop(tape);
    match made {
        Ok(g) => {
            let put = put_made(alloc, out, game, &g, &[]);
            drop(g);
            Ok(put?)
        }
        Err(halt) => Ok(put_hook_halt(out, halt)?),
    }
}

/// The count of seats of a row, which the sheet allows.
fn seats_of(sheet: &Sheet, row: &Value) -> Result<u8, RowFault>
    ensures least { IfOk result (λ seats. sheet.now.min_seats ≤ seats) }
    ensures most { IfOk result (λ seats. seats ≤ sheet.now.max_seats) }
{
    let Ok(seats) = number_of(row, "seats", 0, 255) else {
        return Err(RowFault::BadSeats);
    };
    if seats < u64::from(sheet.min_seats) || u64::from(sheet.max_seats) < seats {
        return Err(RowFault::BadSeats);
    }
    Ok(seats as u8)
}

/// Appends the state after a move with the events that it queues, or why there is none.
pub(crate) fn put_play<X: Game>(
    alloc: Global,
    out: &mut Vec<u8>,
    game: &X,
    at: &Place<X::G>,
    row: &Value,
) -> Result<(), RowNo> {
    let id = move_of(game.sheet(), row)?;
    let (seat, args) = (seat_of(row)?, arguments_of(row)?);
    let mut tape = tape_of(row)?;
    let mut events = EventQueue::new();
    let made = game.play(
        alloc,
        &at.g,
        &at.ctx,
        seat,
        id,
        &args,
        &mut tape,
        &mut events,
    );
    drop(tape);
    match made {
        Ok(g) => {
            let put = put_made(alloc, out, game, &g, events.list());
            drop(g);
            Ok(put?)
        }
        Err(halt) => Ok(put_halt(out, halt)?),
    }
}

/// Appends the state after a hook with the events that it queues, or why there is none.
pub(crate) fn put_hooked<X: Game>(
    alloc: Global,
    out: &mut Vec<u8>,
    game: &X,
    g: &X::G,
    after: Result<Option<X::G>, HookHalt>,
    events: &[Event],
) -> Result<(), NoMemory> {
    match after {
        Ok(Some(after)) => {
            let put = put_made(alloc, out, game, &after, events);
            drop(after);
            put
        }
        Ok(None) => put_made(alloc, out, game, g, events),
        Err(halt) => put_hook_halt(out, halt),
    }
}

/// Appends why a move gave no state.
fn put_halt(out: &mut Vec<u8>, halt: Halt) -> Result<(), NoMemory> {
    match halt {
        Halt::Invalid => put_text(out, "\"invalid\""),
        Halt::Spent => put_text(out, "\"spent\""),
        Halt::Crowded => put_text(out, "\"crowded\""),
        Halt::NoMemory => Err(NoMemory),
    }
}

/// Appends why a hook gave no state.
fn put_hook_halt(out: &mut Vec<u8>, halt: HookHalt) -> Result<(), NoMemory> {
    match halt {
        HookHalt::Spent => put_text(out, "\"spent\""),
        HookHalt::Crowded => put_text(out, "\"crowded\""),
        HookHalt::NoMemory => Err(NoMemory),
    }
}
