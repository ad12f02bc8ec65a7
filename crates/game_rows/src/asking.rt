//! What a game gives to a row.

ghost use Rattle.std.specs.Prelude.{◌≡◌, ◌++◌, ◌≤◌, OnOk, length};

use crate::context::{context_of, with_active};
use crate::fault::{RowFault, RowNo};
use crate::function::Function;
use crate::hook::{put_on_move, put_phase_hook, put_turn_hook};
use crate::making::{put_play, put_setup};
use crate::put::{put_offers, put_over, put_state};
use crate::reading::{function_of, seat_of, state_of, viewer_of};
use game_sheet::{Ctx, Seat};
use game_trait::Game;
use json_text::{put_boolean, put_naturals};
use serde_json::Value;
use std::alloc::Global;

/// Where a match stands: a state of the game and the context.
pub(crate) struct Place<G> {
    /// The state.
    pub(crate) g: G,
    /// The context.
    pub(crate) ctx: Ctx,
}

impl<G: Drop> Drop for Place<G> {
    fn drop(self) {
        let Place { g, ctx } = self;
        drop(g);
        drop(ctx);
    }
}

/// Appends what a game gives to a row, as compact JSON. After another answer than Ok some first part of it may stand there.
pub fn answer<X: Game + Drop>(
    alloc: Global,
    game: &X,
    row: &Value,
    out: &mut Vec<u8>,
) -> Result<(), RowNo> {
    let function = function_of(row)?;
    match function {
        Function::Setup => put_setup(alloc, out, game, row),
        Function::ActiveSeats | Function::Scores => Err(RowNo::Fault(RowFault::NotYet)),
        _ => put_at(alloc, out, game, function, row),
    }
}

/// Appends what a game gives at the state and the context of a row.
fn put_at<X: Game>(
    alloc: Global,
    out: &mut Vec<u8>,
    game: &X,
    function: Function,
    row: &Value,
) -> Result<(), RowNo> {
    let at = place_of(alloc, game, row)?;
    let put = put_on(alloc, out, game, function, &at, row);
    drop(at);
    put
}

fn place_of<X: Game>(alloc: Global, game: &X, row: &Value) -> Result<Place<X::G>, RowNo> {
    let ctx = context_of(alloc, game.sheet(), row)?;
    match state_of(alloc, game, row) {
        Ok(g) => Ok(Place { g, ctx }),
        Err(no) => {
            drop(ctx);
            Err(no)
        }
    }
}

fn put_on<X: Game>(
    alloc: Global,
    out: &mut Vec<u8>,
    game: &X,
    function: Function,
    at: &Place<X::G>,
    row: &Value,
) -> Result<(), RowNo> {
    match function {
        Function::View => put_view(alloc, out, game, at, row),
        Function::Options => put_options(alloc, out, game, at, row),
        Function::Play => put_play(alloc, out, game, at, row),
        Function::OnMove => put_on_move(alloc, out, game, at, row),
        Function::PhaseBegin | Function::PhaseEnd => {
            put_phase_hook(alloc, out, game, function, at, row)
        }
        Function::TurnBegin | Function::TurnEnd | Function::GameEnd => {
            put_turn_hook(alloc, out, game, function, at, row)
        }
        _ => put_fact(alloc, out, game, function, at),
    }
}

/// Appends whether, or how, something ends, or the play order.
fn put_fact<X: Game>(
    alloc: Global,
    out: &mut Vec<u8>,
    game: &X,
    function: Function,
    at: &Place<X::G>,
) -> Result<(), RowNo> {
    match function {
        Function::TurnEndIf => Ok(put_boolean(out, game.turn_end_if(&at.g, &at.ctx))?),
        Function::PhaseEndIf => Ok(put_boolean(out, game.phase_end_if(&at.g, &at.ctx))?),
        Function::PlayOrder => {
            let order = game.play_order(alloc, &at.g, &at.ctx)?;
            Ok(put_naturals(out, order.as_slice())?)
        }
        _ => Ok(put_over(out, game.end_if(&at.g, &at.ctx))?),
    }
}

/// Appends the state that a viewer sees.
fn put_view<X: Game>(
    alloc: Global,
    out: &mut Vec<u8>,
    game: &X,
    at: &Place<X::G>,
    row: &Value,
) -> Result<(), RowNo> {
    let viewer = viewer_of(row)?;
    let seen = game.view(alloc, &at.g, &at.ctx, viewer)?;
    let put = put_state(alloc, out, game, &seen);
    drop(seen);
    Ok(put?)
}

/// Appends what a seat is offered.
fn put_options<X: Game>(
    alloc: Global,
    out: &mut Vec<u8>,
    game: &X,
    at: &Place<X::G>,
    row: &Value,
) -> Result<(), RowNo> {
    let seat = seat_of(row)?;
    let ctx = with_active(alloc, game.sheet(), at.ctx.copy(alloc)?, seat, row)?;
    put_offered(alloc, out, game, &at.g, &ctx, seat)
}

fn put_offered<X: Game>(
    alloc: Global,
    out: &mut Vec<u8>,
    game: &X,
    g: &X::G,
    ctx: &Ctx,
    seat: Seat,
) -> Result<(), RowNo> {
    let offers = game.options(alloc, g, ctx, seat)?;
    Ok(put_offers(alloc, out, game.sheet(), &offers)?)
}
