//! What an action of a seat comes to on a state, before the state takes it in.

ghost use Rattle.std.specs.Prelude.{◌≡◌, ◌+◌, ◌<◌, IfOk, true, None};
ghost use Rattle.std.specs.Arc.{arc_value};
ghost use Rattle.game_sheet.specs.declared.act.Act.TheVariants.{Undo, Redo};
ghost use Rattle.game_trait.specs.InSheet.{ActInSheet};
ghost use Rattle.reducer.specs.Answer.{is_undoable, undo_broken};
ghost use Rattle.reducer.specs.Prepared.{Prepares};
ghost use Rattle.reducer.specs.Sound.{IsSound};
ghost use Rattle.reducer.specs.Struck.{IsDeed};
ghost use Rattle.reducer.specs.Walk.{InSheet, reached_at};
ghost use Rattle.stage_map.specs.Moves.{may};
ghost use Rattle.game_sheet.specs.declared.ids.TheConstants.{MOST_ACTIONS};

use crate::change::Change;
use crate::checkpoint::{Checkpoint, Deed};
use crate::machine::perform;
use crate::prepared::Prepared;
use crate::state::State;
use game_sheet::{Act, GameNo, GameRule, NoMemory, Number, Seat};
use game_trait::Game;
use move_log::KeptAct;
use std::alloc::Global;
use std::sync::Arc;
use undo_redo::Step;

/// What one action more of a seat that may act comes to, for [`commit`](crate::commit) to take in. The state stays as it is.
///
/// A rule is broken exactly where the action on this state breaks it. An undo strikes the last done action, and a redo does the
/// first undone one again; both come to a state that is kept, with its place in the words, and make nothing anew.
pub fn prepare<X: Game>(
    alloc: Global,
    game: &X,
    state: &State<X::G>,
    seat: Seat,
    act: &Act,
) -> Result<Prepared<X::G>, GameNo>
    requires room { state.now.number < MOST_ACTIONS }
    requires sound { IsSound (X.rules game.now) state.now }
    requires active { may state.now.table.ctx seat ≡ true }
    requires act { ActInSheet (X.rules game.now).sheet act.now }
    ensures answer { Prepares (X.rules game.now) state.now seat act.now result }
{
    match act {
        Act::Undo => undo(game, state, seat),
        Act::Redo => redo(game, state, seat),
        Act::Move { .. } | Act::Event(_) => apply(alloc, game, state, seat, act),
    }
}

/// What a move or an event comes to.
fn apply<X: Game>(
    alloc: Global,
    game: &X,
    state: &State<X::G>,
    seat: Seat,
    act: &Act,
) -> Result<Prepared<X::G>, GameNo>
    requires room { state.now.number < MOST_ACTIONS }
    requires sound { IsSound (X.rules game.now) state.now }
    requires active { may state.now.table.ctx seat ≡ true }
    requires act { ActInSheet (X.rules game.now).sheet act.now }
    requires deed { IsDeed act.now }
    ensures answer { Prepares (X.rules game.now) state.now seat act.now result }
{
    match perform(alloc, game, state.trail.now(), seat, act) {
        Ok(next) => match made(alloc, state.number + 1, seat, act, next) {
            Ok(prepared) => Ok(prepared),
            Err(_) => Err(GameNo::NoMemory),
        },
        Err(why) => Err(why),
    }
}

/// What an undo comes to.
fn undo<X: Game>(game: &X, state: &State<X::G>, seat: Seat) -> Result<Prepared<X::G>, GameNo>
    requires room { state.now.number < MOST_ACTIONS }
    requires sound { IsSound (X.rules game.now) state.now }
    requires active { may state.now.table.ctx seat ≡ true }
    ensures answer { Prepares (X.rules game.now) state.now seat Undo result }
{
    let Some(last) = state.trail.last_done() else {
        return Err(GameNo::Broken(GameRule::NothingToUndo));
    };
    let Some(before) = state.trail.before() else {
        return Err(GameNo::Broken(GameRule::NothingToUndo));
    };
    match undo_broken(game, state.trail.now(), before, last, seat) {
        Some(rule) => Err(GameNo::Broken(rule)),
        None => match back(state.number + 1, seat, before) {
            Ok(prepared) => Ok(prepared),
            Err(_) => Err(GameNo::NoMemory),
        },
    }
}

/// What a redo comes to.
fn redo<X: Game>(game: &X, state: &State<X::G>, seat: Seat) -> Result<Prepared<X::G>, GameNo>
    requires room { state.now.number < MOST_ACTIONS }
    requires sound { IsSound (X.rules game.now) state.now }
    requires active { may state.now.table.ctx seat ≡ true }
    ensures answer { Prepares (X.rules game.now) state.now seat Redo result }
{
    let _game = game;
    let Some(next) = state.trail.first_undone() else {
        return Err(GameNo::Broken(GameRule::NothingToRedo));
    };
    if next.seat != seat {
        return Err(GameNo::Broken(GameRule::NotYours));
    }
    let Some(after) = state.trail.ahead() else {
        return Err(GameNo::Broken(GameRule::NothingToRedo));
    };
    match again(state.number + 1, seat, after) {
        Ok(prepared) => Ok(prepared),
        Err(_) => Err(GameNo::NoMemory),
    }
}

/// A move or an event to a checkpoint of its own.
fn made<G: Drop>(
    alloc: Global,
    number: Number,
    seat: Seat,
    act: &Act,
    next: Checkpoint<G>,
) -> Result<Prepared<G>, NoMemory>
    requires { IsDeed act.now }
    ensures { IfOk result (λ p. p ≡ record { action = record { seat = seat; act = act.now }; number = number; count = next.count; table = reached_at next }) }
{
    let act = KeptAct::of(alloc, act)?;
    let deed = Deed { seat, act };
    let step = Step::new(alloc, deed, next)?;
    Ok(Prepared {
        number,
        change: Change::On(step),
    })
}

/// An undo to a checkpoint that is kept already.
fn back<G: Drop>(
    number: Number,
    seat: Seat,
    next: &Arc<Checkpoint<G>>,
) -> Result<Prepared<G>, NoMemory>
    ensures { IfOk result (λ p. p ≡ record { action = record { seat = seat; act = Undo }; number = number; count = (arc_value next.now).count; table = reached_at (arc_value next.now) }) }
{
    let to = Arc::try_clone(next)?;
    Ok(Prepared {
        number,
        change: Change::Back { seat, to },
    })
}

/// A redo to a checkpoint that is kept already.
fn again<G: Drop>(
    number: Number,
    seat: Seat,
    next: &Arc<Checkpoint<G>>,
) -> Result<Prepared<G>, NoMemory>
    ensures { IfOk result (λ p. p ≡ record { action = record { seat = seat; act = Redo }; number = number; count = (arc_value next.now).count; table = reached_at (arc_value next.now) }) }
{
    let to = Arc::try_clone(next)?;
    Ok(Prepared {
        number,
        change: Change::Again { seat, to },
    })
}

/// The rule that the undo of the last action breaks, which led from one checkpoint to the present one.
fn undo_broken<X: Game>(
    game: &X,
    now: &Checkpoint<X::G>,
    before: &Checkpoint<X::G>,
    last: &Deed,
    seat: Seat,
) -> Option<GameRule>
    requires { InSheet (X.rules game.now) last.now }
    ensures { result ≡ undo_broken (X.rules game.now) (reached_at now.now) before.now.table.ctx.turn last.now seat }
{
    if before.table.ctx.turn != now.table.ctx.turn {
        return Some(GameRule::NothingToUndo);
    }
    if last.seat != seat {
        return Some(GameRule::NotYours);
    }
    if is_undoable(game, now, &last.act.act()) {
        None
    } else {
        Some(GameRule::NotUndoable)
    }
}

/// Whether an action may be undone: no event, and a move where the game says so in the present state.
fn is_undoable<X: Game>(game: &X, now: &Checkpoint<X::G>, act: &Act) -> bool
    requires { ActInSheet (X.rules game.now).sheet act.now }
    ensures { result ≡ is_undoable (X.rules game.now) (reached_at now.now) act.now }
{
    match act {
        Act::Move { id, .. } => game.undoable(&now.table.g, &now.table.ctx, *id),
        Act::Event(_) | Act::Undo | Act::Redo => false,
    }
}
