//! How a state takes in an action that was prepared for it.

ghost use Rattle.std.specs.Prelude.{◌≡◌, ◌+◌, ◌<◌, ℕ};
ghost use Rattle.game_sheet.specs.declared.act.Act.TheVariants.{Undo, Redo};
ghost use Rattle.reducer.specs.Change.{coming};
ghost use Rattle.reducer.specs.Prepared.{IsReady};
ghost use Rattle.reducer.specs.Sound.{IsSound};
ghost use Rattle.reducer.specs.Steps.{state_after};
ghost use Rattle.reducer.specs.Struck.{IsDeed};
ghost use Rattle.reducer.specs.declared.change.Change.TheVariants.{On};
ghost use Rattle.game_sheet.specs.declared.ids.TheConstants.{MOST_ACTIONS};

use crate::change::Change;
use crate::checkpoint::{Checkpoint, Deed};
use crate::machine::Reducer;
use crate::prepared::Prepared;
use crate::state::State;
use game_trait::Game;
use phase_flow::bounds_grow;
use undo_redo::Step;

/// Takes in an action that was prepared on this state. It takes no memory and runs nothing of the game.
pub fn commit<X: Game>(game: &X, state: &mut State<X::G>, prepared: Prepared<X::G>)
    requires sound { IsSound (X.rules game.now) state.old }
    requires ready { IsReady (X.rules game.now) state.old prepared }
    ensures after { state.new ≡ state_after (X.rules game.now) state.old prepared.action }
    ensures sound { IsSound (X.rules game.now) state.new }
{
    match prepared.into_change() {
        Change::On(step) => apply(game, state, step),
        Change::Back { seat: _, to } => {
            drop(to);
            undo(game, state);
        }
        Change::Again { seat: _, to } => {
            drop(to);
            redo(game, state);
        }
    }
}

/// Takes in a move or an event.
fn apply<X: Game>(game: &X, state: &mut State<X::G>, step: Step<Checkpoint<X::G>, Deed>)
    requires sound { IsSound (X.rules game.now) state.old }
    requires ready { IsReady (X.rules game.now) state.old (coming (state.old.number + 1) (On step)) }
    requires deed { IsDeed step.act.act }
    ensures after { state.new ≡ state_after (X.rules game.now) state.old step.act }
    ensures sound { IsSound (X.rules game.now) state.new }
{
    bounds_grow();
    state.trail.commit(&Reducer { game }, step);
    state.number += 1;
}

/// Takes in an undo.
fn undo<X: Game>(game: &X, state: &mut State<X::G>)
    requires sound { IsSound (X.rules game.now) state.old }
    requires room { state.old.number < MOST_ACTIONS }
    ensures after { (seat : ℕ) → state.new ≡ state_after (X.rules game.now) state.old (record { seat = seat; act = Undo }) }
    ensures sound { IsSound (X.rules game.now) state.new }
{
    bounds_grow();
    let _undone = state.trail.undo(&Reducer { game });
    state.number += 1;
}

/// Takes in a redo.
fn redo<X: Game>(game: &X, state: &mut State<X::G>)
    requires sound { IsSound (X.rules game.now) state.old }
    requires room { state.old.number < MOST_ACTIONS }
    ensures after { (seat : ℕ) → state.new ≡ state_after (X.rules game.now) state.old (record { seat = seat; act = Redo }) }
    ensures sound { IsSound (X.rules game.now) state.new }
{
    bounds_grow();
    let _redone = state.trail.redo(&Reducer { game });
    state.number += 1;
}
