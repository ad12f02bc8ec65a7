//! The reducer as a machine of steps, over which the trail of a match goes.

ghost use Rattle.std.specs.Prelude.{◌≡◌, ◌<◌, ℕ, IfOk, IfSome};
ghost use Rattle.game_trait.specs.InSheet.{ActInSheet};
ghost use Rattle.reducer.specs.Performs.{Performs};
ghost use Rattle.reducer.specs.Walk.{Fits, InSheet, walked};
ghost use Rattle.game_sheet.specs.declared.ids.TheConstants.{MOST_ACTIONS};

use crate::act::act_on;
use crate::checkpoint::{Checkpoint, Deed};
use dice_words::Tape;
use game_sheet::{Act, GameNo, MOST_ACTIONS, NoMemory, Seat};
use game_trait::Game;
use phase_flow::bounds_grow;
use std::alloc::Global;
use undo_redo::Machine;

/// The machine of a game: an action of a seat leads from one checkpoint of a match to the next.
///
/// It refuses an action after 4,096 others, one of a seat that the match doesn't have, and one that breaks a rule of the game.
#[derive(Drop)]
pub(crate) struct Reducer<'a, X> {
    /// The game.
    pub(crate) game: &'a X,
}

impl<'a, X: Game> Machine for Reducer<'a, X> {
    ghost use Rattle.reducer.specs.Walk.{Fits, InSheet, walked};

    type State = Checkpoint<X::G>;

    type Act = Deed;

    ghost stepped = { λ m w a. walked (X.rules m.game.now) w a };

    ghost state_fits = { λ m w. Fits (X.rules m.game.now) w };

    ghost act_fits = { λ m a. InSheet (X.rules m.game.now) a };

    fn step(
        &self,
        alloc: Global,
        state: &Checkpoint<X::G>,
        act: &Deed,
    ) -> Result<Option<Checkpoint<X::G>>, NoMemory> {
        walk(alloc, self.game, state, act)
    }
}

/// The checkpoint that an action leads to; none where it is refused.
#[tactic(auto, unfolding(crate::specs::Walk::walked))]
fn walk<X: Game>(
    alloc: Global,
    game: &X,
    from: &Checkpoint<X::G>,
    deed: &Deed,
) -> Result<Option<Checkpoint<X::G>>, NoMemory>
    requires fits { Fits (X.rules game.now) from.now }
    requires act { InSheet (X.rules game.now) deed.now }
    ensures value { IfOk result (λ next. next ≡ walked (X.rules game.now) from.now deed.now) }
    ensures fits { IfOk result (λ next. IfSome next (Fits (X.rules game.now))) }
{
    if from.count >= MOST_ACTIONS || deed.seat >= from.table.ctx.seats {
        return Ok(None);
    }
    let act = deed.act.act();
    match perform(alloc, game, from, deed.seat, &act) {
        Ok(next) => Ok(Some(next)),
        Err(GameNo::Broken(_)) => Ok(None),
        Err(GameNo::NoMemory) => Err(NoMemory),
    }
}

/// The checkpoint that an action of a seat of the match leads to. A rule is broken exactly where the action breaks it.
#[tactic(auto, unfolding(phase_flow::specs::Action::once))]
pub(crate) fn perform<X: Game>(
    alloc: Global,
    game: &X,
    from: &Checkpoint<X::G>,
    seat: Seat,
    act: &Act,
) -> Result<Checkpoint<X::G>, GameNo>
    requires room { from.now.count < MOST_ACTIONS }
    requires fits { Fits (X.rules game.now) from.now }
    requires seat { seat < from.now.table.ctx.seats }
    requires act { ActInSheet (X.rules game.now).sheet act.now }
    ensures answer { Performs (X.rules game.now) from.now seat act.now result }
    ensures fits { IfOk result (Fits (X.rules game.now)) }
{
    bounds_grow();
    let mut tape = Tape::live(from.seed, 0, from.place);
    match act_on(alloc, game, &from.table, seat, act, &mut tape) {
        Ok(table) => {
            let place = tape.place();
            drop(tape);
            Ok(Checkpoint {
                table,
                seed: from.seed,
                place,
                count: from.count + 1,
            })
        }
        Err(why) => {
            drop(tape);
            Err(why)
        }
    }
}
