//! The start of a match, and the step from one state to the next.

ghost use Rattle.std.specs.Prelude.{◌≡◌, ◌<◌, ◌∷◌, [], List, IfOk, IfErr, true};
ghost use Rattle.game_trait.specs.InSheet.{ActInSheet};
ghost use Rattle.phase_flow.specs.Reached.{Reached};
ghost use Rattle.reducer.specs.Accepted.{Accepted};
ghost use Rattle.reducer.specs.Fold.{answer, standing};
ghost use Rattle.reducer.specs.Prepared.{IsReady};
ghost use Rattle.reducer.specs.Refuses.{Refuses};
ghost use Rattle.reducer.specs.Sound.{IsSound};
ghost use Rattle.reducer.specs.Acts.{flow_answer};
ghost use Rattle.reducer.specs.Starts.{Starts, start_answer};
ghost use Rattle.reducer.specs.Steps.{Steps, state_after};
ghost use Rattle.stage_map.specs.Moves.{may};
ghost use Rattle.game_sheet.specs.declared.ids.TheConstants.{MOST_ACTIONS};

use crate::act::flow_answer;
use crate::checkpoint::Checkpoint;
use crate::prepared::Prepared;
use crate::preparing::prepare;
use crate::state::State;
use crate::taking::commit;
use dice_words::Tape;
use game_sheet::{Act, GameNo, GameRule, Seat};
use game_trait::Game;
use phase_flow::{FlowNo, begin, bounds_grow};
use std::alloc::Global;
use undo_redo::Trail;

/// Why a match didn't start.
#[derive(Clone, Copy, Debug)]
pub enum StartNo {
    /// The count of seats is outside the bounds of the game's sheet.
    BadSeats,
    /// What follows at the beginning breaks a rule.
    NoStart(GameRule),
    /// There was no memory.
    NoMemory,
}

/// The state of a match that has accepted no action yet.
///
/// `BadSeats` comes exactly outside the sheet's bounds, and `NoStart` exactly where the beginning breaks a rule.
#[tactic(auto, unfolding(phase_flow::specs::Action::begin))]
pub fn start<X: Game>(
    alloc: Global,
    game: &X,
    seats: u8,
    seed: &[u8; 32],
) -> Result<State<X::G>, StartNo>
    ensures answer { Starts (X.rules game.now) seats seed.now result }
    ensures stands { IfOk result (λ s. s ≡ standing (X.rules game.now) s.table []) }
    ensures sound { IfOk result (IsSound (X.rules game.now)) }
{
    let sheet = game.sheet();
    if seats < sheet.min_seats || sheet.max_seats < seats {
        return Err(StartNo::BadSeats);
    }
    let mut tape = Tape::live(*seed, 0, 0);
    let table = match begin(alloc, game, seats, &mut tape) {
        Ok(table) => table,
        Err(why) => return Err(no_start(why)),
    };
    let first = Checkpoint {
        table,
        seed: *seed,
        place: tape.place(),
        count: 0,
    };
    match Trail::new(alloc, first) {
        Ok(trail) => Ok(State { number: 0, trail }),
        Err(_) => Err(StartNo::NoMemory),
    }
}

/// The state after one action more of a seat that may act. The state that is handed in stays as it was.
///
/// A rule is broken exactly where the action on this state breaks it. An undo strikes the last done action, and a redo does the
/// first undone one again; the place in the words is that of the state that they lead to.
pub fn step<X: Game>(
    alloc: Global,
    game: &X,
    state: &State<X::G>,
    seat: Seat,
    act: &Act,
) -> Result<State<X::G>, GameNo>
    requires room { state.now.number < MOST_ACTIONS }
    requires sound { IsSound (X.rules game.now) state.now }
    requires active { may state.now.table.ctx seat ≡ true }
    requires act { ActInSheet (X.rules game.now).sheet act.now }
    ensures answer { Steps (X.rules game.now) state.now seat act.now result }
    ensures sound { IfOk result (IsSound (X.rules game.now)) }
    ensures stands { IfOk result (λ s. (first : Reached X.G) (accepted : List Accepted) → state.now ≡ standing (X.rules game.now) first accepted
        → s ≡ standing (X.rules game.now) first (record { seat = seat; act = act.now } ∷ accepted)) }
    ensures refused { IfErr result (λ why. (first : Reached X.G) (accepted : List Accepted) → state.now ≡ standing (X.rules game.now) first accepted
        → Refuses why (answer (X.rules game.now) first accepted seat act.now)) }
{
    match prepare(alloc, game, state, seat, act) {
        Ok(prepared) => match state.copy(alloc) {
            Ok(copied) => Ok(taken_in(game, copied, prepared)),
            Err(_) => {
                drop(prepared);
                Err(GameNo::NoMemory)
            }
        },
        Err(why) => Err(why),
    }
}

/// The state with an action taken in.
fn taken_in<X: Game>(game: &X, state: State<X::G>, prepared: Prepared<X::G>) -> State<X::G>
    requires sound { IsSound (X.rules game.now) state }
    requires ready { IsReady (X.rules game.now) state prepared }
    ensures after { result ≡ state_after (X.rules game.now) state prepared.action }
    ensures sound { IsSound (X.rules game.now) result }
{
    let mut next = state;
    commit(game, &mut next, prepared);
    next
}

/// Why a match didn't start whose beginning has no table.
fn no_start(why: FlowNo) -> StartNo
    ensures { result ≡ start_answer (flow_answer why) }
{
    match flow_answer(why) {
        GameNo::Broken(rule) => StartNo::NoStart(rule),
        GameNo::NoMemory => StartNo::NoMemory,
    }
}
