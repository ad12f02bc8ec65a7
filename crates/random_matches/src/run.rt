//! One step of a random match.

ghost use Rattle.std.specs.Prelude.{◌≡◌, ◌<◌, ◌≤◌, IfOk, IfSome, true, None};
ghost use Rattle.game_sheet.specs.declared.act.Act.TheVariants.{Event as Asks, Move};
ghost use Rattle.game_sheet.specs.declared.act.Event.TheVariants.{EndTurn};
ghost use Rattle.game_sheet.specs.declared.ids.TheConstants.{MOST_ACTIONS};
ghost use Rattle.random_matches.specs.Chosen.{IsNext, IsOffered};
ghost use Rattle.reducer.specs.Sound.{IsSound};
ghost use Rattle.stage_map.specs.Moves.{may};

use crate::choice::Chooser;
use crate::counts::Counts;
use crate::offers::{Offer, count_offers, first_active, offer_at};
use game_sheet::{Act, Event, EventKind, GameNo, MOST_ACTIONS, NoMemory, Seat, Sheet};
use game_trait::Game;
use reducer::{State, step};
use std::alloc::Global;

/// Why a step leads to no new state.
#[derive(Clone, Copy, PartialEq, Eq, Debug)]
pub(crate) enum Pause {
    /// The action is refused.
    Refused,
    /// No seat is offered a move, and none may end its turn.
    Stuck,
    /// The match has accepted as many actions as there may be.
    Long,
    /// There was no memory.
    NoMemory,
}

impl From<NoMemory> for Pause {
    ghost use Rattle.random_matches.specs.declared.run.Pause.TheVariants.{NoMemory as Starved};

    ghost from_gives = { λ _ pause. pause ≡ Starved };

    fn from(_error: NoMemory) -> Self {
        Pause::NoMemory
    }
}

/// In one of so many steps a seat ends its turn in place of its move, where the sheet lets it.
const SELDOM: u32 = 16;

/// The state after a random action.
pub(crate) fn advance<X: Game>(
    alloc: Global,
    game: &X,
    state: &State<X::G>,
    chooser: &mut Chooser,
    counts: &mut Counts,
) -> Result<State<X::G>, Pause>
    requires { IsSound (X.rules game.now) state.now }
    ensures sound { IfOk result (IsSound (X.rules game.now)) }
    ensures next { IfOk result (IsNext (X.rules game.now) state.now) }
{
    if state.number() >= MOST_ACTIONS {
        return Err(Pause::Long);
    }
    match choose(alloc, game, state, chooser, counts)? {
        Some(offer) => make(alloc, game, state, offer, chooser, counts),
        None => end_if_allowed(alloc, game, state, counts),
    }
}

/// One of the offers of all seats; none where there are none.
fn choose<X: Game>(
    alloc: Global,
    game: &X,
    state: &State<X::G>,
    chooser: &mut Chooser,
    counts: &mut Counts,
) -> Result<Option<Offer>, NoMemory>
    ensures { IfOk result (λ offer. IfSome offer (λ o. IsOffered (X.rules game.now) state.now.table.g state.now.table.ctx o.seat o.id o.args)) }
{
    let offers = count_offers(alloc, game, state.g(), state.ctx(), counts)?;
    let total = offers.total();
    if total == 0 {
        return Ok(None);
    }
    match offers.find(chooser.below(total)) {
        Some((seat, place)) => offer_at(alloc, game, state.g(), state.ctx(), seat, place),
        None => Ok(None),
    }
}

/// The state after an offered move, or now and then after the end of its seat's turn.
fn make<X: Game>(
    alloc: Global,
    game: &X,
    state: &State<X::G>,
    offer: Offer,
    chooser: &mut Chooser,
    counts: &mut Counts,
) -> Result<State<X::G>, Pause>
    requires sound { IsSound (X.rules game.now) state.now }
    requires room { state.now.number < MOST_ACTIONS }
    requires offered { IsOffered (X.rules game.now) state.now.table.g state.now.table.ctx offer.seat offer.id offer.args }
    ensures sound { IfOk result (IsSound (X.rules game.now)) }
    ensures next { IfOk result (IsNext (X.rules game.now) state.now) }
{
    if may_end(game.sheet()) && chooser.below(SELDOM) == 0 {
        let seat = offer.seat;
        drop(offer);
        end_turn(alloc, game, state, seat, counts)
    } else {
        make_move(alloc, game, state, offer, counts)
    }
}

/// The state after an offered move.
fn make_move<X: Game>(
    alloc: Global,
    game: &X,
    state: &State<X::G>,
    offer: Offer,
    counts: &mut Counts,
) -> Result<State<X::G>, Pause>
    requires sound { IsSound (X.rules game.now) state.now }
    requires room { state.now.number < MOST_ACTIONS }
    requires offered { IsOffered (X.rules game.now) state.now.table.g state.now.table.ctx offer.seat offer.id offer.args }
    ensures sound { IfOk result (IsSound (X.rules game.now)) }
    ensures next { IfOk result (IsNext (X.rules game.now) state.now) }
{
    let Offer { seat, id, args } = offer;
    let act = Act::Move { id, args };
    let stepped = step(alloc, game, state, seat, &act);
    drop(act);
    match stepped {
        Ok(next) => {
            counts.make(id);
            Ok(next)
        }
        Err(GameNo::Broken(rule)) => {
            counts.refuse(rule);
            Err(Pause::Refused)
        }
        Err(GameNo::NoMemory) => Err(Pause::NoMemory),
    }
}

/// The state after a seat has ended its turn.
fn end_turn<X: Game>(
    alloc: Global,
    game: &X,
    state: &State<X::G>,
    seat: Seat,
    counts: &mut Counts,
) -> Result<State<X::G>, Pause>
    requires sound { IsSound (X.rules game.now) state.now }
    requires room { state.now.number < MOST_ACTIONS }
    requires active { may state.now.table.ctx seat ≡ true }
    ensures sound { IfOk result (IsSound (X.rules game.now)) }
    ensures next { IfOk result (IsNext (X.rules game.now) state.now) }
{
    let act = Act::Event(Event::EndTurn { to: None });
    let stepped = step(alloc, game, state, seat, &act);
    drop(act);
    match stepped {
        Ok(next) => {
            counts.end_turn();
            Ok(next)
        }
        Err(GameNo::Broken(_)) => Err(Pause::Refused),
        Err(GameNo::NoMemory) => Err(Pause::NoMemory),
    }
}

/// The state after the first seat that may act has ended its turn, where the sheet lets it and the turn may end.
fn end_if_allowed<X: Game>(
    alloc: Global,
    game: &X,
    state: &State<X::G>,
    counts: &mut Counts,
) -> Result<State<X::G>, Pause>
    requires sound { IsSound (X.rules game.now) state.now }
    requires room { state.now.number < MOST_ACTIONS }
    ensures sound { IfOk result (IsSound (X.rules game.now)) }
    ensures next { IfOk result (IsNext (X.rules game.now) state.now) }
{
    if !may_end(game.sheet()) {
        return Err(Pause::Stuck);
    }
    let Some(seat) = first_active(state.ctx()) else {
        return Err(Pause::Stuck);
    };
    match end_turn(alloc, game, state, seat, counts) {
        Ok(next) => Ok(next),
        Err(Pause::NoMemory) => Err(Pause::NoMemory),
        Err(_) => Err(Pause::Stuck),
    }
}

/// Whether players may end their turns.
fn may_end(sheet: &Sheet) -> bool {
    for kind in sheet.events.as_slice() {
        if *kind == EventKind::EndTurn {
            return true;
        }
    }
    false
}
