//! What a whole game takes at most, with its limits.

use crate::moves::{CodedMove, MoveCost};
use crate::pieces::{MOST_WORDS, PieceCost, passed};
use crate::whole::{FileCode, PhaseCost, TurnCost};
use game_file::{GameFile, Unread};
use game_frame::{Frame, SpecFrame};
use game_syntax::{Fault, FaultName};
use std::alloc::{AllocError, Global};

/// The greatest count of steps of an action.
const MOST_ACTION_STEPS: u64 = 2_000_000;

/// The greatest count of steps of all offers.
const MOST_OFFER_STEPS: u64 = 500_000;

/// How often an action asks at most what ends by itself.
const ASKS: u64 = 65;

/// How often an action runs a hook at most.
const HOOKS: u64 = 64;

/// What a whole game takes at most.
#[derive(Clone, Copy)]
pub struct GameCost {
    /// Steps of an action, with all that may follow it.
    pub action: u64,
    /// Steps of all offers to a seat.
    pub offers: u64,
    /// Random words of an action with each hook once.
    pub words: u64,
}

/// What the dearest hooks take.
#[derive(Clone, Copy)]
struct Dearest {
    turn: TurnCost,
    phase: PhaseCost,
    /// Steps of both hooks of one turn, and of one phase.
    hooks: u64,
}

const NO_TURN: TurnCost = TurnCost {
    on_begin: PieceCost::NOTHING,
    on_end: PieceCost::NOTHING,
    on_move: PieceCost::NOTHING,
    end_if: 0,
};

const NO_PHASE: PhaseCost = PhaseCost {
    on_begin: PieceCost::NOTHING,
    on_end: PieceCost::NOTHING,
    end_if: 0,
};

/// What a game takes, if it is within its limits: offers, an action, and words.
pub fn cost_of(
    alloc: Global,
    file: &GameFile,
    frame: &Frame,
    code: &FileCode,
) -> Result<GameCost, Unread> {
    let cost = game_cost(frame, code);
    if cost.offers > MOST_OFFER_STEPS {
        return Err(dear_offers(alloc, file, code, cost.offers));
    }
    if cost.action > MOST_ACTION_STEPS {
        let name = FaultName::TooCostly;
        let what = "steps of an action with all that may follow it";
        return Err(passed(alloc, name, "", cost.action, what, MOST_ACTION_STEPS));
    }
    if cost.words > u64::from(MOST_WORDS) {
        let name = FaultName::TooManyWords;
        let what = "random words of an action with each hook once";
        return Err(passed(alloc, name, "", cost.words, what, u64::from(MOST_WORDS)));
    }
    Ok(cost)
}

/// What a game takes.
fn game_cost(frame: &Frame, code: &FileCode) -> GameCost {
    let dearest = dearest_hooks(code);
    let moves = code.moves.as_slice();
    GameCost {
        action: action_steps(frame, code, &dearest),
        offers: all_offers(moves),
        words: action_words(code, &dearest),
    }
}

fn all_offers(moves: &[CodedMove]) -> u64 {
    let mut steps: u64 = 0;
    for row in moves {
        steps = steps.saturating_add(row.cost.offers);
    }
    steps
}

fn dearest_move(moves: &[CodedMove]) -> u64 {
    let mut steps: u64 = 0;
    for row in moves {
        steps = steps.max(row.cost.when.saturating_add(row.cost.deed.steps));
    }
    steps
}

fn wordiest_move(moves: &[CodedMove]) -> u64 {
    let mut words: u64 = 0;
    for row in moves {
        words = words.max(u64::from(row.cost.deed.words));
    }
    words
}

fn dearest_hooks(code: &FileCode) -> Dearest {
    let mut turn = dearer_turn(NO_TURN, code.turn.cost);
    let mut phase = NO_PHASE;
    let mut turn_hooks = hooks_of_turn(&code.turn.cost);
    let mut phase_hooks: u64 = 0;
    for row in code.phases.as_slice() {
        if let Some(own) = &row.turn {
            turn = dearer_turn(turn, own.cost);
            turn_hooks = turn_hooks.max(hooks_of_turn(&own.cost));
        }
        phase = dearer_phase(phase, row.cost);
        phase_hooks = phase_hooks.max(hooks_of_phase(&row.cost));
    }
    Dearest {
        turn,
        phase,
        hooks: turn_hooks.saturating_add(phase_hooks),
    }
}

fn hooks_of_turn(cost: &TurnCost) -> u64 {
    cost.on_begin.steps.saturating_add(cost.on_end.steps)
}

fn hooks_of_phase(cost: &PhaseCost) -> u64 {
    cost.on_begin.steps.saturating_add(cost.on_end.steps)
}

fn dearer(one: PieceCost, other: PieceCost) -> PieceCost {
    PieceCost {
        steps: one.steps.max(other.steps),
        words: one.words.max(other.words),
        events: one.events.max(other.events),
    }
}

fn dearer_turn(one: TurnCost, other: TurnCost) -> TurnCost {
    TurnCost {
        on_begin: dearer(one.on_begin, other.on_begin),
        on_end: dearer(one.on_end, other.on_end),
        on_move: dearer(one.on_move, other.on_move),
        end_if: one.end_if.max(other.end_if),
    }
}

fn dearer_phase(one: PhaseCost, other: PhaseCost) -> PhaseCost {
    PhaseCost {
        on_begin: dearer(one.on_begin, other.on_begin),
        on_end: dearer(one.on_end, other.on_end),
        end_if: one.end_if.max(other.end_if),
    }
}

/// Steps of finding the seats of all specs with a slot.
fn seat_steps(frame: &Frame) -> u64 {
    let mut steps: u64 = 0;
    for spec in frame.specs.as_slice() {
        steps = steps.saturating_add(spec_steps(frame, spec));
    }
    steps
}

fn spec_steps(frame: &Frame, spec: &SpecFrame) -> u64 {
    match spec.seats {
        None => 0,
        Some(seats) => match frame.layout.rows.common.get(usize::from(seats.slot)) {
            Some(row) if !row.lone => u64::from(row.most).saturating_add(1),
            _ => 1,
        },
    }
}

fn action_steps(frame: &Frame, code: &FileCode, dearest: &Dearest) -> u64 {
    let Dearest { turn, phase, hooks } = *dearest;
    let ends = code
        .ends
        .steps
        .saturating_add(turn.end_if)
        .saturating_add(phase.end_if)
        .saturating_add(seat_steps(frame));
    dearest_move(code.moves.as_slice())
        .saturating_add(turn.on_move.steps)
        .saturating_add(ends.saturating_mul(ASKS))
        .saturating_add(hooks.saturating_mul(HOOKS))
        .saturating_add(code.on_end.cost.steps)
}

fn action_words(code: &FileCode, dearest: &Dearest) -> u64 {
    let Dearest {
        turn,
        phase,
        hooks: _,
    } = *dearest;
    wordiest_move(code.moves.as_slice())
        .saturating_add(u64::from(turn.on_move.words))
        .saturating_add(u64::from(turn.on_begin.words))
        .saturating_add(u64::from(turn.on_end.words))
        .saturating_add(u64::from(phase.on_begin.words))
        .saturating_add(u64::from(phase.on_end.words))
        .saturating_add(u64::from(code.on_end.cost.words))
}

/// The fault of offers that are too dear, with the dearest move.
fn dear_offers(alloc: Global, file: &GameFile, code: &FileCode, offers: u64) -> Unread {
    match dear_fault(alloc, file, code, offers) {
        Ok(fault) => Unread::Fault(fault),
        Err(_) => Unread::NoMemory,
    }
}

fn dear_fault(
    alloc: Global,
    file: &GameFile,
    code: &FileCode,
    offers: u64,
) -> Result<Fault, AllocError> {
    let (place, cost) = dearest_offers(code.moves.as_slice());
    let name = match file.flow.moves.get(place) {
        Some(member) => member.title.name.as_str(),
        None => "",
    };
    let rows = cost.rows;
    let each = cost.own;
    let words = format!(in alloc;
        "{offers} steps of offers, of at most {MOST_OFFER_STEPS}; the most by `{name}`, whose {rows} rows take {each} steps of `when` each"
    )?;
    let path = String::from_str(alloc, "moves")?;
    Ok(Fault {
        name: FaultName::TooCostly,
        path,
        place: None,
        words,
    })
}

/// The move with the dearest offers.
fn dearest_offers(moves: &[CodedMove]) -> (usize, MoveCost) {
    let mut dearest = (
        0,
        MoveCost {
            own: 0,
            when: 0,
            deed: PieceCost::NOTHING,
            rows: 0,
            offers: 0,
        },
    );
    for (place, row) in moves.iter().enumerate() {
        if row.cost.offers > dearest.1.offers {
            dearest = (place, row.cost);
        }
    }
    dearest
}
