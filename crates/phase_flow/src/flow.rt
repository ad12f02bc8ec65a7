//! The beginning of a match, and what follows from a move and from a player's event, on a table that is in order.

ghost use Rattle.std.specs.Prelude.{◌≡◌, ◌+◌, ◌<◌, ◌≤◌, ◌^◌, [], IfOk, OnOk};
ghost use Rattle.dice_words.specs.Strip.{Follows};
ghost use Rattle.phase_flow.specs.Comes.{Comes, Settles};
ghost use Rattle.phase_flow.specs.Flow.{after_move, begin, fresh, is_early, moved, opened, opening, run_event, with_count};
ghost use Rattle.phase_flow.specs.Placed.{IsPlaced};
ghost use Rattle.phase_flow.specs.Settle.{settle};
ghost use Rattle.phase_flow.specs.Step.{carry_on};
ghost use Rattle.stage_map.specs.Active.{count_of};
ghost use Rattle.phase_flow.specs.declared.table.TheConstants.{MOST_COUNT};

use crate::flow_no::{FlowNo, give_up};
use crate::hooks::after_move;
use crate::line::Line;
use crate::map::count_move;
use crate::rows::{start_phase, turn_row};
use crate::settle::settle;
use crate::table::Table;
use crate::task::Task;
use crate::turns::phase_entered;
use dice_words::Tape;
use game_sheet::{Ctx, Event, EventQueue, NoMemory, Seat, Sheet};
use game_trait::Game;
use stage_map::Active;
use std::alloc::Global;
use turn_order::all_seats;

/// The table at the beginning of a match.
#[tactic(auto, unfolding(crate::specs::Flow::begin))]
pub(crate) fn begin<X: Game>(
    alloc: Global,
    game: &X,
    seats: u8,
    tape: &mut Tape,
) -> Result<Table<X::G>, FlowNo>
    requires least { (X.rules game.now).sheet.min_seats ≤ seats }
    requires most { seats ≤ (X.rules game.now).sheet.max_seats }
    ensures answer { Settles result tape.new.left (begin (X.rules game.now) seats tape.old.left) }
    ensures turn { IfOk result (λ t. t.ctx.turn ≤ 65) }
    ensures follows { Follows tape.old tape.new }
{
    match game.setup(alloc, seats, tape) {
        Err(halt) => Err(give_up(halt)),
        Ok(g) => open(alloc, game, seats, g, tape),
    }
}

/// The table at the beginning of a match whose first state this is.
fn open<X: Game>(
    alloc: Global,
    game: &X,
    seats: u8,
    g: X::G,
    tape: &mut Tape,
) -> Result<Table<X::G>, FlowNo>
    requires least { 1 ≤ seats }
    requires most { seats ≤ 16 }
    ensures answer { Settles result tape.new.left (opened (X.rules game.now) (fresh seats g) tape.old.left) }
    ensures turn { IfOk result (λ t. t.ctx.turn ≤ 65) }
    ensures follows { Follows tape.old tape.new }
{
    let Ok(ctx) = opening(alloc, seats) else {
        drop(g);
        return Err(FlowNo::NoMemory);
    };
    let active = Active::none(alloc);
    let mut table = Table { g, ctx, active };
    match begin_play(alloc, game, &mut table, tape) {
        Ok(()) => Ok(table),
        Err(why) => {
            drop(table);
            Err(why)
        }
    }
}

/// The first phase, or the time without one, begins.
fn begin_play<X: Game>(
    alloc: Global,
    game: &X,
    table: &mut Table<X::G>,
    tape: &mut Tape,
) -> Result<(), FlowNo>
    requires placed { IsPlaced table.old.ctx }
    requires room { table.old.ctx.turn ≤ MOST_COUNT }
    ensures answer { Comes result table.new tape.new.left [] (opened (X.rules game.now) table.old tape.old.left) }
    ensures turn { OnOk result (table.new.ctx.turn ≤ table.old.ctx.turn + 65) }
    ensures follows { Follows tape.old tape.new }
{
    let start = start_phase(game.sheet());
    let mut tasks = Line::new(alloc);
    match phase_entered(alloc, game, true, start, table, &mut tasks, tape) {
        Err(why) => Err(why),
        Ok(()) => settle(alloc, game, table, &mut tasks, tape),
    }
}

/// The context before the first phase and turn.
fn opening(alloc: Global, seats: u8) -> Result<Ctx, NoMemory>
    requires least { 1 ≤ seats }
    requires most { seats ≤ 16 }
    ensures value { IfOk result (λ ctx. ctx ≡ opening seats) }
    ensures placed { IfOk result IsPlaced }
{
    let order = all_seats(alloc, seats)?;
    Ok(Ctx {
        seats,
        turn: 0,
        current: 0,
        order,
        pos: 0,
        phase: None,
        active: None,
        moves: 0,
        over: None,
    })
}

/// The table after a seat's move was played.
pub(crate) fn moved<X: Game>(
    alloc: Global,
    game: &X,
    mut table: Table<X::G>,
    seat: Seat,
    counted: bool,
    events: EventQueue,
    tape: &mut Tape,
) -> Result<Table<X::G>, FlowNo>
    requires placed { IsPlaced table.ctx }
    requires turn { table.ctx.turn ≤ MOST_COUNT }
    requires moves { table.ctx.moves ≤ MOST_COUNT }
    requires count { count_of table.active seat ≤ MOST_COUNT }
    ensures answer { Settles result tape.new.left (moved (X.rules game.now) seat counted table tape.old.left events) }
    ensures turn { IfOk result (λ t. t.ctx.turn ≤ table.ctx.turn + 64) }
    ensures follows { Follows tape.old tape.new }
{
    match follow_move(alloc, game, seat, counted, &events, &mut table, tape) {
        Ok(()) => Ok(table),
        Err(why) => {
            drop(table);
            Err(why)
        }
    }
}

/// What follows from a seat's move that was played.
#[tactic(auto, unfolding(crate::specs::Flow::moved))]
fn follow_move<X: Game>(
    alloc: Global,
    game: &X,
    seat: Seat,
    counted: bool,
    events: &EventQueue,
    table: &mut Table<X::G>,
    tape: &mut Tape,
) -> Result<(), FlowNo>
    requires placed { IsPlaced table.old.ctx }
    requires turn { table.old.ctx.turn ≤ MOST_COUNT }
    requires moves { table.old.ctx.moves ≤ MOST_COUNT }
    requires count { count_of table.old.active seat ≤ MOST_COUNT }
    ensures answer { Comes result table.new tape.new.left [] (moved (X.rules game.now) seat counted table.old tape.old.left events.now) }
    ensures turn { OnOk result (table.new.ctx.turn ≤ table.old.ctx.turn + 64) }
    ensures follows { Follows tape.old tape.new }
{
    match count(game.sheet(), counted, seat, table) {
        Err(_) => Err(FlowNo::NoMemory),
        Ok(()) => settle_move(alloc, game, seat, events, table, tape),
    }
}

/// What follows from a seat's move that was counted.
fn settle_move<X: Game>(
    alloc: Global,
    game: &X,
    seat: Seat,
    events: &EventQueue,
    table: &mut Table<X::G>,
    tape: &mut Tape,
) -> Result<(), FlowNo>
    requires placed { IsPlaced table.old.ctx }
    requires turn { table.old.ctx.turn ≤ MOST_COUNT }
    ensures answer { Comes result table.new tape.new.left [] (carry_on (after_move (X.rules game.now) seat table.old tape.old.left events.now) (settle (X.rules game.now) 64)) }
    ensures turn { OnOk result (table.new.ctx.turn ≤ table.old.ctx.turn + 64) }
    ensures follows { Follows tape.old tape.new }
{
    let mut tasks = Line::new(alloc);
    match after_move(alloc, game, seat, events, table, &mut tasks, tape) {
        Err(why) => Err(why),
        Ok(()) => settle(alloc, game, table, &mut tasks, tape),
    }
}

/// Counts a move of a seat, where it is to be counted.
fn count<G>(sheet: &Sheet, counted: bool, seat: Seat, table: &mut Table<G>) -> Result<(), NoMemory>
    requires placed { IsPlaced table.old.ctx }
    requires moves { table.old.ctx.moves ≤ MOST_COUNT }
    requires count { count_of table.old.active seat ≤ MOST_COUNT }
    ensures value { OnOk result (table.new ≡ with_count sheet.now counted seat table.old) }
    ensures turn { OnOk result (table.new.ctx.turn ≡ table.old.ctx.turn) }
    ensures placed { OnOk result (IsPlaced table.new.ctx) }
{
    if !counted {
        return Ok(());
    }
    if seat == table.ctx.current {
        table.ctx.moves += 1;
    }
    count_move(sheet, seat, table)
}

/// The table after an event that a seat asks for.
pub(crate) fn run_event<X: Game>(
    alloc: Global,
    game: &X,
    mut table: Table<X::G>,
    seat: Seat,
    event: Event,
    tape: &mut Tape,
) -> Result<Table<X::G>, FlowNo>
    requires placed { IsPlaced table.ctx }
    requires turn { table.ctx.turn ≤ MOST_COUNT }
    ensures answer { Settles result tape.new.left (run_event (X.rules game.now) seat event table tape.old.left) }
    ensures turn { IfOk result (λ t. t.ctx.turn ≤ table.ctx.turn + 64) }
    ensures follows { Follows tape.old tape.new }
{
    match follow_event(alloc, game, seat, event, &mut table, tape) {
        Ok(()) => Ok(table),
        Err(why) => {
            drop(table);
            Err(why)
        }
    }
}

/// What follows from an event that a seat asks for.
#[tactic(auto, unfolding(crate::specs::Flow::run_event))]
fn follow_event<X: Game>(
    alloc: Global,
    game: &X,
    seat: Seat,
    event: Event,
    table: &mut Table<X::G>,
    tape: &mut Tape,
) -> Result<(), FlowNo>
    requires placed { IsPlaced table.old.ctx }
    requires turn { table.old.ctx.turn ≤ MOST_COUNT }
    ensures answer { Comes result table.new tape.new.left [] (run_event (X.rules game.now) seat event table.old tape.old.left) }
    ensures turn { OnOk result (table.new.ctx.turn ≤ table.old.ctx.turn + 64) }
    ensures follows { Follows tape.old tape.new }
{
    if is_early(game.sheet(), seat, &event, table) {
        return Err(FlowNo::TooEarly);
    }
    let mut tasks = Line::new(alloc);
    let asked = Task {
        event,
        speaker: Some(seat),
    };
    match tasks.push(asked) {
        Err(_) => Err(FlowNo::NoMemory),
        Ok(()) => settle(alloc, game, table, &mut tasks, tape),
    }
}

/// Whether an event would end the turn or the seat's stage before its least count of moves.
fn is_early<G>(sheet: &Sheet, seat: Seat, event: &Event, table: &Table<G>) -> bool
    ensures { result ≡ is_early sheet.now seat event.now table.now }
{
    match event {
        Event::EndTurn { .. } => table.ctx.moves < turn_row(sheet, &table.ctx).min_moves,
        Event::EndStage => table.active.is_below(seat),
        _ => false,
    }
}
