//! What one action of a seat comes to.

ghost use Rattle.std.specs.Prelude.{◌≡◌, ◌+◌, ◌<◌, ◌≤◌, ℕ, length, slice_get, is_none, nat_eq, position, IfOk};
ghost use Rattle.dice_words.specs.Strip.{Follows};
ghost use Rattle.game_trait.specs.InSheet.{ActInSheet, EventInSheet};
ghost use Rattle.phase_flow.specs.Action.{acted, counts, has_no_limit, is_invalid, played, asked};
ghost use Rattle.phase_flow.specs.IsSound.{IsSound};
ghost use Rattle.reducer.specs.Acts.{Acts, flow_answer, move_answer};
ghost use Rattle.game_sheet.specs.declared.ids.TheConstants.{MOST_ACTIONS};
ghost use Rattle.phase_flow.specs.declared.table.TheConstants.{MOST_COUNT};

use dice_words::Tape;
use game_sheet::{Act, Args, Event, EventQueue, GameNo, GameRule, MoveId, NoMemory, Seat, Sheet};
use game_trait::{Game, Halt};
use phase_flow::{FlowNo, Table, bounds_grow, moved, run_event};
use std::alloc::Global;

/// The table after a seat's action. An undo or redo is none on a table: it is an invalid move there.
pub(crate) fn act_on<X: Game>(
    alloc: Global,
    game: &X,
    table: &Table<X::G>,
    seat: Seat,
    act: &Act,
    tape: &mut Tape,
) -> Result<Table<X::G>, GameNo>
    requires sound { IsSound (X.rules game.now).sheet MOST_ACTIONS table.now.ctx table.now.active }
    requires turn { table.now.ctx.turn ≤ MOST_COUNT }
    requires seat { seat < table.now.ctx.seats }
    requires act { ActInSheet (X.rules game.now).sheet act.now }
    ensures answer { Acts result tape.new.left (acted (X.rules game.now) table.now seat act.now tape.old.left) }
    ensures sound { (most : ℕ) → IsSound (X.rules game.now).sheet most table.now.ctx table.now.active
        → IfOk result (λ t. IsSound (X.rules game.now).sheet (most + 1) t.ctx t.active) }
    ensures turn { IfOk result (λ t. t.ctx.turn ≤ table.now.ctx.turn + 64) }
    ensures follows { Follows tape.old tape.new }
{
    bounds_grow();
    match act {
        Act::Move { id, args } => play(alloc, game, table, seat, *id, args, tape),
        Act::Event(event) => ask(alloc, game, table, seat, *event, tape),
        Act::Undo | Act::Redo => Err(GameNo::Broken(GameRule::InvalidMove)),
    }
}

/// The table after a seat's move.
fn play<X: Game>(
    alloc: Global,
    game: &X,
    table: &Table<X::G>,
    seat: Seat,
    id: MoveId,
    args: &Args,
    tape: &mut Tape,
) -> Result<Table<X::G>, GameNo>
    requires known { id < length (X.rules game.now).sheet.moves }
    requires sound { IsSound (X.rules game.now).sheet MOST_ACTIONS table.now.ctx table.now.active }
    requires turn { table.now.ctx.turn ≤ MOST_COUNT }
    requires seat { seat < table.now.ctx.seats }
    ensures answer { Acts result tape.new.left (played (X.rules game.now) table.now seat (counts (X.rules game.now).sheet id) ((X.rules game.now).play table.now.g table.now.ctx seat id args.now tape.old.left)) }
    ensures sound { (most : ℕ) → IsSound (X.rules game.now).sheet most table.now.ctx table.now.active
        → IfOk result (λ t. IsSound (X.rules game.now).sheet (most + 1) t.ctx t.active) }
    ensures turn { IfOk result (λ t. t.ctx.turn ≤ table.now.ctx.turn + 64) }
    ensures follows { Follows tape.old tape.new }
{
    bounds_grow();
    let mut events = EventQueue::new();
    match game.play(
        alloc,
        &table.g,
        &table.ctx,
        seat,
        id,
        args,
        tape,
        &mut events,
    ) {
        Ok(g) => match with_state(alloc, table, g) {
            Ok(played) => {
                let counted = counts(game.sheet(), id);
                match moved(alloc, game, played, seat, counted, events, tape) {
                    Ok(after) => Ok(after),
                    Err(why) => Err(flow_answer(why)),
                }
            }
            Err(_) => Err(GameNo::NoMemory),
        },
        Err(halt) => Err(move_answer(halt)),
    }
}

/// The table after an event that a seat asks for.
fn ask<X: Game>(
    alloc: Global,
    game: &X,
    table: &Table<X::G>,
    seat: Seat,
    event: Event,
    tape: &mut Tape,
) -> Result<Table<X::G>, GameNo>
    requires known { EventInSheet (X.rules game.now).sheet event }
    requires sound { IsSound (X.rules game.now).sheet MOST_ACTIONS table.now.ctx table.now.active }
    requires turn { table.now.ctx.turn ≤ MOST_COUNT }
    requires seat { seat < table.now.ctx.seats }
    ensures answer { Acts result tape.new.left (asked (X.rules game.now) table.now seat event tape.old.left) }
    ensures sound { (most : ℕ) → IsSound (X.rules game.now).sheet most table.now.ctx table.now.active
        → IfOk result (λ t. IsSound (X.rules game.now).sheet most t.ctx t.active) }
    ensures turn { IfOk result (λ t. t.ctx.turn ≤ table.now.ctx.turn + 64) }
    ensures follows { Follows tape.old tape.new }
{
    bounds_grow();
    if is_invalid(seat, &event, table) {
        return Err(GameNo::Broken(GameRule::InvalidMove));
    }
    match copied(alloc, game, table) {
        Ok(copied) => match run_event(alloc, game, copied, seat, event, tape) {
            Ok(after) => Ok(after),
            Err(why) => Err(flow_answer(why)),
        },
        Err(_) => Err(GameNo::NoMemory),
    }
}

/// An equal table.
fn copied<X: Game>(alloc: Global, game: &X, table: &Table<X::G>) -> Result<Table<X::G>, NoMemory>
    ensures { IfOk result (λ copied. copied ≡ table.now) }
{
    match game.copy(alloc, &table.g) {
        Ok(g) => with_state(alloc, table, g),
        Err(failed) => Err(failed),
    }
}

/// The table with another state of the game.
fn with_state<G: Drop>(alloc: Global, table: &Table<G>, g: G) -> Result<Table<G>, NoMemory>
    ensures { IfOk result (λ t. t ≡ record table.now { g = g }) }
{
    let Ok(ctx) = table.ctx.copy(alloc) else {
        drop(g);
        return Err(NoMemory);
    };
    let Ok(active) = table.active.copy() else {
        drop(g);
        drop(ctx);
        return Err(NoMemory);
    };
    Ok(Table { g, ctx, active })
}

/// Whether there is no phase to end, no place of that seat in the play order, or no stage of the player's to end.
fn is_invalid<G>(seat: Seat, event: &Event, table: &Table<G>) -> bool
    ensures { result ≡ is_invalid seat event.now table.now }
{
    match event {
        Event::EndPhase => table.ctx.phase.is_none(),
        Event::EndTurn { to: Some(to) } => has_no_place(*to, table.ctx.order.as_slice()),
        Event::EndStage => !table.active.is_listed(seat),
        _ => false,
    }
}

/// Whether a seat isn't in the play order.
fn has_no_place(seat: Seat, order: &[Seat]) -> bool
    ensures { result ≡ is_none (position (nat_eq seat) order.now) }
{
    place_of(seat, order).is_none()
}

/// The first place of a seat in the play order, if it has one.
fn place_of(seat: Seat, order: &[Seat]) -> Option<usize>
    ensures { result ≡ position (nat_eq seat) order.now }
{
    order.iter().position(|other| *other == seat)
}

/// Whether a move counts toward the limits of its turn and of its seat's stage.
fn counts(sheet: &Sheet, id: MoveId) -> bool
    ensures { result ≡ counts sheet.now id }
{
    !has_no_limit(sheet, id)
}

/// Whether the sheet lets a move count toward no limit.
fn has_no_limit(sheet: &Sheet, id: MoveId) -> bool
    ensures { result ≡ has_no_limit (slice_get sheet.now.moves id) }
{
    match sheet.moves.as_slice().get(id.place() as usize) {
        Some(row) => row.no_limit,
        None => false,
    }
}

/// What a refusal of the flow is answered as.
pub(crate) fn flow_answer(why: FlowNo) -> GameNo
    ensures { result ≡ flow_answer why }
{
    match why {
        FlowNo::TooManyEvents => GameNo::Broken(GameRule::TooManyEvents),
        FlowNo::TooManyWords => GameNo::Broken(GameRule::TooManyWords),
        FlowNo::TooEarly => GameNo::Broken(GameRule::TooEarly),
        FlowNo::NoMemory => GameNo::NoMemory,
    }
}

/// What a move that gives no state is answered as.
fn move_answer(halt: Halt) -> GameNo
    ensures { result ≡ move_answer halt }
{
    match halt {
        Halt::Invalid => GameNo::Broken(GameRule::InvalidMove),
        Halt::Spent => GameNo::Broken(GameRule::TooManyWords),
        Halt::Crowded => GameNo::Broken(GameRule::TooManyEvents),
        Halt::NoMemory => GameNo::NoMemory,
    }
}
