//! What each kind of task does.

ghost use Rattle.std.specs.Prelude.{◌≡◌, ◌+◌, ◌<◌, ◌^◌, length, nat_eq, position, OnOk, IfSome};
ghost use Rattle.dice_words.specs.Strip.{Follows};
ghost use Rattle.phase_flow.specs.Comes.{Runs, map_changed, mapped};
ghost use Rattle.phase_flow.specs.Placed.{Goes, IsOrdered, IsPlaced};
ghost use Rattle.phase_flow.specs.Settle.{end_phase, end_turn, pass_or_end, pass_to, run};

use crate::automatic::by_itself;
use crate::flow_no::FlowNo;
use crate::hooks::end_game;
use crate::line::Line;
use crate::map::{end_stage, put_in_stage, set_spec};
use crate::rows::{phase_after, turn_row};
use crate::table::Table;
use crate::task::Task;
use crate::turns::{enter, pass_on};
use dice_words::Tape;
use game_sheet::{Event, NoMemory, Seat, Sheet};
use game_trait::Game;
use std::alloc::Global;
use turn_order::next;

/// Runs one task. It answers whether that was a turn's end that put a phase's end in front.
pub(crate) fn run<X: Game>(
    alloc: Global,
    game: &X,
    task: Task,
    table: &mut Table<X::G>,
    tasks: &mut Line<Task>,
    tape: &mut Tape,
) -> Result<bool, FlowNo>
    requires placed { IsPlaced table.old.ctx }
    requires room { table.old.ctx.turn + 1 < 2 ^ 32 }
    ensures ran { Runs result table.new tape.new.left tasks.new (run (X.rules game.now) task.event task.speaker table.old tape.old.left tasks.old) }
    ensures goes { OnOk result (Goes table.old.ctx table.new.ctx) }
    ensures follows { Follows tape.old tape.new }
{
    let Task { event, speaker } = task;
    match event {
        Event::EndTurn { to } => end_turn(alloc, game, to, table, tasks, tape),
        Event::EndPhase => end_phase(alloc, game, table, tasks, tape),
        Event::SetPhase { to } => enter(alloc, game, Some(to), table, tasks, tape),
        Event::EndGame { outcome } => end_game(alloc, game, outcome, table, tasks, tape),
        Event::EndStage | Event::SetStage { .. } | Event::SetActive { .. } => {
            on_map(change_map(game.sheet(), event, speaker, table))
        }
    }
}

/// What an event does that changes the map alone. Any other leaves the table.
fn change_map<G>(
    sheet: &Sheet,
    event: Event,
    speaker: Option<Seat>,
    table: &mut Table<G>,
) -> Result<(), NoMemory>
    ensures { OnOk result (table.new ≡ map_changed sheet.now event speaker table.old) }
{
    match event {
        Event::EndStage => end_stage(sheet, speaker, table),
        Event::SetStage { to } => put_in_stage(speaker, to, table),
        Event::SetActive { spec } => set_spec(sheet, Some(spec), table),
        _ => Ok(()),
    }
}

/// The answer of a task that changes the map alone.
fn on_map(done: Result<(), NoMemory>) -> Result<bool, FlowNo>
    ensures { result ≡ mapped done }
{
    match done {
        Ok(()) => Ok(false),
        Err(_) => Err(FlowNo::NoMemory),
    }
}

/// The phase in hand, if there is one, ends.
fn end_phase<X: Game>(
    alloc: Global,
    game: &X,
    table: &mut Table<X::G>,
    tasks: &mut Line<Task>,
    tape: &mut Tape,
) -> Result<bool, FlowNo>
    requires placed { IsPlaced table.old.ctx }
    requires room { table.old.ctx.turn + 1 < 2 ^ 32 }
    ensures ran { Runs result table.new tape.new.left tasks.new (end_phase (X.rules game.now) table.old.ctx.phase table.old tape.old.left tasks.old) }
    ensures goes { OnOk result (Goes table.old.ctx table.new.ctx) }
    ensures follows { Follows tape.old tape.new }
{
    match table.ctx.phase {
        None => Ok(false),
        Some(phase) => {
            let next = phase_after(game.sheet(), phase);
            enter(alloc, game, next, table, tasks, tape)
        }
    }
}

/// The turn ends, where it has had its least count of moves.
fn end_turn<X: Game>(
    alloc: Global,
    game: &X,
    to: Option<Seat>,
    table: &mut Table<X::G>,
    tasks: &mut Line<Task>,
    tape: &mut Tape,
) -> Result<bool, FlowNo>
    requires placed { IsPlaced table.old.ctx }
    requires room { table.old.ctx.turn + 1 < 2 ^ 32 }
    ensures ran { Runs result table.new tape.new.left tasks.new (end_turn (X.rules game.now) to table.old tape.old.left tasks.old) }
    ensures goes { OnOk result (Goes table.old.ctx table.new.ctx) }
    ensures follows { Follows tape.old tape.new }
{
    let row = turn_row(game.sheet(), &table.ctx);
    if table.ctx.moves < row.min_moves {
        return Ok(false);
    }
    match to {
        Some(seat) => {
            let place = place_of(seat, table.ctx.order.as_slice());
            pass_to(alloc, game, place, table, tasks, tape)
        }
        None => {
            let place = next(&row.order, table.ctx.pos, table.ctx.order.len() as u8);
            pass_or_end(alloc, game, place, table, tasks, tape)
        }
    }
}

/// The turn passes to a place of the play order, or stays where the seat that was named has none.
fn pass_to<X: Game>(
    alloc: Global,
    game: &X,
    place: Option<usize>,
    table: &mut Table<X::G>,
    tasks: &mut Line<Task>,
    tape: &mut Tape,
) -> Result<bool, FlowNo>
    requires placed { IsPlaced table.old.ctx }
    requires place { IfSome place (λ p. p < length table.old.ctx.order) }
    requires room { table.old.ctx.turn + 1 < 2 ^ 32 }
    ensures ran { Runs result table.new tape.new.left tasks.new (pass_to (X.rules game.now) place table.old tape.old.left tasks.old) }
    ensures goes { OnOk result (Goes table.old.ctx table.new.ctx) }
    ensures follows { Follows tape.old tape.new }
{
    match place {
        None => Ok(false),
        Some(place) => match pass_on(alloc, game, place as u8, table, tasks, tape) {
            Ok(()) => Ok(false),
            Err(why) => Err(why),
        },
    }
}

/// The turn passes to the next place of the play order; without one the phase's end is put in front.
fn pass_or_end<X: Game>(
    alloc: Global,
    game: &X,
    place: Option<u8>,
    table: &mut Table<X::G>,
    tasks: &mut Line<Task>,
    tape: &mut Tape,
) -> Result<bool, FlowNo>
    requires placed { IsPlaced table.old.ctx }
    requires place { IfSome place (λ p. p < length table.old.ctx.order) }
    requires room { table.old.ctx.turn + 1 < 2 ^ 32 }
    ensures ran { Runs result table.new tape.new.left tasks.new (pass_or_end (X.rules game.now) place table.old tape.old.left tasks.old) }
    ensures goes { OnOk result (Goes table.old.ctx table.new.ctx) }
    ensures follows { Follows tape.old tape.new }
{
    match place {
        None => match tasks.put_in_front(by_itself(Event::EndPhase)) {
            Ok(()) => Ok(true),
            Err(_) => Err(FlowNo::NoMemory),
        },
        Some(place) => match pass_on(alloc, game, place, table, tasks, tape) {
            Ok(()) => Ok(false),
            Err(why) => Err(why),
        },
    }
}

/// The first place of a seat in the play order, if it has one.
fn place_of(seat: Seat, order: &[Seat]) -> Option<usize>
    ensures place { result ≡ position (nat_eq seat) order.now }
    ensures inside { IfSome result (λ place. place < length order.now) }
{
    order.iter().position(|other| *other == seat)
}
