//! How turns and phases begin and end.

ghost use Rattle.std.specs.Prelude.{◌≡◌, ◌+◌, ◌<◌, ◌≤◌, ◌^◌, length, IfOk, OnOk};
ghost use Rattle.dice_words.specs.Strip.{Follows};
ghost use Rattle.phase_flow.specs.Comes.{Comes, Runs};
ghost use Rattle.phase_flow.specs.Placed.{Goes, IsOrdered, IsPlaced};
ghost use Rattle.phase_flow.specs.Rows.{order_list, turn_row};
ghost use Rattle.phase_flow.specs.Turns.{enter, in_phase, order_begun, pass_on, phase_entered, phase_left, turn, turned};

use crate::flow_no::{FlowNo, quiet};
use crate::hooks::{phase_begun, phase_ended, turn_begun, turn_ended};
use crate::line::Line;
use crate::map::set_spec;
use crate::rows::turn_row;
use crate::table::Table;
use crate::task::Task;
use dice_words::Tape;
use game_sheet::{List, NoMemory, Order, PhaseId, Seat};
use game_trait::Game;
use std::alloc::Global;
use turn_order::{all_seats, first, list_from};

/// The turn and the phase in hand end, and another phase, or none, begins.
pub(crate) fn enter<X: Game>(
    alloc: Global,
    game: &X,
    next: Option<PhaseId>,
    table: &mut Table<X::G>,
    tasks: &mut Line<Task>,
    tape: &mut Tape,
) -> Result<bool, FlowNo>
    requires placed { IsPlaced table.old.ctx }
    requires room { table.old.ctx.turn + 1 < 2 ^ 32 }
    ensures ran { Runs result table.new tape.new.left tasks.new (enter (X.rules game.now) next table.old tape.old.left tasks.old) }
    ensures goes { OnOk result (Goes table.old.ctx table.new.ctx) }
    ensures follows { Follows tape.old tape.new }
{
    match turn_ended(alloc, game, table, tasks, tape) {
        Err(why) => Err(why),
        Ok(()) => quiet(phase_left(alloc, game, next, table, tasks, tape)),
    }
}

/// The phase in hand, if there is one, ends, and another one, or none, begins.
fn phase_left<X: Game>(
    alloc: Global,
    game: &X,
    next: Option<PhaseId>,
    table: &mut Table<X::G>,
    tasks: &mut Line<Task>,
    tape: &mut Tape,
) -> Result<(), FlowNo>
    requires placed { IsPlaced table.old.ctx }
    requires room { table.old.ctx.turn + 1 < 2 ^ 32 }
    ensures came { Comes result table.new tape.new.left tasks.new (phase_left (X.rules game.now) next table.old tape.old.left tasks.old) }
    ensures goes { OnOk result (Goes table.old.ctx table.new.ctx) }
    ensures follows { Follows tape.old tape.new }
{
    let phase = table.ctx.phase;
    match phase_ended(alloc, game, phase, table, tasks, tape) {
        Err(why) => Err(why),
        Ok(()) => phase_entered(alloc, game, false, next, table, tasks, tape),
    }
}

/// A phase, or a time without one, begins; `at_start` at the match's start.
pub(crate) fn phase_entered<X: Game>(
    alloc: Global,
    game: &X,
    at_start: bool,
    phase: Option<PhaseId>,
    table: &mut Table<X::G>,
    tasks: &mut Line<Task>,
    tape: &mut Tape,
) -> Result<(), FlowNo>
    requires placed { IsPlaced table.old.ctx }
    requires room { table.old.ctx.turn + 1 < 2 ^ 32 }
    ensures came { Comes result table.new tape.new.left tasks.new (phase_entered (X.rules game.now) at_start phase table.old tape.old.left tasks.old) }
    ensures goes { OnOk result (Goes table.old.ctx table.new.ctx) }
    ensures follows { Follows tape.old tape.new }
{
    name_phase(phase, table);
    let named = table.ctx.phase;
    match phase_begun(alloc, game, named, table, tasks, tape) {
        Err(why) => Err(why),
        Ok(()) => order_begun(alloc, game, at_start, table, tasks, tape),
    }
}

/// The phase, or none, is this one.
fn name_phase<G>(phase: Option<PhaseId>, table: &mut Table<G>)
    ensures { table.new ≡ in_phase phase table.old }
{
    table.ctx.phase = phase;
}

/// The play order is taken, and the turn of its first position begins.
fn order_begun<X: Game>(
    alloc: Global,
    game: &X,
    at_start: bool,
    table: &mut Table<X::G>,
    tasks: &mut Line<Task>,
    tape: &mut Tape,
) -> Result<(), FlowNo>
    requires placed { IsPlaced table.old.ctx }
    requires room { table.old.ctx.turn + 1 < 2 ^ 32 }
    ensures came { Comes result table.new tape.new.left tasks.new (order_begun (X.rules game.now) at_start table.old tape.old.left tasks.old) }
    ensures goes { OnOk result (Goes table.old.ctx table.new.ctx) }
    ensures follows { Follows tape.old tape.new }
{
    let Ok(order) = order_list(alloc, game, table) else {
        return Err(FlowNo::NoMemory);
    };
    let row = turn_row(game.sheet(), &table.ctx);
    let place = first(&row.order, at_start, table.ctx.pos, order.len() as u8);
    table.ctx.order = order;
    turn(alloc, game, place, table, tasks, tape)
}

/// The play order that the turn row in force asks for.
fn order_list<X: Game>(alloc: Global, game: &X, table: &Table<X::G>) -> Result<List<Seat>, NoMemory>
    requires { IsOrdered table.now.ctx }
    ensures value { IfOk result (λ order. order ≡ order_list (turn_row (X.rules game.now).sheet table.now.ctx).order table.now.ctx.seats ((X.rules game.now).play_order table.now.g table.now.ctx)) }
    ensures least { IfOk result (λ order. 1 ≤ length order) }
    ensures most { IfOk result (λ order. length order ≤ 64) }
{
    let seats = table.ctx.seats;
    match &turn_row(game.sheet(), &table.ctx).order {
        Order::Custom(listed) => List::from_slice(alloc, listed.as_slice()),
        Order::CustomFrom => {
            let own = game.play_order(alloc, &table.g, &table.ctx)?;
            list_from(alloc, own, seats)
        }
        Order::Default | Order::Reset | Order::Continue | Order::Once => all_seats(alloc, seats),
    }
}

/// The turn in hand ends, and that of the seat at a place of the play order begins.
pub(crate) fn pass_on<X: Game>(
    alloc: Global,
    game: &X,
    place: u8,
    table: &mut Table<X::G>,
    tasks: &mut Line<Task>,
    tape: &mut Tape,
) -> Result<(), FlowNo>
    requires ordered { IsOrdered table.old.ctx }
    requires place { place < length table.old.ctx.order }
    requires room { table.old.ctx.turn + 1 < 2 ^ 32 }
    ensures came { Comes result table.new tape.new.left tasks.new (pass_on (X.rules game.now) place table.old tape.old.left tasks.old) }
    ensures goes { OnOk result (Goes table.old.ctx table.new.ctx) }
    ensures follows { Follows tape.old tape.new }
{
    match turn_ended(alloc, game, table, tasks, tape) {
        Err(why) => Err(why),
        Ok(()) => turn(alloc, game, place, table, tasks, tape),
    }
}

/// The turn of the seat at a place of the play order begins.
fn turn<X: Game>(
    alloc: Global,
    game: &X,
    place: u8,
    table: &mut Table<X::G>,
    tasks: &mut Line<Task>,
    tape: &mut Tape,
) -> Result<(), FlowNo>
    requires ordered { IsOrdered table.old.ctx }
    requires place { place < length table.old.ctx.order }
    requires room { table.old.ctx.turn + 1 < 2 ^ 32 }
    ensures came { Comes result table.new tape.new.left tasks.new (turn (X.rules game.now) place table.old tape.old.left tasks.old) }
    ensures goes { OnOk result (Goes table.old.ctx table.new.ctx) }
    ensures follows { Follows tape.old tape.new }
{
    let spec = turn_row(game.sheet(), &table.ctx).active;
    begin_turn(place, table);
    match set_spec(game.sheet(), spec, table) {
        Err(_) => Err(FlowNo::NoMemory),
        Ok(()) => turn_begun(alloc, game, table, tasks, tape),
    }
}

/// The turn passes to the seat at a place, with no move made and no map.
fn begin_turn<G>(place: u8, table: &mut Table<G>)
    requires place { place < length table.old.ctx.order }
    requires room { table.old.ctx.turn + 1 < 2 ^ 32 }
    ensures { table.new ≡ turned place table.old }
{
    let seat = table.ctx.order.as_slice()[place as usize];
    table.ctx.turn += 1;
    table.ctx.current = seat;
    table.ctx.pos = place;
    table.ctx.moves = 0;
    table.ctx.active = None;
    table.active.clear();
}
