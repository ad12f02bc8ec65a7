//! How a table is settled.

ghost use Rattle.std.specs.Prelude.{◌≡◌, ◌+◌, ◌<◌, ◌≤◌, ◌^◌, [], false, OnOk, IfSome, IfNone};
ghost use Rattle.dice_words.specs.Strip.{Follows};
ghost use Rattle.phase_flow.specs.Automatic.{with_automatic};
ghost use Rattle.phase_flow.specs.Comes.{Comes, Heads};
ghost use Rattle.phase_flow.specs.Placed.{IsPlaced};
ghost use Rattle.phase_flow.specs.Settle.{settle};

use crate::automatic::automatic;
use crate::flow_no::FlowNo;
use crate::line::Line;
use crate::run::run;
use crate::table::Table;
use crate::task::Task;
use dice_words::Tape;
use game_trait::Game;
use std::alloc::Global;

/// How many tasks an action may begin.
const MOST_TASKS: u8 = 64;

/// Runs tasks until none is left or the match is over.
///
/// It is `TooManyEvents` at a 65th task, and otherwise what the first hook that gives up is refused as.
pub(crate) fn settle<X: Game>(
    alloc: Global,
    game: &X,
    table: &mut Table<X::G>,
    tasks: &mut Line<Task>,
    tape: &mut Tape,
) -> Result<(), FlowNo>
    requires placed { IsPlaced table.old.ctx }
    requires room { table.old.ctx.turn + 64 < 2 ^ 32 }
    ensures answer { Comes result table.new tape.new.left [] (settle (X.rules game.now) 64 table.old tape.old.left tasks.old false) }
    ensures turn { OnOk result (table.new.ctx.turn ≤ table.old.ctx.turn + 64) }
    ensures follows { Follows tape.old tape.new }
{
    let mut left = MOST_TASKS;
    let mut after = false;
    'tasks: loop {
        let Some(task) = next_task(game, table, tasks, after) else {
            return Ok(());
        };
        if left == 0 {
            return Err(FlowNo::TooManyEvents);
        }
        left -= 1;
        match run(alloc, game, task, table, tasks, tape) {
            Err(why) => return Err(why),
            Ok(put) => after = put,
        }
    }
}

/// The task that runs next: the one that comes by itself, else the first of the others; none where nothing is left to do.
fn next_task<X: Game>(
    game: &X,
    table: &Table<X::G>,
    tasks: &mut Line<Task>,
    after: bool,
) -> Option<Task>
    ensures { Heads result table.now tasks.new (with_automatic (X.rules game.now) after table.now tasks.old) }
{
    if table.ctx.over.is_some() {
        return None;
    }
    if after {
        return tasks.take();
    }
    match automatic(game, table) {
        Some(task) => Some(task),
        None => tasks.take(),
    }
}
