//! The hooks of a game, and what each of them does to a table and its tasks.

ghost use Rattle.std.specs.Prelude.{◌≡◌, ◌++◌, ℕ, List as Items, [], OnOk, IfErr};
ghost use Rattle.dice_words.specs.Strip.{Follows};
ghost use Rattle.game_sheet.specs.declared.act.Event.{Event as Happening};
ghost use Rattle.game_trait.specs.Deed.{Deed, Lack};
ghost use Rattle.game_trait.specs.Gives.{Hooks};
ghost use Rattle.phase_flow.specs.Comes.{Comes, Runs};
ghost use Rattle.phase_flow.specs.Flow.{after_move};
ghost use Rattle.phase_flow.specs.Settle.{end_game, over};
ghost use Rattle.phase_flow.specs.Step.{ended_with, hooked, spoken_by};
ghost use Rattle.phase_flow.specs.Turns.{phase_begun, phase_ended, turn_begun, turn_ended};
ghost use Rattle.phase_flow.specs.declared.flow_no.FlowNo.TheVariants.{NoMemory as Starved};

use crate::flow_no::{FlowNo, give_up, quiet};
use crate::line::Line;
use crate::table::Table;
use crate::task::{Task, add};
use dice_words::Tape;
use game_sheet::{EventQueue, Outcome, PhaseId, Seat};
use game_trait::{Game, HookHalt};
use std::alloc::Global;

/// The hook of a turn's end.
pub(crate) fn turn_ended<X: Game>(
    alloc: Global,
    game: &X,
    table: &mut Table<X::G>,
    tasks: &mut Line<Task>,
    tape: &mut Tape,
) -> Result<(), FlowNo>
    ensures came { Comes result table.new tape.new.left tasks.new (turn_ended (X.rules game.now) table.old tape.old.left tasks.old) }
    ensures ctx { table.new.ctx ≡ table.old.ctx }
    ensures follows { Follows tape.old tape.new }
{
    let mut events = EventQueue::new();
    let answer = game.turn_end(alloc, &table.g, &table.ctx, tape, &mut events);
    take_in(table, tasks, None, &events, answer)
}

/// The hook of a turn's beginning.
pub(crate) fn turn_begun<X: Game>(
    alloc: Global,
    game: &X,
    table: &mut Table<X::G>,
    tasks: &mut Line<Task>,
    tape: &mut Tape,
) -> Result<(), FlowNo>
    ensures came { Comes result table.new tape.new.left tasks.new (turn_begun (X.rules game.now) table.old tape.old.left tasks.old) }
    ensures ctx { table.new.ctx ≡ table.old.ctx }
    ensures follows { Follows tape.old tape.new }
{
    let mut events = EventQueue::new();
    let answer = game.turn_begin(alloc, &table.g, &table.ctx, tape, &mut events);
    take_in(table, tasks, None, &events, answer)
}

/// The hook of the end of a phase, if there is one.
pub(crate) fn phase_ended<X: Game>(
    alloc: Global,
    game: &X,
    phase: Option<PhaseId>,
    table: &mut Table<X::G>,
    tasks: &mut Line<Task>,
    tape: &mut Tape,
) -> Result<(), FlowNo>
    ensures came { Comes result table.new tape.new.left tasks.new (phase_ended (X.rules game.now) phase table.old tape.old.left tasks.old) }
    ensures ctx { table.new.ctx ≡ table.old.ctx }
    ensures follows { Follows tape.old tape.new }
{
    let Some(phase) = phase else {
        return Ok(());
    };
    let mut events = EventQueue::new();
    let answer = game.phase_end(alloc, &table.g, &table.ctx, phase, tape, &mut events);
    take_in(table, tasks, None, &events, answer)
}

/// The hook of the beginning of a phase, if there is one.
pub(crate) fn phase_begun<X: Game>(
    alloc: Global,
    game: &X,
    phase: Option<PhaseId>,
    table: &mut Table<X::G>,
    tasks: &mut Line<Task>,
    tape: &mut Tape,
) -> Result<(), FlowNo>
    ensures came { Comes result table.new tape.new.left tasks.new (phase_begun (X.rules game.now) phase table.old tape.old.left tasks.old) }
    ensures ctx { table.new.ctx ≡ table.old.ctx }
    ensures follows { Follows tape.old tape.new }
{
    let Some(phase) = phase else {
        return Ok(());
    };
    let mut events = EventQueue::new();
    let answer = game.phase_begin(alloc, &table.g, &table.ctx, phase, tape, &mut events);
    take_in(table, tasks, None, &events, answer)
}

/// The hook after a seat's move, whose own events come before the hook's.
pub(crate) fn after_move<X: Game>(
    alloc: Global,
    game: &X,
    seat: Seat,
    queued: &EventQueue,
    table: &mut Table<X::G>,
    tasks: &mut Line<Task>,
    tape: &mut Tape,
) -> Result<(), FlowNo>
    requires { tasks.old ≡ [] }
    ensures came { Comes result table.new tape.new.left tasks.new (after_move (X.rules game.now) seat table.old tape.old.left queued.now) }
    ensures ctx { table.new.ctx ≡ table.old.ctx }
    ensures follows { Follows tape.old tape.new }
{
    match queue(tasks, Some(seat), queued) {
        Err(why) => Err(why),
        Ok(()) => {
            let mut events = EventQueue::new();
            let answer = game.on_move(alloc, &table.g, &table.ctx, seat, tape, &mut events);
            take_in(table, tasks, Some(seat), &events, answer)
        }
    }
}

/// The match is over, and the hook of its end runs, after which no task is left.
pub(crate) fn end_game<X: Game>(
    alloc: Global,
    game: &X,
    outcome: Outcome,
    table: &mut Table<X::G>,
    tasks: &mut Line<Task>,
    tape: &mut Tape,
) -> Result<bool, FlowNo>
    ensures ran { Runs result table.new tape.new.left tasks.new (end_game (X.rules game.now) (over outcome table.old) tape.old.left) }
    ensures ctx { table.new.ctx ≡ (over outcome table.old).ctx }
    ensures follows { Follows tape.old tape.new }
{
    table.ctx.over = Some(outcome);
    let mut events = EventQueue::new();
    let answer = game.game_end(alloc, &table.g, &table.ctx, tape, &mut events);
    tasks.clear();
    quiet(close(table, answer))
}

/// Takes in what a hook answered and queued.
fn take_in<G: Drop>(
    table: &mut Table<G>,
    tasks: &mut Line<Task>,
    who: Option<Seat>,
    events: &EventQueue,
    answer: Result<Option<G>, HookHalt>,
) -> Result<(), FlowNo>
    ensures came { (meaning : Deed G Lack) (words : Items ℕ) → Hooks answer table.old.g words events.now meaning
        → Comes result table.new words tasks.new (hooked who table.old tasks.old meaning) }
    ensures ctx { table.new.ctx ≡ table.old.ctx }
{
    match answer {
        Ok(Some(g)) => {
            table.g = g;
            queue(tasks, who, events)
        }
        Ok(None) => queue(tasks, who, events),
        Err(halt) => Err(give_up(halt)),
    }
}

/// Takes in what the hook of the match's end answered.
fn close<G: Drop>(table: &mut Table<G>, answer: Result<Option<G>, HookHalt>) -> Result<(), FlowNo>
    ensures came { (meaning : Deed G Lack) (words : Items ℕ) (queued : Items Happening) → Hooks answer table.old.g words queued meaning
        → Comes result table.new words [] (ended_with table.old meaning) }
    ensures ctx { table.new.ctx ≡ table.old.ctx }
{
    match answer {
        Ok(Some(g)) => {
            table.g = g;
            Ok(())
        }
        Ok(None) => Ok(()),
        Err(halt) => Err(give_up(halt)),
    }
}

/// Adds the events of a call of game code to the tasks.
fn queue(tasks: &mut Line<Task>, who: Option<Seat>, events: &EventQueue) -> Result<(), FlowNo>
    ensures ok { OnOk result (tasks.new ≡ tasks.old ++ spoken_by who events.now) }
    ensures err { IfErr result (λ why. why ≡ Starved) }
{
    match add(tasks, who, events.list()) {
        Ok(()) => Ok(()),
        Err(_) => Err(FlowNo::NoMemory),
    }
}
