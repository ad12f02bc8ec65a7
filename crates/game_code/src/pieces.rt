//! Pieces of code.

ghost use Rattle.std.specs.Prelude.{◌≡◌, [], IfOk, replicate};
ghost use Rattle.dice_words.specs.Strip.{Follows};
ghost use Rattle.game_code.specs.Runs.{Performs, Runs, of_piece, performed, run, table_of};
ghost use Rattle.game_code.specs.Setting.{setting_of};

use crate::expression::Locals;
use crate::runs::{Play, run};
use crate::scene::Scene;
use crate::statement::Piece;
use dice_words::Tape;
use game_sheet::{EventQueue, NoMemory};
use game_slots::{Items, Slots, Table, WorkTable};
use game_trait::HookHalt;
use std::alloc::Global;
use std::mem::replace;

/// The state that a piece of code leaves. The scene's slots of work are those of the piece.
pub fn perform(
    alloc: Global,
    piece: &Piece,
    scene: &Scene,
    table: Table,
    tape: &mut Tape,
    events: &mut EventQueue,
) -> Result<Table, HookHalt>
    requires { events.old ≡ [] }
    ensures deed { Performs result tape.new.left events.new (performed piece.now (setting_of scene.now) table tape.old.left) }
    ensures follows { Follows tape.old tape.new }
{
    let work = match empty_slots(alloc, piece.work.len()) {
        Ok(work) => work,
        Err(NoMemory) => {
            drop(table);
            return Err(HookHalt::NoMemory);
        }
    };
    let mut play = Play {
        held: WorkTable { table, work },
        tape: replace(tape, Tape::blank()),
        events: replace(events, EventQueue::new()),
    };
    let done = run_piece(piece, scene, &mut play);
    let Play {
        held,
        tape: drawn,
        events: queued,
    } = play;
    *tape = drawn;
    *events = queued;
    table_of(held, done)
}

/// Runs a piece on what is held.
fn run_piece(piece: &Piece, scene: &Scene, play: &mut Play) -> Result<(), HookHalt>
    ensures deed { Runs result play.new.held play.new.tape.left play.new.events (run piece.now.code (of_piece piece.now (setting_of scene.now)) [] play.old.held play.old.tape.left play.old.events) }
    ensures follows { Follows play.old.tape play.new.tape }
{
    let scene = Scene {
        context: scene.context,
        seat: scene.seat,
        arguments: scene.arguments,
        constants: scene.constants,
        rows: scene.rows,
        work: piece.work.as_slice(),
    };
    run(&piece.code, &scene, &Locals::Empty, play)
}

/// The state of what is held, where a piece is done.
fn table_of(held: WorkTable, done: Result<(), HookHalt>) -> Result<Table, HookHalt>
    ensures { result ≡ table_of held.table done }
{
    match done {
        Ok(()) => Ok(held.into_table()),
        Err(why) => {
            drop(held);
            Err(why)
        }
    }
}

fn empty_slots(alloc: Global, count: usize) -> Result<Slots, NoMemory>
    ensures { IfOk result (λ slots. slots ≡ replicate count []) }
{
    let mut slots = Vec::new(alloc);
    for _ in 0..count {
        slots.push(Items::new(alloc))?;
    }
    Ok(Slots::from_vec(slots))
}
