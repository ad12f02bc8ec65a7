//! What happens at the beginning of a match and in its turns and phases.

ghost use Rattle.std.specs.Prelude.{◌≡◌, [], option_copied, true};
ghost use Rattle.dice_words.specs.Strip.{Follows};
ghost use Rattle.game_code.specs.Runs.{performed};
ghost use Rattle.game_code.specs.Setting.{setting_of};
ghost use Rattle.game_trait.specs.Gives.{Hooks, Opens};
ghost use Rattle.described_game.specs.Hooks.{hooked, opened, opening_context, phase_code, turn_code, turn_in};
ghost use Rattle.described_game.specs.Tests.{is_quiet};

use crate::parts::{GameParts, PhaseCode, TurnCode};
use crate::scenes::scene_at;
use dice_words::Tape;
use game_code::{Piece, Scene, Statement, perform};
use game_sheet::{Ctx, EventQueue, List, PhaseId, Seat};
use game_slots::{Table, started};
use game_trait::HookHalt;
use std::alloc::Global;

/// The first state of a match of so many seats.
pub(crate) fn open_match(
    alloc: Global,
    parts: &GameParts,
    seats: u8,
    tape: &mut Tape,
) -> Result<Table, HookHalt>
    requires { is_quiet parts.now ≡ true }
    ensures deed { Opens result tape.new.left (opened parts.now seats tape.old.left) }
    ensures follows { Follows tape.old tape.new }
{
    let table = started(alloc, &parts.layout.rows, seats)?;
    let context = opening_context(alloc, seats);
    let scene = scene_at(parts, &context, None, &[]);
    let mut events = EventQueue::new();
    let opened = perform(alloc, &parts.setup, &scene, table, tape, &mut events);
    drop(context);
    opened
}

/// The context in which the first state is made.
fn opening_context(alloc: Global, seats: u8) -> Ctx
    ensures { result ≡ opening_context seats }
{
    Ctx {
        seats,
        turn: 0,
        current: 0,
        order: List::new(alloc),
        pos: 0,
        phase: None,
        active: None,
        moves: 0,
        over: None,
    }
}

/// The state that a piece of code leaves in a context; none where there is nothing to do.
pub(crate) fn run_hook(
    alloc: Global,
    piece: &Piece,
    scene: &Scene,
    table: &Table,
    tape: &mut Tape,
    events: &mut EventQueue,
) -> Result<Option<Table>, HookHalt>
    requires { events.old ≡ [] }
    ensures deed { Hooks result table.now tape.new.left events.new (performed piece.now (setting_of scene.now) table.now tape.old.left) }
    ensures follows { Follows tape.old tape.new }
{
    match &piece.code {
        Statement::Nothing => Ok(None),
        _ => {
            let table = table.copy(alloc)?;
            match perform(alloc, piece, scene, table, tape, events) {
                Ok(after) => Ok(Some(after)),
                Err(why) => Err(why),
            }
        }
    }
}

/// The code of a phase; none outside of one.
pub(crate) fn phase_code(parts: &GameParts, phase: Option<PhaseId>) -> Option<&PhaseCode>
    ensures { option_copied result ≡ phase_code parts.now phase }
{
    match phase {
        Some(phase) => parts.phases.get(usize::from(phase.place())),
        None => None,
    }
}

/// What happens in the turns of a context: those of its phase, where that has its own.
pub(crate) fn turn_code<'a>(parts: &'a GameParts, context: &Ctx) -> &'a TurnCode
    ensures { result.now ≡ turn_code parts.now context.now }
{
    match phase_code(parts, context.phase) {
        Some(code) => match &code.turn {
            Some(turn) => turn,
            None => &parts.turn,
        },
        None => &parts.turn,
    }
}
