//! What moves do.

ghost use Rattle.std.specs.Prelude.{◌≡◌, [], Some, slice_get, option_copied};
ghost use Rattle.dice_words.specs.Strip.{Follows};
ghost use Rattle.game_code.specs.Runs.{performed};
ghost use Rattle.game_code.specs.Setting.{setting_of};
ghost use Rattle.game_trait.specs.Gives.{Gives};
ghost use Rattle.described_game.specs.Moves.{allowed, barred, halted, made, setting_at};

use crate::arguments::arguments_fit;
use crate::parts::MoveCode;
use crate::scenes::holds;
use dice_words::Tape;
use game_code::{Piece, Scene, perform};
use game_sheet::EventQueue;
use game_slots::Table;
use game_trait::{Halt, HookHalt};
use std::alloc::Global;

/// Whether a move is allowed, with the seat and the arguments of the scene: its arguments are right in number, kind and range,
/// and its condition holds.
pub(crate) fn is_allowed(code: &MoveCode, scene: &Scene, table: &Table) -> bool
    ensures { result ≡ allowed code.now (setting_of scene.now) table.now }
{
    arguments_fit(
        scene.context.seats,
        code.arguments.as_slice(),
        scene.arguments,
    ) && holds(&code.when, scene, table)
}

/// The state after a move; `Invalid` where it isn't allowed, and then no word was drawn.
pub(crate) fn make_move(
    alloc: Global,
    code: &MoveCode,
    scene: &Scene,
    table: &Table,
    tape: &mut Tape,
    events: &mut EventQueue,
) -> Result<Table, Halt>
    requires { events.old ≡ [] }
    ensures deed { Gives result tape.old.left tape.new.left events.new (made code.now (setting_of scene.now) table.now tape.old.left) }
    ensures follows { Follows tape.old tape.new }
{
    if is_allowed(code, scene, table) {
        do_move(alloc, &code.code, scene, table, tape, events)
    } else {
        Err(Halt::Invalid)
    }
}

/// The state that the code of a move leaves.
fn do_move(
    alloc: Global,
    piece: &Piece,
    scene: &Scene,
    table: &Table,
    tape: &mut Tape,
    events: &mut EventQueue,
) -> Result<Table, Halt>
    requires { events.old ≡ [] }
    ensures deed { Gives result tape.old.left tape.new.left events.new (barred (performed piece.now (setting_of scene.now) table.now tape.old.left)) }
    ensures follows { Follows tape.old tape.new }
{
    let table = table.copy(alloc)?;
    match perform(alloc, piece, scene, table, tape, events) {
        Ok(after) => Ok(after),
        Err(why) => Err(halted(why)),
    }
}

/// Why a move gives no state, where its code gives none.
fn halted(why: HookHalt) -> Halt
    ensures { result ≡ halted why }
{
    match why {
        HookHalt::Spent => Halt::Spent,
        HookHalt::Crowded => Halt::Crowded,
        HookHalt::NoMemory => Halt::NoMemory,
    }
}
