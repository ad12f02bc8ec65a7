//! What the code of a game is given, and values of its expressions.

ghost use Rattle.std.specs.Prelude.{◌≡◌, []};
ghost use Rattle.game_code.specs.Meaning.{value_of};
ghost use Rattle.game_code.specs.Setting.{setting_of};
ghost use Rattle.slot_values.specs.Values.{is_true};
ghost use Rattle.described_game.specs.Moves.{setting_at};

use crate::parts::GameParts;
use game_code::{Expression, Locals, Scene, Sight, evaluate};
use game_sheet::{Arg, Ctx, Seat};
use game_slots::Table;
use slot_values::{Value, is_true};

/// What the code of a game is given in a context, with a seat that moves and arguments.
pub(crate) fn scene_at<'a>(
    parts: &'a GameParts,
    context: &'a Ctx,
    seat: Option<Seat>,
    arguments: &'a [Arg],
) -> Scene<'a>
    ensures { setting_of result ≡ setting_at parts.now context.now seat arguments.now }
{
    Scene {
        context,
        seat,
        arguments,
        constants: parts.constants.as_slice(),
        rows: &parts.layout.rows,
        work: &[],
    }
}

/// The value of an expression on a state, without slots of work and local values.
pub(crate) fn value_at(expression: &Expression, scene: &Scene, table: &Table) -> Value
    ensures { result ≡ value_of expression.now (setting_of scene.now) table.now [] [] }
{
    let sight = Sight {
        scene: &*scene,
        table,
        work: &[],
    };
    evaluate(expression, &sight, &Locals::Empty)
}

/// Whether a condition holds on a state.
pub(crate) fn holds(condition: &Expression, scene: &Scene, table: &Table) -> bool
    ensures { result ≡ is_true (value_of condition.now (setting_of scene.now) table.now [] []) }
{
    is_true(&value_at(condition, scene, table))
}
