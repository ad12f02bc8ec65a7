//! How a match, a turn and a phase end by themselves.

ghost use Rattle.std.specs.Prelude.{◌≡◌};
ghost use Rattle.game_code.specs.Setting.{setting_of};
ghost use Rattle.described_game.specs.Hooks.{end_by, ends_by, first_end, match_over, phase_over, turn_over};

use crate::hooks::{phase_code, turn_code};
use crate::parts::{EndCode, EndKind, GameParts};
use crate::scenes::{holds, scene_at, value_at};
use game_code::{Expression, Scene, seat_in};
use game_sheet::{Ctx, Outcome};
use game_slots::Table;
use slot_values::{Value, is_true};

/// How the match ends in this state; none where it goes on.
pub(crate) fn match_over(parts: &GameParts, table: &Table, context: &Ctx) -> Option<Outcome>
    ensures { result ≡ match_over parts.now table.now context.now }
{
    let scene = scene_at(parts, context, None, &[]);
    first_end(parts.ends.as_slice(), &scene, table)
}

/// What the first that ends the match says.
fn first_end(ends: &[EndCode], scene: &Scene, table: &Table) -> Option<Outcome>
    ensures { result ≡ first_end ends.now (setting_of scene.now) table.now }
{
    for code in ends {
        let value = value_at(&code.value, scene, table);
        let outcome = end_by(code.kind, scene.context.seats, &value);
        if outcome.is_some() {
            return outcome;
        }
    }
    None
}

/// How a value ends a match of so many seats, if it does.
fn end_by(kind: EndKind, seats: u8, value: &Value) -> Option<Outcome>
    ensures { result ≡ end_by kind seats value.now }
{
    match kind {
        EndKind::Winner => match seat_in(seats, value) {
            Some(seat) => Some(Outcome::Winner(seat)),
            None => None,
        },
        EndKind::Draw => {
            if is_true(value) {
                Some(Outcome::Draw)
            } else {
                None
            }
        }
        EndKind::Ended => {
            if is_true(value) {
                Some(Outcome::Ended)
            } else {
                None
            }
        }
    }
}

/// Whether the turn ends in this state.
pub(crate) fn turn_over(parts: &GameParts, table: &Table, context: &Ctx) -> bool
    ensures { result ≡ turn_over parts.now table.now context.now }
{
    let scene = scene_at(parts, context, None, &[]);
    ends_by(&turn_code(parts, context).end_if, &scene, table)
}

/// Whether the phase ends in this state.
pub(crate) fn phase_over(parts: &GameParts, table: &Table, context: &Ctx) -> bool
    ensures { result ≡ phase_over parts.now table.now context.now }
{
    let scene = scene_at(parts, context, None, &[]);
    match phase_code(parts, context.phase) {
        Some(code) => ends_by(&code.end_if, &scene, table),
        None => false,
    }
}

/// Whether a condition holds, where there is one.
fn ends_by(condition: &Option<Expression>, scene: &Scene, table: &Table) -> bool
    ensures { result ≡ ends_by condition.now (setting_of scene.now) table.now }
{
    match condition {
        Some(condition) => holds(condition, scene, table),
        None => false,
    }
}
