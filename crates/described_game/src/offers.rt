//! The moves that a seat is offered.

ghost use Rattle.std.specs.Prelude.{◌≡◌, ◌+◌, ◌≤◌, ◌++◌, ◌∷◌, [], IfOk, OnOk, Some, length, map, true};
ghost use Rattle.game_code.specs.Setting.{setting_of};
ghost use Rattle.described_game.specs.Offers.{all_offers, group_numbers, is_among, kept_rows, move_offers, rows_after, with_arguments};
ghost use Rattle.described_game.specs.Tests.{groups_fit, offers_small, width_of};

use crate::groups::{group_numbers, longer_row};
use crate::lists::rest_of;
use crate::moves::is_allowed;
use crate::parts::{ArgumentGroup, GameParts, MoveCode};
use crate::scenes::scene_at;
use game_code::Scene;
use game_sheet::{Arg, Args, Ctx, List, MoveId, NoMemory, Seat};
use game_slots::Table;
use stage_map::moves_of;
use std::alloc::Global;

/// A move that is asked about, with the seat of a scene, on a state.
#[derive(Clone, Copy)]
struct Offering<'a> {
    code: &'a MoveCode,
    id: MoveId,
    scene: &'a Scene<'a>,
    table: &'a Table,
}

/// Each move that the seat has, in the order of the sheet, with each row of arguments with which it is offered.
pub(crate) fn all_offers(
    alloc: Global,
    parts: &GameParts,
    table: &Table,
    context: &Ctx,
    seat: Seat,
) -> Result<List<(MoveId, Args)>, NoMemory>
    requires few { length parts.now.moves ≤ 64 }
    requires small { offers_small parts.now ≡ true }
    ensures { IfOk result (λ offers. offers ≡ all_offers parts.now table.now context.now seat) }
{
    let ids = moves_of(&parts.sheet, context, seat);
    let scene = scene_at(parts, context, Some(seat), &[]);
    let mut offers = List::new(alloc);
    for (place, code) in parts.moves.as_slice().iter().enumerate() {
        let id = MoveId::at(place as u8);
        if is_among(ids, id) {
            add_offers(alloc, code, id, &scene, table, &mut offers)?;
        }
    }
    Ok(offers)
}

/// Whether a move is among these.
fn is_among(ids: &[MoveId], id: MoveId) -> bool
    ensures { result ≡ is_among ids.now id }
{
    ids.iter().any(|known| known.place() == id.place())
}

/// Adds what is offered of a move, with the seat of a scene.
fn add_offers(
    alloc: Global,
    code: &MoveCode,
    id: MoveId,
    scene: &Scene,
    table: &Table,
    offers: &mut List<(MoveId, Args)>,
) -> Result<(), NoMemory>
    requires { groups_fit code.now.arguments ≡ true }
    ensures { OnOk result (offers.new ≡ offers.old ++ move_offers code.now id (setting_of scene.now) table.now) }
{
    let groups = code.arguments.as_slice();
    let numbers = all_numbers(alloc, groups, scene, table)?;
    let offering = Offering {
        code,
        id,
        scene: &*scene,
        table,
    };
    let added = add_rows(&offering, groups, numbers.as_slice(), &Args::new(), offers);
    drop(numbers);
    added
}

/// The numbers of the rows that each group offers.
fn all_numbers(
    alloc: Global,
    groups: &[ArgumentGroup],
    scene: &Scene,
    table: &Table,
) -> Result<List<List<u32>>, NoMemory>
    ensures { IfOk result (λ numbers. numbers ≡ map (λ group. group_numbers group (setting_of scene.now) table.now) groups.now) }
{
    let mut numbers = List::new(alloc);
    for group in groups {
        numbers.push(group_numbers(alloc, group, scene, table)?)?;
    }
    Ok(numbers)
}

/// Adds what is offered of the rows that begin with this one and have then one row of each group.
fn add_rows(
    offering: &Offering,
    groups: &[ArgumentGroup],
    numbers: &[List<u32>],
    row: &Args,
    offers: &mut List<(MoveId, Args)>,
) -> Result<(), NoMemory>
    requires { length row.now + width_of groups.now ≤ 8 }
    ensures { OnOk result (offers.new ≡ offers.old ++ kept_rows offering.now.code.now offering.now.id (setting_of offering.now.scene.now) offering.now.table.now (rows_after row.now groups.now numbers.now)) }
{
    match groups {
        [] => add_row(offering, row, offers),
        [group, ..] => match numbers {
            [] => Ok(()),
            [some, ..] => {
                let choices = some.as_slice();
                for number in choices {
                    let longer = longer_row(row, group, *number);
                    add_rows(offering, rest_of(groups), rest_of(numbers), &longer, offers)?;
                }
                Ok(())
            }
        },
    }
}

/// Adds a row, where the move is allowed with it.
fn add_row(
    offering: &Offering,
    row: &Args,
    offers: &mut List<(MoveId, Args)>,
) -> Result<(), NoMemory>
    ensures { OnOk result (offers.new ≡ offers.old ++ kept_rows offering.now.code.now offering.now.id (setting_of offering.now.scene.now) offering.now.table.now (row.now ∷ [])) }
{
    let scene = with_arguments(offering.scene, row.as_slice());
    if is_allowed(offering.code, &scene, offering.table) {
        offers.push((offering.id, row.copy()))
    } else {
        Ok(())
    }
}

/// A scene with other arguments.
fn with_arguments<'a>(scene: &Scene<'a>, arguments: &'a [Arg]) -> Scene<'a>
    ensures { setting_of result ≡ with_arguments (setting_of scene.now) arguments.now }
{
    Scene {
        context: scene.context,
        seat: scene.seat,
        arguments,
        constants: scene.constants,
        rows: scene.rows,
        work: scene.work,
    }
}
