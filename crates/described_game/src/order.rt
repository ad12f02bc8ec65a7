//! The play order that a slot says.

ghost use Rattle.std.specs.Prelude.{◌≡◌, IfOk};
ghost use Rattle.described_game.specs.Hooks.{seats_among, seats_ordered};

use crate::hooks::turn_code;
use crate::parts::GameParts;
use game_code::seat_in;
use game_sheet::{Ctx, List, NoMemory, Seat};
use game_slots::{Items, Table};
use std::alloc::Global;

/// The items of the slot that the turns of a context name which are seats of the match; none where they name none.
pub(crate) fn seats_ordered(
    alloc: Global,
    parts: &GameParts,
    table: &Table,
    context: &Ctx,
) -> Result<List<Seat>, NoMemory>
    ensures { IfOk result (λ order. order ≡ seats_ordered parts.now table.now context.now) }
{
    let Some(slot) = turn_code(parts, context).order else {
        return Ok(List::new(alloc));
    };
    match table.common.get(slot) {
        Some(items) => seats_among(alloc, context.seats, items),
        None => Ok(List::new(alloc)),
    }
}

/// Those items that are seats of a match of so many.
fn seats_among(alloc: Global, seats: u8, items: &Items) -> Result<List<Seat>, NoMemory>
    ensures { IfOk result (λ order. order ≡ seats_among seats items.now) }
{
    let mut order = List::new(alloc);
    for place in 0..items.len() {
        if let Some(seat) = seat_in(seats, &items.item(place)) {
            order.push(seat)?;
        }
    }
    Ok(order)
}
