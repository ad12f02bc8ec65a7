//! The lists that code names, and places in grids.

ghost use Rattle.std.specs.Prelude.{◌≡◌, map, option_copied};
ghost use Rattle.game_slots.specs.Slots.{item_in, length_of};
ghost use Rattle.game_code.specs.Meaning.{cell_place, held_items, is_cell, list_item, list_items, list_length, place_value};
ghost use Rattle.game_code.specs.Setting.{setting_of};

use crate::expression::ItemList;
use crate::scene::Sight;
use crate::words::place_value;
use game_sheet::Seat;
use game_slots::{Items, SlotPlace, items_at, place_in};
use slot_values::{Number, Value, is_at_most, is_less, product, sum};

/// The item of a list, of a seat, at a place.
pub(crate) fn list_item(list: ItemList, seat: Number, at: Number, sight: &Sight) -> Value
    ensures { result ≡ list_item (list_items list seat (setting_of sight.now.scene.now) sight.now.table.now sight.now.work.now) at }
{
    match list {
        ItemList::Order => order_item(sight.scene.context.order.as_slice(), at),
        _ => item_of(held_items(list, seat, sight), at),
    }
}

/// How many items a list, of a seat, has.
pub(crate) fn list_length(list: ItemList, seat: Number, sight: &Sight) -> Number
    ensures { result ≡ list_length (list_items list seat (setting_of sight.now.scene.now) sight.now.table.now sight.now.work.now) }
{
    match list {
        ItemList::Order => order_length(sight.scene.context.order.as_slice()),
        _ => length_of(held_items(list, seat, sight)),
    }
}

fn item_of(items: Option<&Items>, at: Number) -> Value
    ensures { result ≡ list_item (option_copied items.entry) at }
{
    match items {
        Some(items) => items.get(at),
        None => None,
    }
}

fn length_of(items: Option<&Items>) -> Number
    ensures { result ≡ list_length (option_copied items.entry) }
{
    match items {
        Some(items) => items.count(),
        None => Some(0),
    }
}

/// The items of a list but the play order; none where it isn't there.
fn held_items<'a>(list: ItemList, seat: Number, sight: &Sight<'a>) -> Option<&'a Items>
    ensures { option_copied result ≡ held_items list seat (setting_of sight.now.scene.now) sight.now.table.now sight.now.work.now }
{
    match list {
        ItemList::Common(slot) => items_at(sight.table, sight.work, SlotPlace::Common(slot)),
        ItemList::Player(slot) => items_at(sight.table, sight.work, SlotPlace::Player(seat, slot)),
        ItemList::Secret(slot) => items_at(sight.table, sight.work, SlotPlace::Secret(slot)),
        ItemList::Work(slot) => items_at(sight.table, sight.work, SlotPlace::Work(slot)),
        ItemList::Constant(row) => sight.scene.constants.get(usize::from(row)),
        ItemList::Order => None,
    }
}

fn order_item(order: &[Seat], at: Number) -> Value
    ensures { result ≡ item_in (map place_value order.now) at }
{
    match place_in(at, order.len()) {
        Some(place) => place_value(order[place]),
        None => None,
    }
}

fn order_length(order: &[Seat]) -> Number
    ensures { result ≡ length_of (map place_value order.now) }
{
    if order.len() < 2_147_483_648 {
        Some(order.len() as i32)
    } else {
        None
    }
}

/// The place of a row and a column in a grid of so many columns; none where there is no such row or column.
pub(crate) fn cell_place(columns: u16, row: Number, column: Number) -> Number
    ensures { result ≡ cell_place columns row column }
{
    if is_cell(columns, row, column) {
        sum(product(row, Some(i32::from(columns))), column)
    } else {
        None
    }
}

fn is_cell(columns: u16, row: Number, column: Number) -> bool
    ensures { result ≡ is_cell columns row column }
{
    is_at_most(Some(0), row)
        && is_at_most(Some(0), column)
        && is_less(column, Some(i32::from(columns)))
}
