//! The rows of arguments that a group offers.

ghost use Rattle.std.specs.Prelude.{◌≡◌, ◌+◌, ◌<◌, ◌≤◌, ◌^◌, ◌++◌, IfOk, None, OnOk, length, slice_get, unwrap_or, ℕ};
ghost use Rattle.std.specs.List.{filter_map, range_with_len};
ghost use Rattle.std.specs.Option.{option_to_list};
ghost use Rattle.game_code.specs.Setting.{setting_of};
ghost use Rattle.described_game.specs.Offers.{group_numbers, group_row, group_width, is_among, kind_count, kind_item, listed_count, listed_item, listed_items, rows_count, value_count, value_item};
ghost use Rattle.described_game.specs.Rising.{Rises, number_below};

use crate::parts::{ArgumentGroup, ArgumentKind, ArgumentRow, ListedRow};
use crate::ranges::{capped, push_ranges, push_value, range_count, range_item, rows_count};
use crate::scenes::value_at;
use game_code::{Locals, Scene, Sight, evaluate};
use game_sheet::{Arg, Args, List, NoMemory};
use game_slots::{Items, Table};
use slot_values::{Value, count_between, number_of};
use std::alloc::Global;

/// How many values of an argument are offered.
pub(crate) fn value_count(row: &ArgumentRow) -> u32
    ensures { result ≡ value_count row.now }
{
    match &row.offers {
        Some(items) => capped(items.len() as u64),
        None => kind_count(&row.kind),
    }
}

fn kind_count(kind: &ArgumentKind) -> u32
    ensures { result ≡ kind_count kind.now }
{
    match kind {
        ArgumentKind::Number(range) => range_count(range),
        ArgumentKind::Text => 0,
    }
}

/// The value of an argument that is offered at a place; null where none is.
fn value_item(row: &ArgumentRow, place: u32) -> Value
    ensures { result ≡ value_item row.now place }
{
    match &row.offers {
        Some(items) => item_at(items, place as usize),
        None => kind_item(&row.kind, place),
    }
}

fn item_at(items: &Items, place: usize) -> Value
    ensures { result ≡ unwrap_or (slice_get items.now place) None }
{
    if place < items.len() {
        items.item(place)
    } else {
        None
    }
}

fn kind_item(kind: &ArgumentKind, place: u32) -> Value
    ensures { result ≡ kind_item kind.now place }
{
    match kind {
        ArgumentKind::Number(range) => range_item(range, place),
        ArgumentKind::Text => None,
    }
}

/// A row with the row of a group with a number behind it.
pub(crate) fn longer_row(row: &Args, group: &ArgumentGroup, number: u32) -> Args
    requires { length row.now + group_width group.now ≤ 8 }
    ensures value { result ≡ row.now ++ group_row group.now number }
    ensures width { length result ≤ length row.now + group_width group.now }
{
    let mut longer = row.copy();
    push_group(group, number, &mut longer);
    longer
}

/// Adds the row of a group with a number, where it has one.
fn push_group(group: &ArgumentGroup, number: u32, row: &mut Args)
    requires { length row.old + group_width group.now ≤ 8 }
    ensures value { row.new ≡ row.old ++ group_row group.now number }
    ensures width { length row.new ≤ length row.old + group_width group.now }
{
    match group {
        ArgumentGroup::One(argument) => push_value(&value_item(argument, number), row),
        ArgumentGroup::Listed(listed) => {
            let ranges = listed.ranges.as_slice();
            if number < rows_count(ranges) {
                push_ranges(ranges, number, row);
            }
        }
    }
}

/// The numbers of the rows that a group offers.
pub(crate) fn group_numbers(
    alloc: Global,
    group: &ArgumentGroup,
    scene: &Scene,
    table: &Table,
) -> Result<List<u32>, NoMemory>
    ensures { IfOk result (λ numbers. numbers ≡ group_numbers group.now (setting_of scene.now) table.now) }
{
    match group {
        ArgumentGroup::One(argument) => numbers_below(alloc, value_count(argument)),
        ArgumentGroup::Listed(listed) => {
            let found = numbers_listed(alloc, listed, scene, table)?;
            Ok(in_order(found))
        }
    }
}

/// The numbers from 0 on, so many.
fn numbers_below(alloc: Global, count: u32) -> Result<List<u32>, NoMemory>
    ensures { IfOk result (λ numbers. numbers ≡ range_with_len 0 count) }
{
    let mut numbers = List::new(alloc);
    for number in 0..count {
        numbers.push(number)?;
    }
    Ok(numbers)
}

/// The items of the list that are numbers of rows, as they stand there.
fn numbers_listed(
    alloc: Global,
    row: &ListedRow,
    scene: &Scene,
    table: &Table,
) -> Result<Vec<u32>, NoMemory>
    ensures { IfOk result (λ found. found.items ≡ filter_map (number_below (rows_count row.now.ranges)) (listed_items row.now (setting_of scene.now) table.now)) }
{
    let count = rows_count(row.ranges.as_slice());
    let mut found = Vec::new(alloc);
    for place in 0..listed_count(row, scene, table) {
        let item = listed_item(row, scene, table, place);
        push_found(number_below(count, &item), &mut found)?;
    }
    Ok(found)
}

/// Adds a number, where there is one.
fn push_found(number: Option<u32>, found: &mut Vec<u32>) -> Result<(), NoMemory>
    ensures { OnOk result (found.new.items ≡ found.old.items ++ option_to_list number) }
{
    match number {
        Some(number) => Ok(found.push(number)?),
        None => Ok(()),
    }
}

/// How many items the list has, as far as they are looked at.
fn listed_count(row: &ListedRow, scene: &Scene, table: &Table) -> u32
    ensures value { result ≡ listed_count row.now (setting_of scene.now) table.now }
    ensures small { result < 2 ^ 16 }
{
    let length = number_of(&value_at(&row.length, scene, table));
    count_between(u32::from(row.most), Some(0), length)
}

/// The item of the list at a place.
fn listed_item(row: &ListedRow, scene: &Scene, table: &Table, place: u32) -> Value
    requires { place < 2 ^ 16 }
    ensures { result ≡ listed_item row.now (setting_of scene.now) table.now place }
{
    let sight = Sight {
        scene: &*scene,
        table,
        work: &[],
    };
    let place = Some(Arg::Whole(place as i32));
    evaluate(&row.item, &sight, &Locals::With(place, &Locals::Empty))
}

/// A value as a number below a count.
fn number_below(count: u32, value: &Value) -> Option<u32>
    ensures { result ≡ number_below count value.now }
{
    match value {
        Some(Arg::Whole(number)) => {
            if *number >= 0 && (*number as u32) < count {
                Some(*number as u32)
            } else {
                None
            }
        }
        _ => None,
    }
}

/// The same numbers in rising order, each once.
fn in_order(numbers: Vec<u32>) -> List<u32>
    ensures rises { Rises 0 result }
    ensures same { (n : ℕ) → is_among result n ≡ is_among numbers.items n }
{
    let mut numbers = numbers;
    numbers.sort_unstable();
    numbers.dedup();
    List::from_vec(numbers)
}
