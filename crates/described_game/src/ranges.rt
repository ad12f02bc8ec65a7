//! Rows of numbers, one of each range.

ghost use Rattle.std.specs.Prelude.{◌≡◌, ◌+ℤ◌, ◌-ℤ◌, pos, ◌+◌, ◌*◌, ◌<◌, ◌≤◌, ◌++◌, length};
ghost use Rattle.std.specs.Option.{option_to_list};
ghost use Rattle.slot_values.specs.Spans.{to_nat};
ghost use Rattle.described_game.specs.Offers.{capped, range_count, range_item, range_row, rows_count};

use crate::lists::rest_of;
use crate::parts::NumberRange;
use game_sheet::{Arg, Args};
use slot_values::Value;

/// A count, as far as it is told apart.
pub(crate) fn capped(count: u64) -> u32
    ensures { result ≡ capped count }
{
    if count < 2_147_483_648 {
        count as u32
    } else {
        2_147_483_648
    }
}

/// A product of counts, as far as it is told apart.
pub(crate) fn times(one: u32, other: u32) -> u32
    ensures { result ≡ capped (one * other) }
{
    capped(u64::from(one) * u64::from(other))
}

/// How many numbers a range has.
pub(crate) fn range_count(range: &NumberRange) -> u32
    ensures { result ≡ range_count range.now }
{
    count_from(count_to(range.least, range.greatest))
}

/// How many numbers there are from one to another; 0 or below where the other is less.
fn count_to(least: i32, greatest: i32) -> i64
    ensures { result ≡ (greatest -ℤ least) +ℤ pos 1 }
{
    i64::from(greatest) - i64::from(least) + 1
}

/// A number as a count: none where it is below 0.
fn count_from(number: i64) -> u32
    ensures { result ≡ capped (to_nat number) }
{
    if number <= 0 {
        0
    } else {
        capped(number as u64)
    }
}

/// How many rows there are of one number of each range.
pub(crate) fn rows_count(ranges: &[NumberRange]) -> u32
    ensures { result ≡ rows_count ranges.now }
{
    match ranges {
        [] => 1,
        [range, ..] => times(range_count(range), rows_count(rest_of(ranges))),
    }
}

/// The number at a place of a range; null where it isn't of 32 bits.
pub(crate) fn range_item(range: &NumberRange, place: u32) -> Value
    ensures { result ≡ range_item range.now place }
{
    let number = i64::from(range.least) + i64::from(place);
    if number >= -2_147_483_648 && number <= 2_147_483_647 {
        Some(Arg::Whole(number as i32))
    } else {
        None
    }
}

/// Adds a value to a row, where it isn't null.
pub(crate) fn push_value(value: &Value, row: &mut Args)
    requires { length row.old < 8 }
    ensures value { row.new ≡ row.old ++ option_to_list value.now }
    ensures width { length row.new ≤ length row.old + 1 }
{
    if let Some(argument) = value {
        row.push(*argument);
    }
}

/// Adds the row of ranges with a number, where the last range goes fastest.
pub(crate) fn push_ranges(ranges: &[NumberRange], number: u32, row: &mut Args)
    requires number { number < rows_count ranges.now }
    requires room { length row.old + length ranges.now ≤ 8 }
    ensures value { row.new ≡ row.old ++ range_row ranges.now number }
    ensures width { length row.new ≤ length row.old + length ranges.now }
{
    if let [range, ..] = ranges {
        let rest = rest_of(ranges);
        let count = rows_count(rest);
        push_value(&range_item(range, number / count), row);
        push_ranges(rest, number % count, row);
    }
}
