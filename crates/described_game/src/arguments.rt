//! Whether arguments are right for a move.

ghost use Rattle.std.specs.Prelude.{◌≡◌, option_map};
ghost use Rattle.described_game.specs.Arguments.{argument_fits, arguments_fit, group_rest, in_range, one_rest, ranges_rest};

use crate::lists::rest_of;
use crate::parts::{ArgumentGroup, ArgumentKind, NumberRange};
use game_sheet::Arg;

/// Whether arguments are right in number, kind and range, in a match of so many seats.
pub(crate) fn arguments_fit(seats: u8, groups: &[ArgumentGroup], arguments: &[Arg]) -> bool
    ensures { result ≡ arguments_fit seats groups.now arguments.now }
{
    match groups {
        [] => arguments.is_empty(),
        [group, ..] => match group_rest(seats, group, arguments) {
            Some(left) => arguments_fit(seats, rest_of(groups), left),
            None => false,
        },
    }
}

/// What is left of arguments behind those of a group; none where they aren't right for it.
fn group_rest<'a>(seats: u8, group: &ArgumentGroup, arguments: &'a [Arg]) -> Option<&'a [Arg]>
    ensures { option_map (λ left. left.now) result ≡ group_rest seats group.now arguments.now }
{
    match group {
        ArgumentGroup::One(row) => one_rest(seats, &row.kind, arguments),
        ArgumentGroup::Listed(row) => ranges_rest(seats, row.ranges.as_slice(), arguments),
    }
}

fn one_rest<'a>(seats: u8, kind: &ArgumentKind, arguments: &'a [Arg]) -> Option<&'a [Arg]>
    ensures { option_map (λ left. left.now) result ≡ one_rest seats kind.now arguments.now }
{
    match arguments {
        [] => None,
        [argument, ..] => {
            if argument_fits(seats, kind, argument) {
                Some(rest_of(arguments))
            } else {
                None
            }
        }
    }
}

/// What is left of arguments behind those of some ranges; none where one of them isn't of its range.
fn ranges_rest<'a>(seats: u8, ranges: &[NumberRange], arguments: &'a [Arg]) -> Option<&'a [Arg]>
    ensures { option_map (λ left. left.now) result ≡ ranges_rest seats ranges.now arguments.now }
{
    match ranges {
        [] => Some(arguments),
        [range, ..] => match arguments {
            [] => None,
            [argument, ..] => {
                if argument_fits(seats, &ArgumentKind::Number(*range), argument) {
                    ranges_rest(seats, rest_of(ranges), rest_of(arguments))
                } else {
                    None
                }
            }
        },
    }
}

fn argument_fits(seats: u8, kind: &ArgumentKind, argument: &Arg) -> bool
    ensures { result ≡ argument_fits seats kind.now argument.now }
{
    match (kind, argument) {
        (ArgumentKind::Number(range), Arg::Whole(number)) => in_range(seats, range, *number),
        (ArgumentKind::Text, Arg::Text(_)) => true,
        _ => false,
    }
}

/// Whether a number is one of a range; one that is a seat is also a seat of the match.
fn in_range(seats: u8, range: &NumberRange, number: i32) -> bool
    ensures { result ≡ in_range seats range.now number }
{
    range.least <= number
        && number <= range.greatest
        && (if range.seat {
            0 <= number && number < i32::from(seats)
        } else {
            true
        })
}
