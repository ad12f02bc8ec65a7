//! Spans of numbers, and what is gathered over one.

ghost use Rattle.std.specs.Prelude.{◌≡◌, min};
ghost use Rattle.slot_values.specs.Spans.{count_between, greatest_with, next, sum_with, to_nat};

use crate::numbers::Number;
use crate::operators::sum;

/// How many numbers there are from one to before another, at most so many; none where one of the two is missing.
pub fn count_between(most: u32, from: Number, to: Number) -> u32
    ensures { result ≡ count_between most from to }
{
    match (from, to) {
        (Some(from), Some(to)) => least_count(most, i64::from(to) - i64::from(from)),
        _ => 0,
    }
}

fn least_count(most: u32, between: i64) -> u32
    ensures { result ≡ min most (to_nat between) }
{
    if between <= 0 {
        0
    } else if between < i64::from(most) {
        between as u32
    } else {
        most
    }
}

/// The next number.
pub fn next(i: Number) -> Number
    ensures { result ≡ next i }
{
    sum(i, Some(1))
}

/// A sum with one number more, where there is one.
pub fn sum_with(so_far: Number, number: Number) -> Number
    ensures { result ≡ sum_with so_far number }
{
    match number {
        Some(number) => sum(so_far, Some(number)),
        None => so_far,
    }
}

/// The greater of two numbers, and where one is missing the other.
pub fn greatest_with(so_far: Number, number: Number) -> Number
    ensures { result ≡ greatest_with so_far number }
{
    match (so_far, number) {
        (Some(x), Some(y)) => if y <= x { Some(x) } else { Some(y) },
        (Some(x), None) => Some(x),
        (None, number) => number,
    }
}
