//! Values.

ghost use Rattle.std.specs.Prelude.{◌≡◌, ◌↔◌, ◌&&◌, int_le, IsTrue};
ghost use Rattle.std.specs.Str.{bytes_eq};
ghost use Rattle.slot_values.specs.Values.{is_true, same_values, truth};

use game_sheet::{Arg, Short};

/// A value of code: a whole number of 32 bits with sign, a short text, or null, which is none.
pub type Value = Option<Arg>;

/// What is made of two values. All but `Equal` want numbers.
#[derive(Clone, Copy)]
pub enum Operator {
    /// The sum; null where it isn't of 32 bits.
    Plus,
    /// The difference; null where it isn't of 32 bits.
    Minus,
    /// The product; null where it isn't of 32 bits.
    Times,
    /// The quotient, rounded down; null where the divisor is below 1.
    Over,
    /// What a division rounded down leaves, from 0 on; null where the divisor is below 1.
    Rest,
    /// The lesser of two numbers.
    Least,
    /// The greater of two numbers.
    Greatest,
    /// Whether the first number is less than the second.
    Less,
    /// Whether the first number is at most the second.
    AtMost,
    /// Whether both are the same number, the same text, or null.
    Equal,
}

/// What is gathered from an expression over a span of numbers.
#[derive(Clone, Copy)]
pub enum Gather {
    /// Whether it is true at one of them.
    Any,
    /// The first at which it is true; null where it is true at none.
    First,
    /// The sum of its values that are numbers; null once it isn't of 32 bits.
    Sum,
    /// The greatest of its values that are numbers; null where none is.
    Greatest,
}

/// Whether a value is true: a number other than 0.
pub fn is_true(value: &Value) -> bool
    ensures { result ≡ is_true value.now }
{
    match value {
        Some(Arg::Whole(number)) => *number != 0,
        _ => false,
    }
}

/// A truth as a value: 1 or 0.
pub fn truth(holds: bool) -> Value
    ensures { result ≡ truth holds }
{
    if holds {
        Some(Arg::Whole(1))
    } else {
        Some(Arg::Whole(0))
    }
}

/// Whether two values are the same.
pub fn same_values(one: &Value, other: &Value) -> bool
    ensures value { result ≡ same_values one.now other.now }
    ensures equal { IsTrue result ↔ (one.now ≡ other.now) }
{
    match (one, other) {
        (Some(Arg::Whole(x)), Some(Arg::Whole(y))) => same_numbers(*x, *y),
        (Some(Arg::Text(x)), Some(Arg::Text(y))) => same_texts(x, y),
        (None, None) => true,
        _ => false,
    }
}

fn same_numbers(one: i32, other: i32) -> bool
    ensures value { result ≡ (int_le one other && int_le other one) }
    ensures equal { IsTrue result ↔ (one ≡ other) }
{
    one == other
}

fn same_texts(one: &Short, other: &Short) -> bool
    ensures value { result ≡ bytes_eq one.now other.now }
    ensures equal { IsTrue result ↔ (one.now ≡ other.now) }
{
    one.as_str() == other.as_str()
}
