//! What is made of two values.

ghost use Rattle.std.specs.Prelude.{◌≡◌, ◌+ℤ◌, ◌-ℤ◌, ◌*ℤ◌, ◌≤ℤ◌, int_le, int_lt, pos};
ghost use Rattle.std.specs.Int.{int_div_euclid, int_rem_euclid};
ghost use Rattle.slot_values.specs.Operators.{both_choose, both_divide, both_hold, both_make, fitted, is_at_least, operate};

use crate::numbers::{Number, number_of, whole};
use crate::value::{Operator, Value, same_values, truth};

/// What an operator makes of two values.
pub fn operate(operator: Operator, a: &Value, b: &Value) -> Value
    ensures { result ≡ operate operator a.now b.now }
{
    match operator {
        Operator::Plus => whole(sum(number_of(a), number_of(b))),
        Operator::Minus => whole(difference(number_of(a), number_of(b))),
        Operator::Times => whole(product(number_of(a), number_of(b))),
        Operator::Over => whole(quotient(number_of(a), number_of(b))),
        Operator::Rest => whole(rest(number_of(a), number_of(b))),
        Operator::Least => whole(least(number_of(a), number_of(b))),
        Operator::Greatest => whole(greatest(number_of(a), number_of(b))),
        Operator::Less => truth(is_less(number_of(a), number_of(b))),
        Operator::AtMost => truth(is_at_most(number_of(a), number_of(b))),
        Operator::Equal => truth(same_values(a, b)),
    }
}

/// The number, where it is one of 32 bits.
fn narrow(number: i64) -> Number
    ensures { result ≡ fitted number }
{
    if number >= -2_147_483_648 && number <= 2_147_483_647 {
        Some(number as i32)
    } else {
        None
    }
}

/// Whether a number is less than another; false where one is missing.
pub fn is_less(a: Number, b: Number) -> bool
    ensures { result ≡ both_hold int_lt a b }
{
    match (a, b) {
        (Some(x), Some(y)) => x < y,
        _ => false,
    }
}

/// Whether a number is at most another; false where one is missing.
pub fn is_at_most(a: Number, b: Number) -> bool
    ensures { result ≡ both_hold int_le a b }
{
    match (a, b) {
        (Some(x), Some(y)) => x <= y,
        _ => false,
    }
}

fn least(a: Number, b: Number) -> Number
    ensures { result ≡ both_choose int_le a b }
{
    match (a, b) {
        (Some(x), Some(y)) => if x <= y { Some(x) } else { Some(y) },
        _ => None,
    }
}

fn greatest(a: Number, b: Number) -> Number
    ensures { result ≡ both_choose is_at_least a b }
{
    match (a, b) {
        (Some(x), Some(y)) => if y <= x { Some(x) } else { Some(y) },
        _ => None,
    }
}

/// The sum of two numbers; none where one is missing, or where it isn't of 32 bits.
pub fn sum(a: Number, b: Number) -> Number
    ensures { result ≡ both_make (λ x y. x +ℤ y) a b }
{
    match (a, b) {
        (Some(x), Some(y)) => narrow(i64::from(x) + i64::from(y)),
        _ => None,
    }
}

fn difference(a: Number, b: Number) -> Number
    ensures { result ≡ both_make (λ x y. x -ℤ y) a b }
{
    match (a, b) {
        (Some(x), Some(y)) => narrow(i64::from(x) - i64::from(y)),
        _ => None,
    }
}

/// The product of two numbers; none where one is missing, or where it isn't of 32 bits.
pub fn product(a: Number, b: Number) -> Number
    ensures { result ≡ both_make (λ x y. x *ℤ y) a b }
{
    match (a, b) {
        (Some(x), Some(y)) => narrow(times(x, y)),
        _ => None,
    }
}

/// A product of two numbers of 32 bits, which fits 64 bits.
fn times(x: i32, y: i32) -> i64
    ensures { result ≡ x *ℤ y }
{
    i64::from(x) * i64::from(y)
}

/// The quotient, rounded down; none where the divisor is below 1.
fn quotient(a: Number, b: Number) -> Number
    ensures { result ≡ both_divide int_div_euclid a b }
{
    match (a, b) {
        (Some(x), Some(y)) => { if y >= 1 { narrow(over(x, y)) } else { None } }
        _ => None,
    }
}

/// What a division rounded down leaves; none where the divisor is below 1.
fn rest(a: Number, b: Number) -> Number
    ensures { result ≡ both_divide int_rem_euclid a b }
{
    match (a, b) {
        (Some(x), Some(y)) => {
            if y >= 1 {
                narrow(left_over(x, y))
            } else {
                None
            }
        }
        _ => None,
    }
}

fn over(x: i32, y: i32) -> i64
    requires { pos 1 ≤ℤ y }
    ensures { result ≡ int_div_euclid x y }
{
    i64::from(x).div_euclid(i64::from(y))
}

fn left_over(x: i32, y: i32) -> i64
    requires { pos 1 ≤ℤ y }
    ensures { result ≡ int_rem_euclid x y }
{
    i64::from(x).rem_euclid(i64::from(y))
}
