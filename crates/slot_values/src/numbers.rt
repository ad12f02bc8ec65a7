//! Values as numbers.

ghost use Rattle.std.specs.Prelude.{◌≡◌};
ghost use Rattle.slot_values.specs.Values.{number_of, whole};

use crate::value::Value;
use game_sheet::Arg;

/// A number of code; none is null.
pub type Number = Option<i32>;

/// The number that a value is; none where it is null or a text.
pub fn number_of(value: &Value) -> Number
    ensures { result ≡ number_of value.now }
{
    match value {
        Some(Arg::Whole(number)) => Some(*number),
        _ => None,
    }
}

/// A number as a value.
pub fn whole(number: Number) -> Value
    ensures { result ≡ whole number }
{
    match number {
        Some(number) => Some(Arg::Whole(number)),
        None => None,
    }
}
