//! Seats, or null in place of one.

ghost use Rattle.std.specs.Prelude.{◌≡◌, ◌++◌, OnOk, false};
ghost use Rattle.serde_json.specs.Find.{get};
ghost use Rattle.serde_json.specs.View.{view};
ghost use Rattle.serde_json.specs.Written.{has_float, compact_text};
ghost use Rattle.json_tree.specs.Fields.{natural_in};
ghost use Rattle.sheet_json.specs.Seats.{natural_or_null, IsWithin, is_null_in, or_null};

use game_sheet::{NoMemory, Seat};
use json_text::{put_natural, put_null};
use json_tree::{FieldFault, natural_of};
use serde_json::Value;

/// Whether the object has this member, and it is null.
pub fn is_null(value: &Value, name: &str) -> bool
    ensures { result ≡ is_null_in (get name.now (view value.now)) }
{
    match value.get(name) {
        Some(member) => member.is_null(),
        None => false,
    }
}

/// The seat of the member, from 0 to 255, or none where it is null.
pub fn seat_or_null_of(value: &Value, name: &str) -> Result<Option<Seat>, FieldFault>
    ensures { result ≡ or_null (natural_in 255) (get name.now (view value.now)) }
{
    if is_null(value, name) {
        return Ok(None);
    }
    let seat = natural_of(value, name, 255)?;
    Ok(Some(seat as u8))
}

/// The number of a seat, or null where there is none.
pub fn seat_value(seat: Option<Seat>) -> Value
    ensures value { view result ≡ natural_or_null seat }
    ensures no_float { has_float (natural_or_null seat) ≡ false }
    ensures fits { IsWithin 255 seat }
{
    match seat {
        Some(seat) => Value::from(seat),
        None => Value::Null,
    }
}

/// Appends the number of a seat, or null where there is none.
pub fn put_seat(out: &mut Vec<u8>, seat: Option<Seat>) -> Result<(), NoMemory>
    ensures { OnOk result (out.new.items ≡ out.old.items ++ compact_text (natural_or_null seat)) }
{
    match seat {
        Some(seat) => Ok(put_natural(out, u64::from(seat))?),
        None => Ok(put_null(out)?),
    }
}
