//! Parts of states as JSON: whole numbers, seats, and lists of them.

ghost use Rattle.std.specs.Prelude.{◌≡◌, ◌≤◌, ◌++◌, if◌then◌else◌, length, IfOk, IfSome, None, OnOk, Some, option_and_then, option_map};
ghost use Rattle.serde_json.specs.Find.{as_array, get};
ghost use Rattle.serde_json.specs.View.{items_view, view};
ghost use Rattle.serde_json.specs.Written.{compact_text};
ghost use Rattle.open_game.specs.Forms.{list_read, list_value, member_read, natural_read, seat_read, seat_value};
ghost use Rattle.json_tree.specs.Fields.{read_each};

use game_sheet::{List, NoMemory, Seat};
use json_text::{put_comma, put_natural, put_null};
use serde_json::Value;
use std::alloc::{AllocError, Global};

/// A small part of a state, as a number or a seat, whose values are in bounds up to a greatest number.
pub trait Part: Copy {
    ghost use Rattle.std.specs.Prelude.{ℕ, Option};
    ghost use Rattle.serde_json.specs.Data.{Data};

    /// How great it may be.
    ghost limit: { ℕ };

    /// What is written of it.
    ghost written: { Self → Data };

    /// What is read, up to a greatest number.
    ghost reading: { ℕ → Data → Option Self };

    /// The part as JSON.
    fn to_value(&self) -> Value
        ensures { view result ≡ written self.now };

    /// Appends the part's text.
    fn write(&self, out: &mut Vec<u8>) -> Result<(), AllocError>
        ensures { OnOk result (out.new.items ≡ out.old.items ++ compact_text (written self.now)) };

    /// The part that a value is, up to `most`; none where it is no such part.
    fn read(value: &Value, most: u32) -> Option<Self>
        requires { most ≤ limit }
        ensures { result ≡ reading most (view value.now) };
}

impl Part for u32 {
    ghost use Rattle.open_game.specs.Forms.{greatest};
    ghost use Rattle.serde_json.specs.Data.{number, unsigned};

    ghost limit = { greatest };

    ghost written = { λ n. number (unsigned n) };

    ghost reading = { natural_read };

    fn to_value(&self) -> Value {
        Value::from(*self)
    }

    fn write(&self, out: &mut Vec<u8>) -> Result<(), AllocError> {
        put_natural(out, u64::from(*self))
    }

    fn read(value: &Value, most: u32) -> Option<u32> {
        match value.as_u64() {
            Some(n) if n <= u64::from(most) => Some(n as u32),
            _ => None,
        }
    }
}

/// A seat, or null where there is none.
impl Part for Option<Seat> {
    ghost limit = { 255 };

    ghost written = { seat_value };

    ghost reading = { seat_read };

    fn to_value(&self) -> Value {
        match self {
            Some(seat) => Value::from(*seat),
            None => Value::Null,
        }
    }

    fn write(&self, out: &mut Vec<u8>) -> Result<(), AllocError> {
        match self {
            Some(seat) => put_natural(out, u64::from(*seat)),
            None => put_null(out),
        }
    }

    fn read(value: &Value, most: u32) -> Option<Option<Seat>> {
        if value.is_null() {
            return Some(None);
        }
        match value.as_u64() {
            Some(n) if n <= u64::from(most) => Some(Some(n as u8)),
            _ => None,
        }
    }
}

/// The part that a member of an object holds; none where the member is missing or holds no such part.
pub fn part_at<T: Part>(value: &Value, name: &str, most: u32) -> Option<T>
    requires { most ≤ T.limit }
    ensures { result ≡ member_read (T.reading most) name.now (view value.now) }
{
    match value.get(name) {
        Some(found) => T::read(found, most),
        None => None,
    }
}

/// The parts as a JSON array.
pub fn list_value<T: Part>(alloc: Global, parts: &[T]) -> Result<Value, AllocError>
    ensures { IfOk result (λ v. view v ≡ list_value T.written parts.now) }
{
    let mut values = Vec::new(alloc);
    for part in parts {
        values.push(part.to_value())?;
    }
    Ok(Value::Array(values))
}

/// Appends the parts' text, as that of a JSON array.
pub fn write_list<T: Part>(out: &mut Vec<u8>, parts: &[T]) -> Result<(), AllocError>
    ensures { OnOk result (out.new.items ≡ out.old.items ++ compact_text (list_value T.written parts.now)) }
{
    out.push(b'[')?;
    let mut later = false;
    for part in parts {
        put_comma(out, later)?;
        part.write(out)?;
        later = true;
    }
    out.push(b']')?;
    Ok(())
}

/// The list that a member of an object holds; none where it holds no array of `least` to `greatest` parts up to `most`.
pub fn list_at<T: Part + Drop>(
    alloc: Global,
    value: &Value,
    name: &str,
    least: usize,
    greatest: usize,
    most: u32,
) -> Result<Option<List<T>>, NoMemory>
    requires { most ≤ T.limit }
    ensures value { IfOk result (λ read. read ≡ member_read (list_read least greatest (T.reading most)) name.now (view value.now)) }
    ensures counted { IfOk result (λ read. IfSome read (λ parts. (least ≤ length parts) × (length parts ≤ greatest))) }
{
    let Some(items) = array_at(value, name) else {
        return Ok(None);
    };
    match read_items::<T>(alloc, items, most)? {
        Some(parts) => {
            let counted = least <= parts.len() && parts.len() <= greatest;
            Ok(kept_if(counted, parts))
        }
        None => Ok(None),
    }
}

/// A value, where it is kept.
pub fn kept_if<T: Drop>(keeps: bool, value: T) -> Option<T>
    ensures { result ≡ (if keeps then Some value else None) }
{
    if keeps {
        Some(value)
    } else {
        drop(value);
        None
    }
}

/// The items of the array that a member of an object holds.
fn array_at<'v>(value: &'v Value, name: &str) -> Option<&'v [Value]>
    ensures { option_map (λ items. items_view items.now) result ≡ option_and_then as_array (get name.now (view value.now)) }
{
    match value.get(name) {
        Some(found) => match found.as_array() {
            Some(items) => Some(items.as_slice()),
            None => None,
        },
        None => None,
    }
}

/// The parts that these items are; none where one of them is none.
fn read_items<T: Part + Drop>(
    alloc: Global,
    items: &[Value],
    most: u32,
) -> Result<Option<List<T>>, NoMemory>
    requires { most ≤ T.limit }
    ensures { IfOk result (λ parts. parts ≡ read_each (T.reading most) (items_view items.now)) }
{
    let mut parts = List::new(alloc);
    for item in items {
        let Some(part) = T::read(item, most) else {
            return Ok(None);
        };
        parts.push(part)?;
    }
    Ok(Some(parts))
}
