//! How the items of a slot are kept.

ghost use Rattle.std.specs.Prelude.{◌≡◌, ◌∷◌, ◌++◌, ◌<◌, ◌↔◌, [], IfOk, IfSome, IsTrue, OnOk, Some, length, map, remove, replicate, slice_get, slice_index_or, slice_set, swap};
ghost use Rattle.slot_values.specs.Values.{whole};
ghost use Rattle.game_slots.specs.Keeping.{kept_items};
ghost use Rattle.game_slots.specs.Slots.{item_in, place_in};

use game_sheet::{Arg, NoMemory};
use slot_values::{Number, Value, same_values, whole};
use std::alloc::Global;

/// The items of a slot: as numbers while there is no text among them.
pub(crate) enum Kept {
    /// Numbers and null.
    Numbers(Vec<Number>),
    /// Any values.
    Values(Vec<Value>),
}

impl Drop for Kept {
    fn drop(self) {
        match self {
            Kept::Numbers(numbers) => drop(numbers),
            Kept::Values(values) => drop(values),
        }
    }
}

/// How many items there are.
pub(crate) fn len(kept: &Kept) -> usize
    ensures { result ≡ length (kept_items kept.now) }
{
    match kept {
        Kept::Numbers(numbers) => numbers.len(),
        Kept::Values(values) => values.len(),
    }
}

/// The item at a place.
pub(crate) fn item(kept: &Kept, place: usize) -> Value
    requires { place < length (kept_items kept.now) }
    ensures value { slice_get (kept_items kept.now) place ≡ Some result }
    ensures indexed { result ≡ slice_index_or (kept_items kept.now) place result }
{
    match kept {
        Kept::Numbers(numbers) => whole(numbers[place]),
        Kept::Values(values) => values[place],
    }
}

/// A number as a place of so many.
pub fn place_in(at: Number, count: usize) -> Option<usize>
    ensures value { result ≡ place_in at count }
    ensures below { IfSome result (λ place. place < count) }
{
    match at {
        Some(n) => {
            if n >= 0 && (n as u32 as usize) < count {
                Some(n as u32 as usize)
            } else {
                None
            }
        }
        None => None,
    }
}

/// The item at a place; null where there is no such place.
pub(crate) fn get(kept: &Kept, at: Number) -> Value
    ensures { result ≡ item_in (kept_items kept.now) at }
{
    match place_in(at, len(kept)) {
        Some(place) => item(kept, place),
        None => None,
    }
}

/// Puts a value in the place of an item.
pub(crate) fn put(kept: &mut Kept, place: usize, value: &Value) -> Result<(), NoMemory>
    requires { place < length (kept_items kept.old) }
    ensures { OnOk result (kept_items kept.new ≡ slice_set (kept_items kept.old) place value.now) }
{
    match kept {
        Kept::Numbers(numbers) => match plain(value) {
            Some(number) => {
                numbers[place] = number;
                Ok(())
            }
            None => {
                let mut values = widened(numbers)?;
                values[place] = *value;
                *kept = Kept::Values(values);
                Ok(())
            }
        },
        Kept::Values(values) => {
            values[place] = *value;
            Ok(())
        }
    }
}

/// What a value is as a number or null; none where it is a text.
fn plain(value: &Value) -> Option<Number>
    ensures { IfSome result (λ number. value.now ≡ whole number) }
{
    match value {
        None => Some(None),
        Some(Arg::Whole(number)) => Some(Some(*number)),
        Some(Arg::Text(_)) => None,
    }
}

/// Adds a value at the end.
pub(crate) fn add(kept: &mut Kept, value: &Value) -> Result<(), NoMemory>
    ensures { OnOk result (kept_items kept.new ≡ kept_items kept.old ++ value.now ∷ []) }
{
    match kept {
        Kept::Numbers(numbers) => match plain(value) {
            Some(number) => Ok(numbers.push(number)?),
            None => {
                *kept = Kept::Values(widened_with(numbers, value)?);
                Ok(())
            }
        },
        Kept::Values(values) => Ok(values.push(*value)?),
    }
}

/// The same numbers as values, and a value at the end.
fn widened_with(numbers: &Vec<Number>, value: &Value) -> Result<Vec<Value>, NoMemory>
    ensures { IfOk result (λ values. values.items ≡ map whole numbers.now.items ++ value.now ∷ []) }
{
    let mut values = widened(numbers)?;
    values.push(*value)?;
    Ok(values)
}

/// The same numbers as values.
fn widened(numbers: &Vec<Number>) -> Result<Vec<Value>, NoMemory>
    ensures { IfOk result (λ values. values.items ≡ map whole numbers.now.items) }
{
    let mut values = Vec::with_capacity(*numbers.allocator(), numbers.len())?;
    for number in numbers.as_slice() {
        values.push(whole(*number))?;
    }
    Ok(values)
}

/// Takes an item out.
pub(crate) fn take_out(kept: &mut Kept, place: usize)
    requires { place < length (kept_items kept.old) }
    ensures { kept_items kept.new ≡ remove (kept_items kept.old) place }
{
    match kept {
        Kept::Numbers(numbers) => {
            numbers.remove(place);
        }
        Kept::Values(values) => {
            values.remove(place);
        }
    }
}

/// Takes all items out.
pub(crate) fn empty(kept: &mut Kept)
    ensures { kept_items kept.new ≡ [] }
{
    match kept {
        Kept::Numbers(numbers) => numbers.clear(),
        Kept::Values(values) => values.clear(),
    }
}

/// Two items change places.
pub(crate) fn exchange(kept: &mut Kept, one: usize, other: usize)
    requires one { one < length (kept_items kept.old) }
    requires other { other < length (kept_items kept.old) }
    ensures { kept_items kept.new ≡ swap (kept_items kept.old) one other }
{
    match kept {
        Kept::Numbers(numbers) => numbers.swap(one, other),
        Kept::Values(values) => values.swap(one, other),
    }
}

/// Puts a value in the place of each item.
pub(crate) fn fill(kept: &mut Kept, value: &Value) -> Result<(), NoMemory>
    ensures { OnOk result (kept_items kept.new ≡ replicate (length (kept_items kept.old)) value.now) }
{
    for place in 0..len(kept) {
        put(kept, place, value)?;
    }
    Ok(())
}

/// Adds a value so many times at the end.
pub(crate) fn add_many(kept: &mut Kept, count: u32, value: &Value) -> Result<(), NoMemory>
    ensures { OnOk result (kept_items kept.new ≡ kept_items kept.old ++ replicate count value.now) }
{
    for _ in 0..count {
        add(kept, value)?;
    }
    Ok(())
}

/// Whether the items are the same, of which there are as many.
pub(crate) fn same_items(one: &Kept, other: &Kept) -> bool
    requires { length (kept_items one.now) ≡ length (kept_items other.now) }
    ensures { IsTrue result ↔ (kept_items one.now ≡ kept_items other.now) }
{
    for place in 0..len(one) {
        if !same_values(&item(one, place), &item(other, place)) {
            return false;
        }
    }
    true
}

/// Equal items.
pub(crate) fn copied(kept: &Kept, alloc: Global) -> Result<Kept, NoMemory>
    ensures { IfOk result (λ copied. kept_items copied ≡ kept_items kept.now) }
{
    match kept {
        Kept::Numbers(numbers) => Ok(Kept::Numbers(Vec::from_slice(alloc, numbers.as_slice())?)),
        Kept::Values(values) => Ok(Kept::Values(Vec::from_slice(alloc, values.as_slice())?)),
    }
}
