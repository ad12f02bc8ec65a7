//! Where two JSON values differ.

use crate::put::put_text;
use game_sheet::NoMemory;
use json_text::put_natural;
use serde_json::{Map, Number, Value};
use std::alloc::Global;

/// Whether two values are the same. It takes no memory.
#[cycle(sameness)]
pub(crate) fn are_same(ours: &Value, theirs: &Value) -> bool {
    match (ours, theirs) {
        (Value::Null, Value::Null) => true,
        (Value::Bool(a), Value::Bool(b)) => *a == *b,
        (Value::Number(a), Value::Number(b)) => is_number(a, b),
        (Value::String(a), Value::String(b)) => a.as_str() == b.as_str(),
        (Value::Array(a), Value::Array(b)) => are_items(a.as_slice(), b.as_slice()),
        (Value::Object(a), Value::Object(b)) => are_members(a, b),
        _ => false,
    }
}

fn is_number(a: &Number, b: &Number) -> bool {
    match (a.as_i64(), b.as_i64()) {
        (Some(a), Some(b)) => a == b,
        (None, None) => match (a.as_u64(), b.as_u64()) {
            (Some(a), Some(b)) => a == b,
            _ => false,
        },
        _ => false,
    }
}

#[cycle(sameness)]
fn are_items(ours: &[Value], theirs: &[Value]) -> bool {
    if ours.len() != theirs.len() {
        return false;
    }
    let mut place = 0;
    for item in ours {
        match theirs.get(place) {
            Some(other) if are_same(item, other) => place += 1,
            _ => return false,
        }
    }
    true
}

#[cycle(sameness)]
fn are_members(ours: &Map<String, Value>, theirs: &Map<String, Value>) -> bool {
    if ours.len() != theirs.len() {
        return false;
    }
    for (name, member) in ours.iter() {
        match theirs.get(name.as_str()) {
            Some(other) if are_same(member, other) => {}
            _ => return false,
        }
    }
    true
}

/// Appends the first place where two values differ, and what stands there in each.
#[cycle(difference)]
pub(crate) fn put_difference(
    alloc: Global,
    out: &mut Vec<u8>,
    ours: &Value,
    theirs: &Value,
) -> Result<(), NoMemory> {
    match (ours, theirs) {
        (Value::Array(a), Value::Array(b)) => put_in_items(alloc, out, a.as_slice(), b.as_slice()),
        (Value::Object(a), Value::Object(b)) => put_in_members(alloc, out, a, b),
        _ => put_pair(alloc, out, Some(ours), Some(theirs)),
    }
}

#[cycle(difference)]
fn put_in_items(
    alloc: Global,
    out: &mut Vec<u8>,
    ours: &[Value],
    theirs: &[Value],
) -> Result<(), NoMemory> {
    let mut place = 0;
    for item in ours {
        match theirs.get(place) {
            Some(other) if are_same(item, other) => place += 1,
            Some(other) => {
                put_place(out, place)?;
                return put_difference(alloc, out, item, other);
            }
            None => {
                put_place(out, place)?;
                return put_pair(alloc, out, Some(item), None);
            }
        }
    }
    put_place(out, place)?;
    put_pair(alloc, out, None, theirs.get(place))
}

fn put_place(out: &mut Vec<u8>, place: usize) -> Result<(), NoMemory> {
    out.push(b'[')?;
    put_natural(out, place as u64)?;
    Ok(out.push(b']')?)
}

#[cycle(difference)]
fn put_in_members(
    alloc: Global,
    out: &mut Vec<u8>,
    ours: &Map<String, Value>,
    theirs: &Map<String, Value>,
) -> Result<(), NoMemory> {
    for (name, member) in ours.iter() {
        match theirs.get(name.as_str()) {
            Some(other) if are_same(member, other) => {}
            Some(other) => {
                put_name(out, name.as_str())?;
                return put_difference(alloc, out, member, other);
            }
            None => {
                put_name(out, name.as_str())?;
                return put_pair(alloc, out, Some(member), None);
            }
        }
    }
    put_other_member(alloc, out, ours, theirs)
}

/// Appends the first member that the row alone has.
fn put_other_member(
    alloc: Global,
    out: &mut Vec<u8>,
    ours: &Map<String, Value>,
    theirs: &Map<String, Value>,
) -> Result<(), NoMemory> {
    for (name, member) in theirs.iter() {
        if ours.get(name.as_str()).is_none() {
            put_name(out, name.as_str())?;
            return put_pair(alloc, out, None, Some(member));
        }
    }
    Ok(())
}

fn put_name(out: &mut Vec<u8>, name: &str) -> Result<(), NoMemory> {
    out.push(b'.')?;
    put_text(out, name)
}

/// Appends what the game gives at a place and what the row says.
fn put_pair(
    alloc: Global,
    out: &mut Vec<u8>,
    ours: Option<&Value>,
    theirs: Option<&Value>,
) -> Result<(), NoMemory> {
    put_text(out, ": the game gives ")?;
    put_value(alloc, out, ours)?;
    put_text(out, ", the row says ")?;
    put_value(alloc, out, theirs)
}

fn put_value(alloc: Global, out: &mut Vec<u8>, value: Option<&Value>) -> Result<(), NoMemory> {
    match value {
        Some(value) => {
            let text = value.to_vec(alloc)?;
            Ok(out.extend_from_slice(text.as_slice())?)
        }
        None => put_text(out, "nothing"),
    }
}
