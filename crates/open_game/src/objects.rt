//! JSON objects of one or two members.

ghost use Rattle.std.specs.Prelude.{◌≡◌, IfOk, OnOk};
ghost use Rattle.serde_json.specs.Data.{member, no_members, object, put};
ghost use Rattle.serde_json.specs.View.{members_view, view};

use serde_json::{Map, Value};
use std::alloc::{AllocError, Global};

/// An object with one member.
pub fn object_of_one(alloc: Global, name: &str, part: Value) -> Result<Value, AllocError>
    ensures { IfOk result (λ v. view v ≡ object (member name.now (view part) no_members)) }
{
    let mut map = Map::new(alloc);
    match serde_json::put(&mut map, alloc, name, part) {
        Ok(()) => Ok(Value::Object(map)),
        Err(error) => {
            drop(map);
            Err(error)
        }
    }
}

/// An object into which one member is put, and then another.
pub fn object_of_two(
    alloc: Global,
    one: &str,
    first: Value,
    two: &str,
    second: Value,
) -> Result<Value, AllocError>
    ensures { IfOk result (λ v. view v ≡ object (put two.now (view second) (member one.now (view first) no_members))) }
{
    let mut map = Map::new(alloc);
    match put_two(alloc, &mut map, one, first, two, second) {
        Ok(()) => Ok(Value::Object(map)),
        Err(error) => {
            drop(map);
            Err(error)
        }
    }
}

/// Puts two members into an object.
fn put_two(
    alloc: Global,
    map: &mut Map<String, Value>,
    one: &str,
    first: Value,
    two: &str,
    second: Value,
) -> Result<(), AllocError>
    ensures { OnOk result (members_view map.new.entries ≡ put two.now (view second) (put one.now (view first) (members_view map.old.entries))) }
{
    match serde_json::put(map, alloc, one, first) {
        Ok(()) => serde_json::put(map, alloc, two, second),
        Err(error) => {
            drop(second);
            Err(error)
        }
    }
}
