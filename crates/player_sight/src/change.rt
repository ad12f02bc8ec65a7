//! What changed between two values that a player was shown.

ghost use Rattle.std.specs.Prelude.{◌≡◌, ◌++◌, ◌∷◌, [], IfOk, OnOk, false, true, if◌then◌else◌, is_some, map, option_map, bytes_eq};
ghost use Rattle.serde_json.specs.Data.{string, array, object, put};
ghost use Rattle.serde_json.specs.Find.{get};
ghost use Rattle.serde_json.specs.View.{view, items_of, members_view};
ghost use Rattle.serde_json.specs.Written.{compact_text, has_float, members_have_float};
ghost use Rattle.player_sight.specs.Change.{has_text_of, changed_members, lost_names, put_part, gone_part};

use crate::same::is_same;
use game_sheet::NoMemory;
use serde_json::{Map, Value};
use std::alloc::Global;

/// What of a new value is new to an old one, and what of the old one is gone.
///
/// The first is the object of the members of `new` that `old` lacks or has with another compact text, or all of `new`
/// where it is no object. The second is the list, in byte order, of the names that `old` has and `new` lacks.
pub fn changed(alloc: Global, old: &Value, new: &Value) -> Result<(Value, Value), NoMemory>
    requires old { has_float (view old.now) ≡ false }
    requires new { has_float (view new.now) ≡ false }
    ensures put { IfOk result (λ parts. view parts.0 ≡ put_part (view old.now) (view new.now)) }
    ensures gone { IfOk result (λ parts. view parts.1 ≡ gone_part (view old.now) (view new.now)) }
    ensures no_float { IfOk result (λ parts. (has_float (view parts.0) ≡ false) × (has_float (view parts.1) ≡ false)) }
{
    let gone = gone_between(alloc, old, new)?;
    match put_between(alloc, old, new) {
        Ok(put) => Ok((put, gone)),
        Err(no) => {
            drop(gone);
            Err(no)
        }
    }
}

#[tactic(auto, using(crate::proofs::Changes::no_object, crate::proofs::Changes::an_object))]
fn put_between(alloc: Global, old: &Value, new: &Value) -> Result<Value, NoMemory>
    requires old { has_float (view old.now) ≡ false }
    requires new { has_float (view new.now) ≡ false }
    ensures { IfOk result (λ v. view v ≡ put_part (view old.now) (view new.now)) }
{
    match new.as_object() {
        Some(members) => changed_of(alloc, old, members),
        None => Ok(new.clone()?),
    }
}

fn changed_of(alloc: Global, old: &Value, members: &Map<String, Value>) -> Result<Value, NoMemory>
    requires old { has_float (view old.now) ≡ false }
    requires new { members_have_float (members_view members.now.entries) ≡ false }
    ensures { IfOk result (λ v. view v ≡ object (changed_members (view old.now) (members_view members.now.entries))) }
{
    let mut map = Map::new(alloc);
    for (name, value) in members.iter() {
        put_if_changed(alloc, &mut map, old, name.as_str(), value)?;
    }
    Ok(Value::Object(map))
}

fn put_if_changed(
    alloc: Global,
    map: &mut Map<String, Value>,
    old: &Value,
    name: &str,
    value: &Value,
) -> Result<(), NoMemory>
    requires old { has_float (view old.now) ≡ false }
    requires new { has_float (view value.now) ≡ false }
    ensures { OnOk result (members_view map.new.entries
        ≡ (if has_text_of (view value.now) (get name.now (view old.now)) then members_view map.old.entries
        else put name.now (view value.now) (members_view map.old.entries))) }
{
    if is_kept(alloc, old, name, value)? {
        return Ok(());
    }
    let copied = value.clone()?;
    serde_json::put(map, alloc, name, copied)?;
    Ok(())
}

// Whether the old value has the member, with the same text.
#[tactic(auto, using(crate::proofs::Changes::float_free_in))]
fn is_kept(alloc: Global, old: &Value, name: &str, value: &Value) -> Result<bool, NoMemory>
    requires old { has_float (view old.now) ≡ false }
    requires new { has_float (view value.now) ≡ false }
    ensures { IfOk result (λ kept. kept ≡ has_text_of (view value.now) (get name.now (view old.now))) }
{
    match old.get(name) {
        Some(found) => is_same_text(alloc, found, value),
        None => Ok(false),
    }
}

// Where the two are seen to be the same, no text is made.
#[tactic(auto, using(crate::proofs::Changes::same_text))]
fn is_same_text(alloc: Global, a: &Value, b: &Value) -> Result<bool, NoMemory>
    requires first { has_float (view a.now) ≡ false }
    requires second { has_float (view b.now) ≡ false }
    ensures { IfOk result (λ same. same ≡ bytes_eq (compact_text (view a.now)) (compact_text (view b.now))) }
{
    if is_same(a, b) {
        return Ok(true);
    }
    let first = a.to_string(alloc)?;
    let second = b.to_string(alloc)?;
    Ok(first.as_str() == second.as_str())
}

fn gone_between(alloc: Global, old: &Value, new: &Value) -> Result<Value, NoMemory>
    ensures { IfOk result (λ v. view v ≡ gone_part (view old.now) (view new.now)) }
{
    match old.as_object() {
        Some(members) => lost_of(alloc, members, new),
        None => Ok(Value::Array(Vec::new(alloc))),
    }
}

fn lost_of(alloc: Global, members: &Map<String, Value>, new: &Value) -> Result<Value, NoMemory>
    ensures { IfOk result (λ v. view v ≡ array (items_of (map string (lost_names (members_view members.now.entries) (view new.now))))) }
{
    let mut names = Vec::new(alloc);
    for (name, _) in members.iter() {
        push_if_lost(alloc, &mut names, new, name.as_str())?;
    }
    Ok(Value::Array(names))
}

fn push_if_lost(
    alloc: Global,
    names: &mut Vec<Value>,
    new: &Value,
    name: &str,
) -> Result<(), NoMemory>
    ensures { OnOk result (map view names.new.items
        ≡ (if is_some (get name.now (view new.now)) then map view names.old.items else map view names.old.items ++ string name.now ∷ [])) }
{
    if new.get(name).is_some() {
        return Ok(());
    }
    let lost = Value::try_from_str(alloc, name)?;
    names.push(lost)?;
    Ok(())
}
