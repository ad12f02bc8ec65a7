//! Makes of an old value and the parts of a change the value that the change leads to.

ghost use Rattle.std.specs.Prelude.{◌≡◌, ◌||◌, List, ℕ, IfOk, OnOk, if◌then◌else◌};
ghost use Rattle.serde_json.specs.Data.{object, no_members, put};
ghost use Rattle.serde_json.specs.View.{view, items_view, members_view};
ghost use Rattle.json_tree.specs.Names.{is_known};
ghost use Rattle.player_sight.specs.Change.{members_in, text_before, texts_from, texts_in, without, with_members, patched};

use game_sheet::NoMemory;
use serde_json::{Map, Value};
use std::alloc::Global;

/// The value that a change leads to: the members of `old` but those that the list `gone` names, with the members of `put` set; or
/// `put` as it is, where it is no object.
#[tactic(auto, using(crate::proofs::Patches::no_object, crate::proofs::Patches::an_object))]
pub fn patched(alloc: Global, old: &Value, gone: &Value, put: &Value) -> Result<Value, NoMemory>
    ensures { IfOk result (λ v. view v ≡ patched (view old.now) (view gone.now) (view put.now)) }
{
    match put.as_object() {
        Some(members) => patched_object(alloc, old, gone, members),
        None => Ok(put.clone()?),
    }
}

fn patched_object(
    alloc: Global,
    old: &Value,
    gone: &Value,
    members: &Map<String, Value>,
) -> Result<Value, NoMemory>
    ensures { IfOk result (λ v. view v ≡ object
        (with_members (without (texts_in (view gone.now)) (members_in (view old.now))) (members_view members.now.entries))) }
{
    let mut map = Map::new(alloc);
    match fill(alloc, &mut map, old, gone, members) {
        Ok(()) => Ok(Value::Object(map)),
        Err(no) => {
            drop(map);
            Err(no)
        }
    }
}

fn fill(
    alloc: Global,
    map: &mut Map<String, Value>,
    old: &Value,
    gone: &Value,
    members: &Map<String, Value>,
) -> Result<(), NoMemory>
    requires { members_view map.old.entries ≡ no_members }
    ensures { OnOk result (members_view map.new.entries
        ≡ with_members (without (texts_in (view gone.now)) (members_in (view old.now))) (members_view members.now.entries)) }
{
    keep(alloc, map, old, gone)?;
    put_members(alloc, map, members)
}

#[tactic(auto, using(crate::proofs::Patches::of_object, crate::proofs::Patches::of_no_object))]
fn keep(
    alloc: Global,
    map: &mut Map<String, Value>,
    old: &Value,
    gone: &Value,
) -> Result<(), NoMemory>
    requires { members_view map.old.entries ≡ no_members }
    ensures { OnOk result (members_view map.new.entries ≡ without (texts_in (view gone.now)) (members_in (view old.now))) }
{
    match old.as_object() {
        Some(members) => keep_members(alloc, map, members, gone),
        None => Ok(()),
    }
}

fn keep_members(
    alloc: Global,
    map: &mut Map<String, Value>,
    members: &Map<String, Value>,
    gone: &Value,
) -> Result<(), NoMemory>
    requires { members_view map.old.entries ≡ no_members }
    ensures { OnOk result (members_view map.new.entries ≡ without (texts_in (view gone.now)) (members_view members.now.entries)) }
{
    for (name, value) in members.iter() {
        keep_member(alloc, map, gone, name.as_str(), value)?;
    }
    Ok(())
}

// Copies the member, unless it is gone.
fn keep_member(
    alloc: Global,
    map: &mut Map<String, Value>,
    gone: &Value,
    name: &str,
    value: &Value,
) -> Result<(), NoMemory>
    ensures { OnOk result (members_view map.new.entries ≡ (if is_known (texts_in (view gone.now)) name.now
        then members_view map.old.entries else put name.now (view value.now) (members_view map.old.entries))) }
{
    if is_named(gone, name) {
        return Ok(());
    }
    put_member(alloc, map, name, value)
}

fn put_member(
    alloc: Global,
    map: &mut Map<String, Value>,
    name: &str,
    value: &Value,
) -> Result<(), NoMemory>
    ensures { OnOk result (members_view map.new.entries ≡ put name.now (view value.now) (members_view map.old.entries)) }
{
    let copied = value.clone()?;
    serde_json::put(map, alloc, name, copied)?;
    Ok(())
}

fn put_members(
    alloc: Global,
    map: &mut Map<String, Value>,
    members: &Map<String, Value>,
) -> Result<(), NoMemory>
    ensures { OnOk result (members_view map.new.entries ≡ with_members (members_view map.old.entries) (members_view members.now.entries)) }
{
    for (name, value) in members.iter() {
        put_member(alloc, map, name.as_str(), value)?;
    }
    Ok(())
}

// Whether the list has this text.
#[tactic(auto, using(crate::proofs::Patches::texts_of, crate::proofs::Patches::no_texts))]
fn is_named(gone: &Value, name: &str) -> bool
    ensures { result ≡ is_known (texts_in (view gone.now)) name.now }
{
    match gone.as_array() {
        Some(items) => is_among(items.as_slice(), name),
        None => false,
    }
}

fn is_among(items: &[Value], name: &str) -> bool
    ensures { result ≡ is_known (texts_from (items_view items.now)) name.now }
{
    for item in items {
        if is_text(item, name) {
            return true;
        }
    }
    false
}

#[tactic(auto, using(crate::proofs::Patches::text_first, crate::proofs::Patches::no_text_first))]
fn is_text(item: &Value, name: &str) -> bool
    ensures { (rest : List (List ℕ)) → (result || is_known rest name.now) ≡ is_known (text_before (view item.now) rest) name.now }
{
    match item.as_str() {
        Some(text) => name == text,
        None => false,
    }
}
