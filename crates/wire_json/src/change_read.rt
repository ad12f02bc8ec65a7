//! Reads what a change says of the context and of the state.

ghost use Rattle.std.specs.Prelude.{◌≡◌, false, IfOk, codes};
ghost use Rattle.std.specs.Result.{result_map_both};
ghost use Rattle.serde_json.specs.Find.{get};
ghost use Rattle.serde_json.specs.View.{view, items_view};
ghost use Rattle.serde_json.specs.Written.{has_float};
ghost use Rattle.wire_json.specs.Acts.{is_object, object_member_in};
ghost use Rattle.wire_json.specs.ChangeReading.{are_texts, is_texts, if_holds, parts_of, parts_in, later_in, before_in};
ghost use Rattle.wire_json.specs.Refusals.{Gives, at_field};

use crate::members::number_member_of;
use crate::wire_no::WireNo;
use game_sheet::{NoMemory, Number};
use json_tree::{FieldFault, Tree, extra_field};
use serde_json::Value;

/// The object that the member holds, or the member's fault.
#[tactic(auto, using(crate::proofs::Trees::float_free_part))]
pub fn object_at(value: &Value, name: &'static str) -> Result<Tree, WireNo>
    requires { has_float (view value.now) ≡ false }
    ensures { Gives result (at_field name.now (object_member_in (get name.now (view value.now)))) }
{
    match object_of(value, name) {
        Ok(member) => match member.clone() {
            Ok(copy) => Ok(Tree::new(copy)),
            Err(_) => Err(WireNo::NoMemory),
        },
        Err(fault) => Err(WireNo::Field { name, fault }),
    }
}

fn object_of<'v>(value: &'v Value, name: &str) -> Result<&'v Value, FieldFault>
    ensures { result_map_both (λ member. view member.now) (λ fault. fault) result ≡ object_member_in (get name.now (view value.now)) }
{
    match value.get(name) {
        Some(member) if member.is_object() => Ok(member),
        Some(_) => Err(FieldFault::WrongKind),
        None => Err(FieldFault::Missing),
    }
}

/// The names that are gone and the members that are put, as the member holds them, or the member's fault.
#[tactic(auto, using(crate::proofs::Trees::float_free_part))]
pub fn parts_at(value: &Value, name: &'static str) -> Result<(Tree, Tree), WireNo>
    requires { has_float (view value.now) ≡ false }
    ensures { Gives result (at_field name.now (parts_in (get name.now (view value.now)))) }
{
    let member = match object_of(value, name) {
        Ok(member) => member,
        Err(fault) => return Err(WireNo::Field { name, fault }),
    };
    match parts_of(member) {
        Ok(Some(parts)) => Ok(parts),
        Ok(None) => Err(WireNo::Field {
            name,
            fault: FieldFault::OutOfRange,
        }),
        Err(_) => Err(WireNo::NoMemory),
    }
}

#[tactic(auto, unfolding(crate::specs::ChangeReading::parts_of))]
fn parts_of(value: &Value) -> Result<Option<(Tree, Tree)>, NoMemory>
    requires { has_float (view value.now) ≡ false }
    ensures { IfOk result (λ parts. parts ≡ parts_of (view value.now)) }
{
    if extra_field(value, &["gone", "put"]) {
        return Ok(None);
    }
    let Some(gone) = gone_of(value)? else {
        return Ok(None);
    };
    match put_of(value) {
        Ok(Some(put)) => Ok(Some((gone, put))),
        Ok(None) => {
            drop(gone);
            Ok(None)
        }
        Err(no) => {
            drop(gone);
            Err(no)
        }
    }
}

#[tactic(auto, using(crate::proofs::Trees::float_free_part))]
fn gone_of(value: &Value) -> Result<Option<Tree>, NoMemory>
    requires { has_float (view value.now) ≡ false }
    ensures { IfOk result (λ tree. tree ≡ if_holds is_texts (get (codes "gone") (view value.now))) }
{
    match value.get("gone") {
        Some(member) if holds_texts(member) => {
            let copy = member.clone()?;
            Ok(Some(Tree::new(copy)))
        }
        _ => Ok(None),
    }
}

fn holds_texts(value: &Value) -> bool
    ensures { result ≡ is_texts (view value.now) }
{
    match value.as_array() {
        Some(items) => are_texts(items.as_slice()),
        None => false,
    }
}

fn are_texts(items: &[Value]) -> bool
    ensures { result ≡ are_texts (items_view items.now) }
{
    for item in items {
        if !item.is_string() {
            return false;
        }
    }
    true
}

#[tactic(auto, using(crate::proofs::Trees::float_free_part))]
fn put_of(value: &Value) -> Result<Option<Tree>, NoMemory>
    requires { has_float (view value.now) ≡ false }
    ensures { IfOk result (λ tree. tree ≡ if_holds is_object (get (codes "put") (view value.now))) }
{
    match value.get("put") {
        Some(member) if member.is_object() => {
            let copy = member.clone()?;
            Ok(Some(Tree::new(copy)))
        }
        _ => Ok(None),
    }
}

/// The state number after a change, which is at least 1.
pub fn later_of(value: &Value, name: &str) -> Result<Number, FieldFault>
    ensures { result ≡ later_in (get name.now (view value.now)) }
{
    let number = number_member_of(value, name)?;
    if 1 <= number {
        Ok(number)
    } else {
        Err(FieldFault::OutOfRange)
    }
}

/// The state number before a change, which is one less than that after it.
pub fn before_of(value: &Value, name: &str, number: Number) -> Result<Number, FieldFault>
    ensures { result ≡ before_in number (get name.now (view value.now)) }
{
    let was = number_member_of(value, name)?;
    if was as u64 + 1 == number as u64 {
        Ok(was)
    } else {
        Err(FieldFault::OutOfRange)
    }
}
