//! Whether a value holds a float anywhere in it.
ghost use Rattle.std.specs.Prelude.{◌≡◌};
ghost use Rattle.serde_json.specs.View.{view, items_view, members_view};
ghost use Rattle.serde_json.specs.Written.{has_float, items_have_float, members_have_float};

use serde_json::{Map, Value};

/// Whether some number in the tree is neither a `u64` nor an `i64`. It takes no memory.
#[cycle(floats)]
pub fn contains_float(value: &Value) -> bool
    ensures { result ≡ has_float (view value.now) }
{
    match value {
        Value::Number(number) => number.is_f64(),
        Value::Array(items) => any_item(items),
        Value::Object(members) => any_member(members),
        _ => false,
    }
}

#[cycle(floats)]
fn any_item(items: &[Value]) -> bool
    ensures { result ≡ items_have_float (items_view items.now) }
{
    for item in items {
        if contains_float(item) {
            return true;
        }
    }
    false
}

#[cycle(floats)]
fn any_member(members: &Map<String, Value>) -> bool
    ensures { result ≡ members_have_float (members_view members.now.entries) }
{
    for (_key, member) in members.iter() {
        if contains_float(member) {
            return true;
        }
    }
    false
}
