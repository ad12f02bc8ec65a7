//! Whether two values are seen to be the same, without their texts.

ghost use Rattle.std.specs.Prelude.{◌≡◌, true};
ghost use Rattle.serde_json.specs.View.{view, items_view};

use serde_json::Value;

/// Whether both are the same number from 0, text, truth value or null, or lists of such. It takes no memory.
#[cycle(same)]
pub fn is_same(a: &Value, b: &Value) -> bool
    ensures { result ≡ true → view a.now ≡ view b.now }
{
    match (a, b) {
        (Value::Array(a), Value::Array(b)) => are_same(a, b),
        _ => is_plainly_equal(a, b),
    }
}

#[cycle(same)]
fn are_same(a: &[Value], b: &[Value]) -> bool
    ensures { result ≡ true → items_view a.now ≡ items_view b.now }
{
    if a.len() != b.len() {
        return false;
    }
    let mut place = 0;
    for item in a {
        if place >= b.len() || !is_same(item, &b[place]) {
            return false;
        }
        place += 1;
    }
    true
}

// Whether both are the same number from 0, text, truth value or null.
#[tactic(auto, using(crate::proofs::Changes::is_natural, crate::proofs::Changes::is_text, crate::proofs::Changes::is_truth, crate::proofs::Changes::is_nothing))]
fn is_plainly_equal(a: &Value, b: &Value) -> bool
    ensures { result ≡ true → view a.now ≡ view b.now }
{
    if let (Some(a), Some(b)) = (a.as_u64(), b.as_u64()) {
        return a == b;
    }
    if let (Some(a), Some(b)) = (a.as_str(), b.as_str()) {
        return a == b;
    }
    if let (Some(a), Some(b)) = (a.as_bool(), b.as_bool()) {
        return a == b;
    }
    a.is_null() && b.is_null()
}
