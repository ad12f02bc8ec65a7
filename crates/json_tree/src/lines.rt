//! Reads and writes lines: compact JSON objects without floats.
ghost use Rattle.std.specs.Prelude.{◌≡◌, ◌<◌, ◌≤◌, ◌++◌, false, length, Some, Err, IfOk, IsUtf8};
ghost use Rattle.serde_json.specs.Data.{depth};
ghost use Rattle.serde_json.specs.Read.{read, max_depth};
ghost use Rattle.serde_json.specs.View.{view};
ghost use Rattle.serde_json.specs.Written.{has_float, compact_text};
ghost use Rattle.json_tree.specs.Lines.{IsLine, IsText, IsReadAs, line_read, text_read, newline};
ghost use Rattle.json_tree.specs.Canonical.{IsCanonical};

use crate::floats::contains_float;
use serde_json::Value;
use std::alloc::Global;

/// Why a line holds no object of the wire, the first that is so in this order.
#[derive(Clone, Copy, Debug, PartialEq, Eq, Drop)]
pub enum LineFault {
    /// The line has more bytes than the bound.
    TooLong,
    /// The line isn't UTF-8, or `serde_json` has no reading of it.
    NotJson,
    /// The line holds a value that is no object.
    NotObject,
    /// A number in the tree is neither a `u64` nor an `i64`.
    Float,
    /// An allocation failed.
    NoMemory,
}

/// A line wasn't written, since an allocation failed.
#[derive(Clone, Copy, Debug, Drop)]
pub struct LineNoMemory;

/// The object that a line of at most `bound` bytes holds.
///
/// A newline at the end counts among the bytes, and is a blank to the reader.
#[tactic(auto, using(crate::proofs::LineLaws::within_bound))]
pub fn read_line(alloc: Global, line: &[u8], bound: u64) -> Result<Value, LineFault>
    ensures exact { IsReadAs result (line_read bound line.now) }
    ensures too_long { bound < length line.now → result ≡ Err LineFault.TooLong }
    ensures found { IfOk result (λ v. IsLine bound line.now (view v)) }
    ensures no_float { IfOk result (λ v. has_float (view v) ≡ false) }
    ensures canonical { IfOk result (λ v. IsCanonical (view v)) }
{
    if line.len() as u64 > bound {
        return Err(LineFault::TooLong);
    }
    read_text(alloc, line)
}

/// The object that a text of any length holds; never `TooLong`.
///
/// A newline at its end is a blank to the reader.
#[tactic(auto, unfolding(crate::specs::Lines::text_read))]
pub fn read_text(alloc: Global, text: &[u8]) -> Result<Value, LineFault>
    ensures exact { IsReadAs result (text_read text.now) }
    ensures found { IfOk result (λ v. IsText text.now (view v)) }
    ensures no_float { IfOk result (λ v. has_float (view v) ≡ false) }
    ensures canonical { IfOk result (λ v. IsCanonical (view v)) }
{
    let value = match Value::from_slice(alloc, text) {
        Ok(value) => value,
        Err(error) if error.is_memory() => return Err(LineFault::NoMemory),
        Err(_) => return Err(LineFault::NotJson),
    };
    if !value.is_object() {
        return Err(LineFault::NotObject);
    }
    if contains_float(&value) {
        return Err(LineFault::Float);
    }
    Ok(value)
}

/// The value's compact text, and a newline.
pub fn line_of(alloc: Global, value: &Value) -> Result<Vec<u8>, LineNoMemory>
    requires { has_float (view value.now) ≡ false }
    ensures text { IfOk result (λ line. line.items ≡ compact_text (view value.now) ++ newline) }
    ensures utf8 { IfOk result (λ line. IsUtf8 (compact_text (view value.now))) }
    ensures reads_back { IfOk result (λ line. depth (view value.now) ≤ max_depth
        → read (compact_text (view value.now)) ≡ Some (view value.now)) }
    ensures line_utf8 { IfOk result (λ line. IsUtf8 line.items) }
    ensures line_reads_back { IfOk result (λ line. depth (view value.now) ≤ max_depth
        → read line.items ≡ Some (view value.now)) }
{
    let Ok(mut line) = value.to_vec(alloc) else {
        return Err(LineNoMemory);
    };
    match line.push(b'\n') {
        Ok(()) => Ok(line),
        Err(_) => Err(LineNoMemory),
    }
}
