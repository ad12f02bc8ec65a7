//! Reads a line as a JSON object without floats, looks into it, and writes such objects as lines.
//!
//! What a line holds is what `serde_json` reads. On top of that a line has a bound on its length, its
//! value is an object, and no number in it is a float.
#![tactic(auto)]

mod fields;
mod floats;
mod lines;
mod tree;

pub use fields::{FieldFault, extra_field, list_of, natural_of, text_of, whole_of};
pub use floats::contains_float;
pub use lines::{LineFault, LineNoMemory, line_of, read_line, read_text};
pub use tree::Tree;
