//! The states of described games as JSON, by the names and rows of their slots.
#![tactic(auto)]

mod bytes;
mod layout;
mod read;
mod rows;
mod values;
mod write;

pub use bytes::text_fits;
pub use layout::Layout;
pub use read::table_from_json;
pub use rows::layout_fits;
pub use values::table_to_json;
pub use write::write_table;
