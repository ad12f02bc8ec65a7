//! The bytes of a journal: a source read whole, and how many records they have.
#![tactic(auto)]

mod counting;
mod given;

pub use counting::count_records;
pub use given::{NotGiven, all_bytes};
