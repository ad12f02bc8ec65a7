//! A game's state in three parts, of which each viewer sees what is common and what is its own.
#![tactic(auto)]

mod laws;
mod part;
mod split;

pub use laws::{view_of_a_view, view_shows_no_more};
pub use part::CopyPart;
pub use split::Split;
