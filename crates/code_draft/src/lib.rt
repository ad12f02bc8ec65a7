//! Code of described games while it is put together: each expression and statement with what is known of it,
//! which is its kind, the bounds of its numbers, its greatest count of steps and how deep it is.
//!
//! Each operation makes one node of the language, as it counts them: a row of them is no node, a list is one.
//! An operation never fails: where memory runs out it gives null or does nothing, and the maker says so.
#![tactic(auto)]

mod bounds;
mod cost;
mod deeds;
mod draft;
mod gathers;
mod maker;
mod nodes;
mod places;
mod rows;
mod values;

pub use bounds::{Bounds, rounds_of};
pub use cost::Cost;
pub use deeds::Deed;
pub use draft::{Draft, Facts, Kind, joined_kind};
pub use gathers::Span;
pub use maker::{MOST_NODES, Maker};
pub use places::{ListDraft, ListFacts, PlaceDraft};
pub use rows::DeedRow;
