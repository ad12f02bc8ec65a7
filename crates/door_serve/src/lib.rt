//! A server of matches: rooms, places and workers over a door, and the report when the last session is over.
#![tactic(auto)]

mod closing;
mod keeping;
mod opening;
mod reporting;
mod serving;

pub use serving::{ServeEnd, serve_rooms};
