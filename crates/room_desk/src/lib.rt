//! The turn lock: calls of many threads on one object, made in one order that is one history.
#![tactic(auto)]

mod desk;
mod pass;
mod show;
mod turn;
mod turns;
mod view;

pub use desk::{Desk, MOST_PASSES, PassesOut};
pub use pass::Pass;
