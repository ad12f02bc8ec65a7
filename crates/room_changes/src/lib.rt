//! The changes that a room accepts, and what they make of it: what has to be kept of a room so that its matches can be made again.
#![tactic(auto)]

mod change;
mod laws;

pub use change::Change;
pub use laws::changes_make_the_matches;
