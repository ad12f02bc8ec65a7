//! The roster of a match: who sits at which seat, under which name and with which key.
#![tactic(auto)]

mod name;
mod refusal;
mod roster;

pub use refusal::RosterNo;
pub use roster::Roster;
