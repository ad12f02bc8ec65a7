//! The random words of a match, drawn one after another, and the dice and shuffles that are made of them.
#![tactic(auto)]

mod spent;
mod stream;
mod tape;

pub use spent::Spent;
pub use tape::Tape;
