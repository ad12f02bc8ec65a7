//! The states of the table games: how they are written down, what the games' rules mean on them, and the rules' laws.
#![tactic(auto)]

mod board;
mod heap;
mod scores;

pub use board::Board;
pub use heap::Heap;
pub use scores::Scores;
