//! Undo and redo over any machine of steps: a trail keeps what was done and what was undone, and each state between.
#![tactic(auto)]

mod machine;
mod steps;
mod trail;

pub use machine::Machine;
pub use steps::Step;
pub use trail::{ROOM, Trail, keeps_struck_list, new_is_a_trail};
