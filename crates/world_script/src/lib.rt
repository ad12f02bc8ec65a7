//! Scripts and worlds: what their steps do, and their runs over eight rooms.
#![tactic(auto)]

mod doing;
mod script;
mod world;

pub use script::run_script;
pub use world::run_world;
