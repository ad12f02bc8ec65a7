//! All the games as one game, which is picked by its name.
#![tactic(auto)]

mod any_g;
mod choice;
mod lifted;
mod names;
mod sizes;

pub use any_g::AnyG;
pub use choice::{AnyGame, by_name};
pub use names::{game_names, may_open};
pub use sizes::own_states_are_small;
