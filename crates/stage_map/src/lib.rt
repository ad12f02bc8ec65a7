//! The map of active players: who may act, and which moves a seat has.
#![tactic(auto)]

mod active;
mod ended;
mod laws;
mod moves;
mod plan;
mod rows;
mod spec_rows;
mod stages;

pub use active::Active;
pub use ended::Ended;
pub use laws::{contexts_show_maps, followers_are_set, maps_stay_sound};
pub use moves::{is_active, moves_of};
