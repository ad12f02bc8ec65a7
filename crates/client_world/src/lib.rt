//! A world in one process: the rooms of a server, its clients, and a link to and from the session of each.
#![tactic(auto)]

mod act_text;
mod handing;
mod link;
mod peer;
mod peers;
mod player;
mod reading;
mod showing;
mod step;
mod telling;
mod words;
mod world;

pub use reading::read_world_step;
pub use step::WorldStep;
pub use world::ClientWorld;
