//! A script over one room that keeps its accepted changes in a journal: a line is printed only where all of its changes were kept.
#![tactic(auto)]

mod hall;
mod opening;
mod play;
mod running;
mod visiting;

pub use hall::KeptHall;
pub use running::run_kept;
pub use visiting::OneRoom;
